//! Which Or a turn splits, and which steps of a refutation are not needed: hints. No clause speaks of what they say. What
//! they propose is tested before it is split (`search/candidate.rt`), and the steps that are left are judged. What is
//! proved of them is that they end, stay in bounds and leave the graph as it was.
//!
//! The search calls them here, and nowhere else:
//!
//! | call | when |
//! |---|---|
//! | `Agenda::new` | before the tree is asserted |
//! | `Agenda::note` | a side was entered, and nothing clashed: what changed is noted (`changes.rt`, `watch.rt`, `standing.rt`) |
//! | `Agenda::first_open` | is there a choice, and which is the first? (`truth.rt`) |
//! | `Agenda::guide` | does a failure that is replayed say what comes next? (`failures.rt`) |
//! | `propose` | what comes next? (`propose.rt`, `clashing_pairs.rt`, `alternatives.rt`, `records.rt`) |
//! | `Agenda::split` | it is split, and its right side waits |
//! | `Agenda::learn` | a leaf closes a side by a clash (`failures.rt`, `conflict_sets.rt`, `levels.rt`) |
//! | `Agenda::go_back` | the next side that waits is entered |
//! | `Agenda::take_cuts` | the refutation is handed out |

mod agenda;
mod alternatives;
mod bits;
mod changes;
mod clashing_pairs;
mod conflict_sets;
mod failures;
mod levels;
mod propose;
mod records;
mod standing;
mod truth;
mod walk;
mod watch;

pub(crate) use agenda::Agenda;
pub(crate) use propose::propose;
