//! Hands the lines of a text to a judge while the text comes in pieces, and names the first line that is refused.
//!
//! Clause: a text is judged line by line however it is cut, and ends with the judge or with the first refused line
//! (`took`; the clause of `finish`).
//!
//! ```rust
//! // `judge` is a `Judge` for which the one whole text is "end\n"
//! let feed = Feed::new(alloc, judge, 1024);
//! let feed = feed.feed(b"en")?.feed(b"d\nmore\n")?;
//! assert!(rt; matches!(feed.finish(), Finished::Refused(2)));
//! ```
//!
//! A [`Judge`] says of each line whether what it saw so far may go on to a whole text. A [`Feed`] cuts the
//! pieces into lines, hands them to its judge, and answers at the end: the text is whole, or its first line
//! that is refused has this number, or it is longer than the limit. Which pieces the text came in changes
//! nothing. It takes memory for one line that goes over a cut, and for what the judge takes.
//!
//! `specs/Texts.antt` says what lines, a whole text and a refused line are.
#![tactic(auto)]

mod feed;
mod judge;
mod judged;
mod laws;
mod line;

pub use feed::{Feed, Finished};
pub use judge::Judge;
pub use laws::{a_text_has_one_answer, no_text_is_whole_and_refused, one_line_is_refused};
pub use line::split_line;
