//! The commands `verify MODEL TEST CERT` and `verify-lifted MODEL TEST CERT`: is the third file a certificate of the
//! test on the model, or a lifted refutation of it?
//!
//! Clause: `verify` returns what a third file is to two others, or how the command ends before that (its clause).
//!
//! ```rust
//! // m.uspec and t.test have no fault, and c.txt has no line
//! let inputs = Inputs { model: "m.uspec", test: "t.test" };
//! let checked = verify::<TestFile, MemFiles>(alloc, inputs, "c.txt", &mut files)?;
//! assert!(rt; checked == Checked::Refused(1));
//! ```
//!
//! Where the two files have no fault `verify` reads the third, to its end or to one byte past 67,108,864, by pieces. It
//! returns what the text is, `Checked`, whose text is one line and whose status is the verdict's or `CertRefused`; or
//! the `Ending` of the two files, or a failed call or want of memory at the third. The search has no part in it.
//!
//! The first bytes of the third file tell what is built: where its first line is `unobservable`, the axioms are
//! grounded, and a `Checker` takes the text. Else a `GraphChecker` takes it, which reads no ground tree.
//!
//! ```rust
//! let lifted = verify_lifted::<TestFile, MemFiles>(alloc, inputs, "c.txt", &mut files)?;
//! assert!(rt; lifted == Lifted::Refused(1));
//! assert!(rt; lifted_status(lifted) == Status::CertRefused);
//! ```
//!
//! `verify_lifted` reads the three files alike, and a `LiftedChecker` takes the pieces. It returns what the text is,
//! `Lifted`, whose text is one line and whose status is `Unobservable` or `CertRefused`. It reads the closed axioms:
//! neither the ground tree nor the search has a part in it.
#![tactic(auto)]

mod checking;
mod command;
mod lifted;
mod reading;
mod report;

pub use command::verify;
pub use lifted::verify_lifted;
pub use report::{lifted_status, write_lifted};
