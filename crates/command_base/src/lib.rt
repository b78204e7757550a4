//! What the commands of `pipecheck` share: the words of a command line, a model's file and a second one that are read
//! and judged, and a refusal, which is one line.
//!
//! Clause: `read_inputs` returns the front of two files, or how the command ends before one (its clause).
//!
//! ```rust
//! // a name that is not held has no bytes: a model without a line, and no test
//! let mut files = SureFiles::new(Held::new(alloc));
//! let inputs = Inputs { model: "m.uspec", test: "t.test" };
//! if let Err(ending) = read_inputs::<TestFile, SureFiles>(alloc, inputs, &mut files) {
//!     assert!(rt; write_ending(&mut sink, &ending).is_ok());
//!     assert!(rt; sink.taken() == b"refused test syntax at 1:1\n".as_slice());
//! }
//! ```
//!
//! `parse` takes the words after the program's name. It returns the command that they are, or `None` where they are
//! none, and touches no file. The first word tells which command it is, so words are one command at most; the law
//! `one_command` says so.
//!
//! A command reads the model, then its second file, at most 1,048,576 bytes each: `read_inputs` returns what both
//! say together as a `Front`, or the `Ending` of the command, which is a failed call, refused memory, or the first
//! fault; `read_parts` does so without a ground tree. The form of the second file is a `SecondFile`: a test is a
//! `TestFile`, and a listing of herd's for X86 a `ListingFile`. A command that is written for any form, as `check` and
//! `verify` are, takes a listing in place of a test. The order of faults is the same: the model's, and where it has
//! none, the second file's. `two_files` reads the two and judges their sizes alone; `unread_ending`, `place_fault` and
//! `bytes_of` make the ending of a command that judges files in its own way.
//!
//! A third file is started by the command itself, after these two are judged or before. `feed_rest` feeds a checker, a
//! `TextCheck`, what is left of a file that was started, by pieces; a `FeedEnd` says why a file could not be checked.
//! `write_checked` writes the line of a third file that was judged.
//!
//! `specs/Outcomes.antt` states what each command keeps of the files and when it returns which status. A command's
//! crate stands on this one and on no other command's.
#![tactic(auto)]

mod checked;
mod command;
mod cores;
mod ending;
mod feed_end;
mod feeding;
mod inputs;
mod laws;
mod listing_file;
mod listing_parts;
mod pieces;
mod refusal;
mod second_file;
mod text_check;
mod words;

pub use checked::{checked_status, write_checked};
pub use command::{Command, parse};
pub use ending::{Ending, ending_status, write_ending};
pub use feed_end::FeedEnd;
pub use feeding::{MOST, PIECE, feed_rest};
pub use inputs::{Inputs, bytes_of, front_of, read_inputs, read_parts, two_files, unread_ending};
pub use laws::{
    case_or_first_fault, listing_case_or_fault, no_first_fault, no_listing_fault, one_command,
    one_first_fault, one_listing_fault, one_model_and_case, one_model_and_listing,
};
pub use listing_file::ListingFile;
pub use pieces::write_pieces;
pub use refusal::{Refusal, place_fault};
pub use second_file::{SecondFile, TestFile};
pub use text_check::TextCheck;
