//! Small models, litmus tests and certificates that the tables of the crates of tests judge.
//!
//! They are constants alone, in a crate of their own, so that each text stands once.
#![tactic(auto)]

mod certificates;
mod listings;
mod litmus;
mod models;

pub use certificates::TWO_IN_ORDER;
pub use listings::{LISTED_AS_FORBIDDEN, LISTED_STORE_BUFFERING, LISTED_WITH_AN_OPEN_LOAD};
pub use litmus::{
    EMPTY, FIRST_IS_LAST, LOCK_OF_FOUR, MESSAGE_PASSING, ONE, RUN_OF_TWENTY_FOUR,
    SEVEN_AND_A_FENCE, STORE_BUFFERING, TWO, TWO_CORES, TWO_FORBIDDEN,
};
pub use models::{
    BOTH_OR_ONE, BOTH_ORDERS, CAPTURED, CHOICES_AND_CORE, EITHER_AND, EITHER_OF_THREE,
    EITHER_ORDER, FAR_CORE, IN_ORDER, ITSELF, JOINED, LAST_WRITE, NO_EDGES, ONE_MEMORY, ORDERED,
    SOME_OP, STORE_BUFFER, TURNED_BACK, UNORDERED,
};
