//! The reader of listings: their cases, and their first faults.
mod cases;
mod faults;
