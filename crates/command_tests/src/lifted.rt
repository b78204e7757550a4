//! Lifted refutations: texts judged by the checker and by the top call, and texts that it makes.
mod forms;
mod judging;
pub(crate) mod lifting;
mod texts;
pub(crate) mod verifying;
