//! Certificates: texts judged by the checker and by the command verify.
mod judging;
pub(crate) mod signs;
pub(crate) mod verifying;
