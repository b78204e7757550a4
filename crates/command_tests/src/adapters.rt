//! The adapters: files of the system, and a writer that has little room or cannot flush.
mod files;
mod sink;
