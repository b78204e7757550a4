//! Laws: each is called once.
mod certificates;
mod lifted;
mod models;
mod readers;
mod search;
mod tree;
