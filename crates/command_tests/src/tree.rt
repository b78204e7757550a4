//! Ground trees and the search through public calls: the tree of a model and a test, the numbers and texts of its nodes,
//! graphs over them, and the steps of refutations; and the laws that no other tests call.
mod fronts;
mod graphs;
mod laws;
mod nodes;
mod solving;
mod tables;
mod texts;
mod trees;
