/// How refutations are read. In version 1 the right branch of a split forgets that the left side failed; in
/// version 2 it asserts, under the sign `~`, that the left side is false.
#[derive(Clone, Copy)]
pub enum Version {
    One,
    Two,
}
