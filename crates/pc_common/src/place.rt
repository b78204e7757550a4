/// A place in a file: how many bytes stand before it. Files have fewer than 2^32 bytes.
#[derive(Clone, Copy, Debug, PartialEq, Eq)]
pub struct Place {
    /// In bytes from the file's start, from 0.
    pub offset: u32,
}
