/// What is written or read: a number, or a page-table entry.
#[derive(Clone, Copy, PartialEq, Eq)]
pub enum Value {
    Number(u64),
    /// The physical tag that the entry maps to, its accessed mark and its dirty mark. In a test without a
    /// fault both are 0 or 1.
    Entry { tag: u64, accessed: u64, dirty: u64 },
}
