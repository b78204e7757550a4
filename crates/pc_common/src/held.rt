use super::Bytes;
use super::listed::Listed;

/// A file kept in memory. It is found by a name of these very bytes.
pub struct HeldFile {
    pub name: Bytes,
    pub bytes: Bytes,
}

// By hand: docs/DECISIONS.md, "Drops are written by hand".
impl Drop for HeldFile {
    fn drop(self) {
        let HeldFile { name: _, bytes: _ } = self;
    }
}

/// Files kept in memory. Of several files of one name the first counts.
pub type Held = Listed<HeldFile>;
