use pc_common::{FaultKind, Place};

/// A fault of content and where it stands.
#[derive(Clone, Copy)]
pub(crate) struct ContentFault {
    pub(crate) kind: FaultKind,
    pub(crate) place: Place,
}
