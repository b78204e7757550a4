use thiserror::Error;

/// Why a text is no line of a certificate, or no node of one.
#[derive(Clone, Copy, Debug, PartialEq, Eq, Error)]
pub enum LineFault {
    /// It has no form of such a text, whatever its nodes name.
    #[error("no line of a certificate")]
    Malformed,
    /// It has the form, and a node names no micro-op of the test, no core 0 to 63 or no stage of the model.
    #[error("a node that names no micro-op, core or stage of the files")]
    Foreign,
}
