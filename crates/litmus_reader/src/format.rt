/// The format of a test, which its first word says.
#[derive(Clone, Copy)]
pub(crate) enum Format {
    /// `Litmus`: addresses are pages, and values are numbers.
    One,
    /// `Litmus2`: page-table entries too, as addresses and as values.
    Two,
}
