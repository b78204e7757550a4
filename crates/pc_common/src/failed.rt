/// A call of the outside failed. The object that was called counted it.
#[derive(Clone, Copy)]
pub struct Failed;
