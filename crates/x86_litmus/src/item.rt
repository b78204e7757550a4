use pc_common::Place;

/// A name of the text, and where it stands.
#[derive(Clone, Copy)]
pub(crate) struct Named<'a> {
    pub(crate) word: &'a [u8],
    pub(crate) at: Place,
}

/// What an instruction does.
#[derive(Clone, Copy)]
pub(crate) enum Action<'a> {
    Fence,
    Store {
        location: Named<'a>,
        value: u64,
    },
    Load {
        register: Named<'a>,
        location: Named<'a>,
    },
}

/// An instruction of a thread, which is the number of its column.
#[derive(Clone, Copy)]
pub(crate) struct Instruction<'a> {
    pub(crate) thread: u64,
    /// Where its word stands.
    pub(crate) at: Place,
    pub(crate) action: Action<'a>,
}

/// The thread that an equation of a register names.
#[derive(Clone, Copy)]
pub(crate) struct ThreadNumber {
    pub(crate) number: u64,
    pub(crate) at: Place,
}

/// One thing that a listing says, with the places that its faults may name.
#[derive(Clone, Copy)]
pub(crate) enum Item<'a> {
    /// A location and its value before the test.
    Initial(Named<'a>, u64),
    /// The name of the next column.
    Column(Named<'a>),
    Instructed(Instruction<'a>),
    /// A line of this many cells, and where its `;` stands.
    RowEnded(u64, Place),
    /// The condition begins with `~`.
    Denied,
    /// The value that the condition gives a thread's register.
    RegisterIs(ThreadNumber, Named<'a>, u64),
    /// A location and its value after the test.
    Final(Named<'a>, u64),
}
