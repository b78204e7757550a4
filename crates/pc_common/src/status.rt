ghost use Rattle.std.specs.Prelude.{◌≡◌};
ghost use Rattle.pc_common.specs.Status.{status_number};

/// How a run of the program ended.
#[derive(Clone, Copy, PartialEq, Eq)]
pub enum Status {
    /// The verdict: some world makes every axiom true.
    Observable,
    /// The verdict: no world makes every axiom true.
    Unobservable,
    /// What was asked for was written.
    Done,
    /// The words are no command.
    Usage,
    /// An input file has a fault.
    Refused,
    /// A call of the files failed.
    ReadFault,
    /// A call of the sink failed.
    WriteFault,
    /// The certificate is refused.
    CertRefused,
    /// Memory was refused.
    Memory,
}

impl Status {
    /// The exit number of the program, 0 to 7. Two statuses have 0.
    pub fn number(self) -> u8
        ensures { result ≡ status_number self }
    {
        match self {
            Status::Observable => 0,
            Status::Unobservable => 1,
            Status::Done => 0,
            Status::Usage => 2,
            Status::Refused => 3,
            Status::ReadFault => 4,
            Status::WriteFault => 5,
            Status::CertRefused => 6,
            Status::Memory => 7,
        }
    }
}
