//! How a run ended.

ghost use Rattle.std.specs.Prelude.{◌≡◌};
ghost use Rattle.depthmap_app.specs.Statuses.{code_of};

/// How a run ended.
#[derive(Clone, Copy, Debug, PartialEq, Eq)]
pub enum Status {
    /// The script was read to its end, no reply is `refused`, and all was written.
    Done,
    /// The same, and a reply is `refused`.
    DoneWithRefusals,
    /// The words ask for nothing that the program does.
    BadWords,
    /// The file holds no accepted plan.
    BadPlan,
    /// The plan's file or the script couldn't be read.
    ReadFault,
    /// The output couldn't be written.
    WriteFault,
    /// Out of memory.
    NoMemory,
    /// The plan's file or the script is longer than its limit.
    TooLong,
}

impl Status {
    /// The number that the program ends with.
    pub fn code(self) -> u8
        ensures { result ≡ code_of self }
    {
        match self {
            Status::Done => 0,
            Status::DoneWithRefusals => 1,
            Status::BadWords => 2,
            Status::BadPlan => 3,
            Status::ReadFault => 4,
            Status::WriteFault => 5,
            Status::NoMemory => 6,
            Status::TooLong => 7,
        }
    }
}
