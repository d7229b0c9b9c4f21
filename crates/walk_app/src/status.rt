//! How a run ended.

ghost use Rattle.std.specs.Prelude.{◌≡◌};
ghost use Rattle.walk_app.specs.Statuses.{code_of};

/// How a run ended.
#[derive(Clone, Copy, Debug, PartialEq, Eq)]
pub enum WalkStatus {
    /// The table was written.
    Done,
    /// The words ask for nothing that the program does.
    BadWords,
    /// The file holds no accepted plan.
    BadPlan,
    /// The plan's file couldn't be read.
    ReadFault,
    /// The output couldn't be written.
    WriteFault,
    /// Out of memory.
    NoMemory,
    /// The plan's file is longer than its limit.
    TooLong,
    /// The plan has no open grid point, so no walker can begin.
    NoOpen,
}

impl WalkStatus {
    /// The number that the program ends with. 1 is none.
    pub fn code(self) -> u8
        ensures { result ≡ code_of self }
    {
        match self {
            WalkStatus::Done => 0,
            WalkStatus::BadWords => 2,
            WalkStatus::BadPlan => 3,
            WalkStatus::ReadFault => 4,
            WalkStatus::WriteFault => 5,
            WalkStatus::NoMemory => 6,
            WalkStatus::TooLong => 7,
            WalkStatus::NoOpen => 8,
        }
    }
}
