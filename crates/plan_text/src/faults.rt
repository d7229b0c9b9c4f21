//! Why bytes aren't read.

use grammar_spec::TextWhy;
use text_spec::NoMemory;

/// Why a line of a script isn't read.
#[derive(Clone, Copy, Debug, PartialEq, Eq)]
pub enum ReadLineFault {
    /// It is outside the grammar.
    Bad(TextWhy),
    /// There is no memory for what is read.
    NoMemory,
}

/// Why a plan isn't read.
#[derive(Clone, Copy, Debug, PartialEq, Eq)]
pub enum ReadPlanFault {
    /// This line, counted from 1, is the first outside the grammar.
    Bad { line: u32, why: TextWhy },
    /// There is no memory for what is read.
    NoMemory,
}

impl From<NoMemory> for ReadPlanFault {
    ghost use Rattle.std.specs.Prelude.{◌≡◌};
    ghost use Rattle.plan_text.specs.declared.faults.ReadPlanFault.TheVariants.{NoMemory};

    ghost from_gives = { λ none fault. fault ≡ NoMemory };

    fn from(_: NoMemory) -> ReadPlanFault {
        ReadPlanFault::NoMemory
    }
}

impl From<TextWhy> for ReadLineFault {
    ghost use Rattle.std.specs.Prelude.{◌≡◌};
    ghost use Rattle.plan_text.specs.declared.faults.ReadLineFault.TheVariants.{Bad};

    ghost from_gives = { λ why fault. fault ≡ Bad why };

    fn from(why: TextWhy) -> ReadLineFault {
        ReadLineFault::Bad(why)
    }
}

impl From<NoMemory> for ReadLineFault {
    ghost use Rattle.std.specs.Prelude.{◌≡◌};
    ghost use Rattle.plan_text.specs.declared.faults.ReadLineFault.TheVariants.{NoMemory};

    ghost from_gives = { λ none fault. fault ≡ NoMemory };

    fn from(_: NoMemory) -> ReadLineFault {
        ReadLineFault::NoMemory
    }
}
