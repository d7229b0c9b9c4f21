//! The options of the command: the texts that are given for them, and what these stand for.

ghost use Rattle.std.specs.Prelude.{◌≡◌};

use std::marker::Model;

/// How many workers may be asked for.
pub const MAX_WORKERS: usize = 64;

/// How many boxes the trial plan may have.
pub const MAX_TRIAL_BOXES: u32 = 250;

/// Which tables of a plan stand after the replies.
#[derive(Clone, Copy, Debug, PartialEq, Eq)]
pub enum Mode {
    /// What the grid points see of one another, and what follows for each.
    Vga,
    /// What is seen from each open grid point.
    Isovists,
    /// The axial lines, and how they cross.
    AxialMap,
    /// The pieces of the routes.
    Segments,
    /// The plan alone.
    Check,
}

/// How the fields of a record are joined: by a space, or by a comma.
#[derive(Clone, Copy, Debug, PartialEq, Eq)]
pub enum Form {
    /// By a space.
    Text,
    /// By a comma.
    Csv,
}

/// A text that is given for an option. Contracts see its bytes.
#[derive(Drop)]
pub struct GivenText<'a> {
    text: &'a str,
}

impl<'a> Model for GivenText<'a> {
    ghost use Rattle.std.specs.Prelude.{List, ℕ};

    ghost Value = { List ℕ };

    ghost view = { λ a. a.text.now };
}

impl<'a> GivenText<'a> {
    /// The text as one that is given.
    pub fn of(text: &'a str) -> GivenText<'a>
        ensures { result ≡ text.now }
    {
        GivenText { text }
    }

    /// The text itself.
    pub fn as_str(&self) -> &'a str
        ensures { result.now ≡ self.now }
    {
        self.text
    }
}

/// The texts that are given for the options, each at most once.
#[derive(Drop)]
pub struct Given<'a> {
    /// Which tables are asked for, or the trial.
    pub mode: Option<GivenText<'a>>,
    /// The name of the plan's file.
    pub file: Option<GivenText<'a>>,
    /// How many workers share the work.
    pub workers: Option<GivenText<'a>>,
    /// How records are printed.
    pub format: Option<GivenText<'a>>,
    /// How many boxes the trial plan has.
    pub number: Option<GivenText<'a>>,
}

/// What the command is to do.
#[derive(Drop)]
pub enum Job<'a> {
    /// Analyse the plan of the file of this name.
    Analyse(Mode, GivenText<'a>),
    /// Make the trial plan of so many boxes, from 1 to [`MAX_TRIAL_BOXES`], and count in it.
    Trial(u32),
}

/// What the command was asked for.
#[derive(Drop)]
pub struct Options<'a> {
    /// What is to be done.
    pub job: Job<'a>,
    /// How many workers share the work, from 1 to [`MAX_WORKERS`].
    pub workers: usize,
    /// How records are printed.
    pub form: Form,
}
