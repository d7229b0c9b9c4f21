//! Lines in the order in which they are found, none with the ends of another.

ghost use Rattle.std.specs.Prelude.{Err, IfOk, OnOk, ◌≡◌, ◌≤◌, ◌<◌, ◌∷◌, [], length};
ghost use Rattle.plan_spec.specs.declared.limits.TheConstants.{MAX_AXIAL_LINES};
ghost use Rattle.axial_lines.specs.Found.{added, has_ends_of};
ghost use Rattle.axial_lines.specs.declared.fault.LinesFault.TheVariants.{TooManyLines};

use crate::by_ends::ByEnds;
use crate::corners::append;
use crate::fault::LinesFault;
use crate::line::AxialLine;
use indexmap::IndexSet;
use plan_spec::MAX_AXIAL_LINES;
use std::alloc::Global;
use std::marker::Model;
use text_spec::NoMemory;

/// At most [`MAX_AXIAL_LINES`] lines, in the order in which they were added. Contracts see them as a list.
#[derive(Drop)]
pub(crate) struct LineSet {
    lines: IndexSet<ByEnds>,
}

impl Model for LineSet {
    ghost use Rattle.std.specs.Prelude.{List, ◌≤◌, length};
    ghost use Rattle.plan_spec.specs.declared.limits.TheConstants.{MAX_AXIAL_LINES};
    ghost use Rattle.sight_spec.specs.Axial.{AxialLine as LineParts};

    ghost Value = { List LineParts };

    ghost view = { λ a. a.lines.keys };

    ghost invariant = { λ a. length a.lines.keys ≤ MAX_AXIAL_LINES };
}

impl LineSet {
    /// No lines.
    pub(crate) fn empty(alloc: Global) -> LineSet
        ensures { result ≡ [] }
    {
        LineSet {
            lines: IndexSet::new(alloc),
        }
    }

    /// Adds the line where none of the others has its ends.
    ///
    /// Cost: one look-up by a hash of the ends.
    pub(crate) fn add(&mut self, line: AxialLine) -> Result<(), LinesFault>
        ensures added { OnOk result (self.new ≡ added has_ends_of self.old (line ∷ [])) }
        ensures too_many { result ≡ Err TooManyLines
            → MAX_AXIAL_LINES < length (added has_ends_of self.old (line ∷ [])) }
    {
        let line = ByEnds { line };
        if self.lines.len() < MAX_AXIAL_LINES {
            return match self.lines.insert(line) {
                Ok(_new) => Ok(()),
                Err(_refused) => Err(LinesFault::NoMemory),
            };
        }
        if self.lines.contains(&line) {
            Ok(())
        } else {
            Err(LinesFault::TooManyLines)
        }
    }

    /// The lines as a list.
    pub(crate) fn to_list(&self, alloc: Global) -> Result<Vec<AxialLine>, NoMemory>
        ensures lines { IfOk result (λ lines. lines.items ≡ self.now) }
        ensures at_most { IfOk result (λ lines. length lines.items ≤ MAX_AXIAL_LINES) }
    {
        let mut lines = Vec::new(alloc);
        for line in self.lines.as_slice() {
            append(&mut lines, line.line())?;
        }
        Ok(lines)
    }
}
