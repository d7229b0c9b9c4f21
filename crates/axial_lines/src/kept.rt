//! The lines that a removal keeps, and two lists of lines in order as one.

ghost use Rattle.std.specs.Prelude.{All, IfOk, OnOk, ◌++◌, ◌≡◌, ◌≤◌, drop, length};
ghost use Rattle.plan_spec.specs.Ranges.{IsBoxInRange};
ghost use Rattle.list_laws.specs.Gaps as gaps;
ghost use Rattle.list_laws.specs.Merged.{merged};
ghost use Rattle.dirty_laws.specs.Scenes.{removal_of};
ghost use Rattle.line_laws.specs.Lines as lists;
ghost use Rattle.axial_lines.specs.Removal.{IsKnownLine};

use crate::corners::append;
use crate::dirty::is_dirty_line;
use crate::line::AxialLine;
use plane_spec::PlanBox;
use sight_core::Scene;
use std::alloc::Global;
use text_spec::NoMemory;

/// The number of a corner when `count` corners from `start` on are gone.
fn closed_up(start: u32, count: u32, number: u32) -> u32
    ensures { result ≡ gaps.closed_up start count number }
{
    if number < start {
        number
    } else {
        number.saturating_sub(count)
    }
}

/// The line with its numbers closed up.
fn renumbered(start: u32, count: u32, line: &AxialLine) -> AxialLine
    ensures { result ≡ lists.renumbered start count line.now }
{
    AxialLine {
        first: closed_up(start, count, line.first),
        second: closed_up(start, count, line.second),
        from: line.from,
        to: line.to,
    }
}

/// The lines whose extent misses the box, with their numbers closed up.
///
/// Cost: eight to sixteen products a line.
pub(crate) fn kept_lines(
    alloc: Global,
    area: PlanBox,
    scene: &Scene,
    lines: &[AxialLine],
    start: u32,
    count: u32,
) -> Result<Vec<AxialLine>, NoMemory>
    requires area_in { IsBoxInRange area }
    requires lines_of { All (IsKnownLine scene.now) lines.now }
    ensures kept { IfOk result (λ kept. kept.items
        ≡ lists.kept_lines (removal_of area) scene.now lines.now start count) }
{
    let mut kept = Vec::new(alloc);
    for k in 0..lines.len() {
        if !is_dirty_line(area, scene, &lines[k]) {
            append(&mut kept, renumbered(start, count, &lines[k]))?;
        }
    }
    Ok(kept)
}

/// Whether a line comes before another: by its first number, and then by its second.
fn comes_before(l: &AxialLine, m: &AxialLine) -> bool
    ensures { result ≡ lists.comes_before l.now m.now }
{
    l.first < m.first || (l.first == m.first && l.second < m.second)
}

/// Appends the lines from a place on.
pub(crate) fn append_from(
    list: &mut Vec<AxialLine>,
    lines: &[AxialLine],
    start: usize,
) -> Result<(), NoMemory>
    requires inside { start ≤ length lines.now }
    ensures added { OnOk result (list.new.items ≡ list.old.items ++ drop start lines.now) }
{
    for k in start..lines.len() {
        append(list, lines[k])?;
    }
    Ok(())
}

/// Two lists of lines in order, as one.
///
/// Cost: one pass over both.
pub(crate) fn merge(
    alloc: Global,
    kept: &[AxialLine],
    fresh: &[AxialLine],
) -> Result<Vec<AxialLine>, NoMemory>
    ensures merged { IfOk result (λ all. all.items ≡ merged lists.comes_before kept.now fresh.now) }
{
    let mut all = Vec::new(alloc);
    let mut i = 0;
    let mut j = 0;
    while i < kept.len() && j < fresh.len() {
        if comes_before(&kept[i], &fresh[j]) {
            append(&mut all, kept[i])?;
            i += 1;
        } else {
            append(&mut all, fresh[j])?;
            j += 1;
        }
    }
    append_from(&mut all, kept, i)?;
    append_from(&mut all, fresh, j)?;
    Ok(all)
}
