//! The calls of a fill.

ghost use Rattle.std.specs.Prelude.{◌≡◌, ℕ, ◌-◌, ◌^◌, ◌%◌, ◌<◌, IfOk, IfSome, None, Some, false, length, min, true};
ghost use Rattle.plan_spec.specs.Grid.{grid_points};
ghost use Rattle.sight_spec.specs.Visibility.{visibility_graph};
ghost use Rattle.vga_grid.specs.Rows.{graph_of};
ghost use Rattle.vga_fill.specs.DoneRows.{IsDone, WroteBoth};
ghost use Rattle.vga_fill.specs.Graphs.{was_joined, is_to_join};
ghost use Rattle.vga_fill.specs.Places.{word_of};
ghost use Rattle.vga_fill.specs.Seats.{IfDone, IfRow, IsLast, IsSeatOf, count_of, held_by, task_of, view_of};
ghost use Rattle.vga_fill.specs.Views.{GoesOn, both_of, claimed_by, first_view, left_of, right_of, times};
ghost use Rattle.vga_fill.specs.Views.{with_ones, with_zeros};

use crate::claim::Claim;
use crate::closing::graph_of_closed;
use crate::events::{Claims, Clears, Halves, Sets, Task};
use crate::fill::Fill;
use crate::opening::words_of;
use crate::places::{mask_of, word_at};
use crate::seat::FillSeat;
use atomic_table::Table;
use plan_check::Plan;
use std::alloc::Global;
use std::snapshot::Snapshot;
use text_spec::NoMemory;
use vga_grid::BitGraph;

impl Fill {
    /// A fill that turns `old` into the visibility graph of `after`, and its first seat. `old` has as many nodes as the
    /// grid of `after` has points.
    pub fn new(alloc: Global, old: &BitGraph, after: &Plan) -> Result<(Fill, FillSeat), NoMemory>
        requires { old.now.count ≡ length (grid_points after.now.grid) }
        ensures old_graph { IfOk result (λ r. (task_of r.0).old.value ≡ old.now) }
        ensures after_plan { IfOk result (λ r. (task_of r.0).after.value ≡ after.now) }
        ensures of { IfOk result (λ r. IsSeatOf r.0 r.1) }
        ensures row { IfOk result (λ r. held_by r.1 ≡ None) }
        ensures view { IfOk result (λ r. view_of r.1 ≡ first_view (task_of r.0)) }
    {
        let words = words_of(alloc, old)?;
        let task = Task {
            count: old.len(),
            old: Snapshot::of(old),
            after: Snapshot::of(after),
        };
        let (table, seat) = Table::of_words(alloc, &words, &task)?;
        let fill = Fill {
            table,
            count: old.len(),
        };
        Ok((fill, FillSeat { seat, row: None }))
    }

    /// Claims the next row, by one step on the count of claims: a row that nobody had claimed, which the seat then
    /// holds, or `Done` exactly where the step found as many claims as rows or more.
    pub fn claim(&self, seat: &mut FillSeat) -> Claim
        requires of { IsSeatOf self.now seat.old }
        requires free { held_by seat.old ≡ None }
        requires not_told { (view_of seat.old).told ≡ false }
        requires pass { 0 < (view_of seat.old).passes }
        ensures of { IsSeatOf self.now seat.new }
        ensures row { IfRow result (λ r. (r < count_of self.now) × (held_by seat.new ≡ Some r)
            × (view_of seat.new ≡ claimed_by true (view_of seat.old) r)) }
        ensures above { IfRow result (λ r. (row : ℕ) → 0 < times row (view_of seat.old).rows → row < r) }
        ensures done { IfDone result ((held_by seat.new ≡ None)
            × (view_of seat.new ≡ claimed_by false (view_of seat.old) 0)) }
    {
        let found = self.table.shared.fetch_add::<Claims>(&mut seat.seat, 0, 1);
        if found >= u64::from(self.count) {
            return Claim::Done;
        }
        let row = found as u32;
        seat.row = Some(row);
        Claim::Row(row)
    }

    /// Sets the place (i, j), by one step on its word. An edge takes two calls, for (i, j) and (j, i).
    pub fn set(&self, seat: &mut FillSeat, i: u32, j: u32)
        requires of { IsSeatOf self.now seat.old }
        requires i_in { i < count_of self.now }
        requires j_in { j < count_of self.now }
        requires held { held_by seat.old ≡ Some (min i j) }
        requires new { is_to_join (task_of self.now) i j ≡ true }
        ensures of { IsSeatOf self.now seat.new }
        ensures row { held_by seat.new ≡ held_by seat.old }
        ensures view { view_of seat.new
            ≡ with_ones (view_of seat.old) (word_of (count_of self.now) i j) (2 ^ (j % 64)) }
    {
        let word = word_at(self.count, i, j);
        self.table
            .shared
            .fetch_or::<Sets>(&mut seat.seat, word, mask_of(j % 64));
    }

    /// Clears the place (i, j), by one step on its word. A pair takes two calls, for (i, j) and (j, i).
    pub fn clear(&self, seat: &mut FillSeat, i: u32, j: u32)
        requires of { IsSeatOf self.now seat.old }
        requires i_in { i < count_of self.now }
        requires j_in { j < count_of self.now }
        requires held { held_by seat.old ≡ Some (min i j) }
        requires new { is_to_join (task_of self.now) i j ≡ false }
        ensures of { IsSeatOf self.now seat.new }
        ensures row { held_by seat.new ≡ held_by seat.old }
        ensures view { view_of seat.new
            ≡ with_zeros (view_of seat.old) (word_of (count_of self.now) i j) (2 ^ 64 - 1 - 2 ^ (j % 64)) }
    {
        let word = word_at(self.count, i, j);
        self.table
            .shared
            .fetch_and::<Clears>(&mut seat.seat, word, !mask_of(j % 64));
    }

    /// Writes the pair of `i` and `j`, which is an edge of the new graph or isn't, at both of its places.
    pub(crate) fn write_pair(&self, seat: &mut FillSeat, i: u32, j: u32, joined: bool)
        requires of { IsSeatOf self.now seat.old }
        requires order { i < j }
        requires j_in { j < count_of self.now }
        requires held { held_by seat.old ≡ Some i }
        requires new { is_to_join (task_of self.now) i j ≡ joined }
        ensures of { IsSeatOf self.now seat.new }
        ensures row { held_by seat.new ≡ Some i }
        ensures more { GoesOn (view_of seat.old) (view_of seat.new) }
        ensures wrote { WroteBoth (count_of self.now) (view_of seat.new) i j }
    {
        if joined {
            self.set(seat, i, j);
            self.set(seat, j, i);
        } else {
            self.clear(seat, i, j);
            self.clear(seat, j, i);
        }
    }

    /// Ends the holding of a row that is done. It makes no step.
    pub fn finish(&self, seat: &mut FillSeat)
        requires of { IsSeatOf self.now seat.old }
        requires done { IfSome (held_by seat.old) (λ r. IsDone (was_joined (task_of self.now))
            (is_to_join (task_of self.now)) (count_of self.now) (view_of seat.old) r) }
        ensures of { IsSeatOf self.now seat.new }
        ensures row { held_by seat.new ≡ None }
        ensures view { view_of seat.new ≡ view_of seat.old }
    {
        seat.row = None;
    }

    /// Splits a seat in two, for two workers: the first keeps what the seat knows, and each has half of its passes.
    pub fn split(&self, seat: FillSeat) -> (FillSeat, FillSeat)
        requires of { IsSeatOf self.now seat }
        requires free { held_by seat ≡ None }
        ensures first { IsSeatOf self.now result.0 × (held_by result.0 ≡ None)
            × (view_of result.0 ≡ left_of (view_of seat)) }
        ensures second { IsSeatOf self.now result.1 × (held_by result.1 ≡ None)
            × (view_of result.1 ≡ right_of (view_of seat)) }
    {
        let FillSeat { mut seat, row: _ } = seat;
        let other = self.table.shared.split_seat::<Halves>(&mut seat);
        (
            FillSeat { seat, row: None },
            FillSeat {
                seat: other,
                row: None,
            },
        )
    }

    /// Joins two seats: the one that is left knows what both knew.
    pub fn join_seats(&self, a: FillSeat, b: FillSeat) -> FillSeat
        requires first { IsSeatOf self.now a × (held_by a ≡ None) }
        requires second { IsSeatOf self.now b × (held_by b ≡ None) }
        ensures of { IsSeatOf self.now result }
        ensures row { held_by result ≡ None }
        ensures view { view_of result ≡ both_of (view_of a) (view_of b) }
    {
        let FillSeat { mut seat, row: _ } = a;
        let FillSeat {
            seat: other,
            row: _,
        } = b;
        self.table.shared.join_seat::<Halves>(&mut seat, other);
        FillSeat { seat, row: None }
    }

    /// The new graph. The seat is the last one: it was told that no row is left, and no other seat has one. Without
    /// memory nothing is handed back.
    pub fn close(self, alloc: Global, seat: FillSeat) -> Result<BitGraph, NoMemory>
        requires of { IsSeatOf self seat }
        requires free { held_by seat ≡ None }
        requires last { IsLast (view_of seat) }
        ensures { IfOk result (λ graph. graph_of graph ≡ visibility_graph (task_of self).after.value) }
    {
        let Fill { table, count } = self;
        let FillSeat { seat, row: _ } = seat;
        let closed = table.close_with(seat);
        let graph = graph_of_closed(alloc, &closed, count);
        closed.free();
        graph
    }
}
