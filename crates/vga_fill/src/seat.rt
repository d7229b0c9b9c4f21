//! A worker's token.

ghost use Rattle.std.specs.Prelude.{◌≡◌, []};
ghost use Rattle.vga_fill.specs.DoneRows.{KeepsRows};

use crate::events::View;
use atomic_table::Seat;

/// One worker's token, with the row that it holds. Its type keeps that each other row that it claimed is done: both
/// places of each pair at which the old and the new graph differ are written.
#[derive(Drop)]
pub struct FillSeat {
    pub(crate) seat: Seat<(), View>,
    pub(crate) row: Option<u32>,
    ghost slots: { seat.me.1 ≡ [] },
    ghost rows: { KeepsRows seat.me.0 row },
}
