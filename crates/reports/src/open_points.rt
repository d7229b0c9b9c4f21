//! The table of the isovists of a plan's open points.

ghost use Rattle.std.specs.Prelude.{◌≡◌, ◌<◌, ◌+◌, ◌∷◌, [], true, IfNone, IfSome, OnErr, OnOk};
ghost use Rattle.std.specs.Fmt.{decimal, signed_decimal};
ghost use Rattle.dm_io.specs.Streams.{WritesPrefix, appended_to};
ghost use Rattle.plane_spec.specs.Vectors.{InRange};
ghost use Rattle.plan_spec.specs.declared.limits.TheConstants.{MAX_GRID_POINTS};
ghost use Rattle.sight_spec.specs.Scene.{scene_of};
ghost use Rattle.sight_spec.specs.Sight as sight;
ghost use Rattle.report_spec.specs.Records.{records_bytes};
ghost use Rattle.report_spec.specs.Tables.{isovists_table_of};
ghost use Rattle.reports.specs.Faults.{Counts};
ghost use Rattle.reports.specs.Rows.{open_points_from};

use crate::fault::ReportFault;
use crate::open_isovists::OpenIsovists;
use crate::record::Record;
use crate::table::{Rows, put_table};
use dm_io::Sink;
use isovist_core::{IsovistTotals, isovist_totals_by};
use options_spec::Form;
use plan_check::Plan;
use plane_spec::Point;
use sight_core::{Scene, is_open};
use sight_sweep::table_of;
use std::alloc::Global;
use text_spec::NoMemory;
use vga_grid::Grid;

/// The first open point from a number on, beside its number.
fn next_open(plan: &Plan, from: u32) -> Option<(u32, Point)>
    ensures first { IfSome result (λ e. open_points_from plan.now from ≡ e ∷ open_points_from plan.now (e.0 + 1)) }
    ensures open { IfSome result (λ e. sight.is_open plan.now e.1 ≡ true) }
    ensures in_range { IfSome result (λ e. InRange e.1) }
    ensures small { IfSome result (λ e. e.0 < MAX_GRID_POINTS) }
    ensures none { IfNone result (open_points_from plan.now from ≡ []) }
{
    let grid = Grid::of(plan);
    'numbers: for number in from..grid.count() {
        let point = grid.place(number);
        if is_open(plan, point) {
            return Some((number, point));
        }
    }
    None
}

/// The row of a point with the totals of its isovist.
fn make_totals(row: &mut Record, number: u32, totals: IsovistTotals) -> Result<(), NoMemory>
    ensures { OnOk result (row.new ≡ decimal number ∷ decimal totals.triangles ∷ signed_decimal totals.floor ∷ signed_decimal totals.ceil ∷ []) }
{
    row.clear();
    row.number(u64::from(number))?;
    row.number(totals.triangles as u64)?;
    row.wide(totals.floor)?;
    row.wide(totals.ceil)
}

impl<'a> Rows for OpenIsovists<'a> {
    ghost use Rattle.std.specs.Prelude.{map};
    ghost use Rattle.sight_spec.specs.Isovist.{isovist_in};
    ghost use Rattle.sight_spec.specs.Scene.{scene_of};
    ghost use Rattle.report_spec.specs.Tables.{isovist_row};
    ghost use Rattle.reports.specs.Rows.{open_points_from};

    ghost left = { λ s. map isovist_row
        (map (λ e. (e.0, isovist_in (scene_of s.plan.now) e.1)) (open_points_from s.plan.now s.number)) };

    fn next_row(&mut self, row: &mut Record) -> Result<bool, NoMemory> {
        let Some((number, point)) = next_open(self.plan, self.number) else {
            return Ok(false);
        };
        let totals = isovist_totals_by(self.alloc, self.scene, self.table, point)?;
        make_totals(row, number, totals)?;
        self.number = number + 1;
        Ok(true)
    }
}

/// Prints the table of the isovists of a plan's open grid points, in the order of their numbers: number, number of
/// triangles, and the sums of the floors and of the ceilings of their doubled areas. The scene is the plan's.
///
/// Cost: one table of the scene, an isovist's totals for each open point, and a call of the sink for each 64 KiB;
/// memory for one isovist's directions, one row, and in csv form for some thousand records.
#[tactic(auto, unfolding(report_spec::specs::Tables::isovists_table))]
pub fn put_isovists<O: Sink>(
    alloc: Global,
    out: &mut O,
    form: Form,
    plan: &Plan,
    scene: &Scene,
) -> Result<(), ReportFault>
    requires seen { scene.now ≡ scene_of plan.now }
    ensures all { OnOk result (O.written out.new ≡ appended_to (O.written out.old) (records_bytes form (isovists_table_of plan.now))) }
    ensures prefix { OnErr result (WritesPrefix (O.written out.old) (O.written out.new) (records_bytes form (isovists_table_of plan.now))) }
    ensures faults { Counts result (O.faults out.old) (O.faults out.new) }
{
    let _points = Grid::of(plan).count();
    let table = table_of(alloc, scene)?;
    let mut rows = OpenIsovists {
        alloc,
        plan,
        scene,
        table: &table,
        number: 0,
    };
    put_table(alloc, out, form, b"isovists", &mut rows)
}
