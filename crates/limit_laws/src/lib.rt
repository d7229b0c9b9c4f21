//! The limits of formats, plans, options and walks: each is its number.
//!
//! Definitions, contracts and code cite the limits by name, and so would prove as well of other numbers. Here each limit
//! is tied to the number that users are told (`docs/FORMATS.md`), so that a changed one doesn't prove. A law breaks if its
//! constant changes, and rests on nothing else.
#![tactic(auto)]

ghost use Rattle.std.specs.Prelude.{◌≡◌, pos};
ghost use Rattle.text_spec.specs.declared.lines.TheConstants.{MAX_LINE_BYTES};
ghost use Rattle.text_spec.specs.declared.name.TheConstants.{MAX_NAME_BYTES};
ghost use Rattle.text_spec.specs.declared.numbers.TheConstants.{MAX_DIGITS, MAX_NUMBER};
ghost use Rattle.plane_spec.specs.declared.TheConstants.{MAX_COMPONENT, MAX_COORDINATE};
ghost use Rattle.plan_spec.specs.declared.limits.TheConstants.{MAX_AXIAL_LINES, MAX_CORNERS, MAX_GRID_POINTS, MAX_OBSTACLES, MAX_ROUTES, MAX_SCREENS, MAX_SHIFT, MAX_STEP};
ghost use Rattle.grammar_spec.specs.declared.limits.TheConstants.{MAX_PLAN_BYTES, MAX_SCRIPT_BYTES};
ghost use Rattle.options_spec.specs.declared.options.TheConstants.{MAX_TRIAL_BOXES, MAX_WORKERS};
ghost use Rattle.walk_spec.specs.declared.TheConstants.{MAX_WALKERS, MAX_WALK_STEPS};

/// A line has at most 20000 bytes, a name 32, and a number 9 digits.
pub fn the_limits_of_text()
    ensures line { MAX_LINE_BYTES ≡ 20000 }
    ensures name { MAX_NAME_BYTES ≡ 32 }
    ensures digits { MAX_DIGITS ≡ 9 }
    ensures number { MAX_NUMBER ≡ 999999999 }
{}

/// Coordinates are at most 100000 in size, and components of directions 400000.
pub fn the_limits_of_the_plane()
    ensures coordinate { MAX_COORDINATE ≡ pos 100000 }
    ensures component { MAX_COMPONENT ≡ pos 400000 }
{}

/// A plan has at most 256 obstacles, screens and routes each, 1024 corners, and 4096 grid points at steps of at most nine
/// digits; a move shifts by at most as much, and at most 16384 axial lines are computed.
pub fn the_limits_of_plans()
    ensures obstacles { MAX_OBSTACLES ≡ 256 }
    ensures screens { MAX_SCREENS ≡ 256 }
    ensures routes { MAX_ROUTES ≡ 256 }
    ensures corners { MAX_CORNERS ≡ 1024 }
    ensures grid_points { MAX_GRID_POINTS ≡ 4096 }
    ensures step { MAX_STEP ≡ pos 999999999 }
    ensures shift { MAX_SHIFT ≡ pos 999999999 }
    ensures axial_lines { MAX_AXIAL_LINES ≡ 16384 }
{}

/// A plan's file has at most a mebibyte, and a script sixteen.
pub fn the_limits_of_files()
    ensures plan { MAX_PLAN_BYTES ≡ 1048576 }
    ensures script { MAX_SCRIPT_BYTES ≡ 16777216 }
{}

/// At most 64 workers may be asked for, and a trial plan of at most 250 boxes.
pub fn the_limits_of_options()
    ensures workers { MAX_WORKERS ≡ 64 }
    ensures trial_boxes { MAX_TRIAL_BOXES ≡ 250 }
{}

/// At most 1000 walkers make at most 10000 steps each.
pub fn the_limits_of_walks()
    ensures walkers { MAX_WALKERS ≡ 1000 }
    ensures steps { MAX_WALK_STEPS ≡ 10000 }
{}
