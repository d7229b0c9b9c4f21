//! Changes that name places.

ghost use Rattle.std.specs.Prelude.{◌≡◌, IfOk};
ghost use Rattle.plan_back.specs.Backs.{edit_name, name_of};

use plan_check::copied_points;
use plan_spec::{Edit, Points};
use plane_spec::Point;
use std::alloc::Global;
use text_spec::{Name, NoMemory};

/// A change of a plan that names the place, counted from 0, of what it adds among the obstacles, screens or routes.
/// Points may be out of range.
#[derive(Drop)]
pub enum Back {
    /// The obstacle of this name goes.
    Take(Name),
    /// A new obstacle at this place, of this name and with these points.
    Put(u32, Name, Points),
    /// The obstacle of this name is shifted by so much in x and in y.
    Shift(Name, i64, i64),
    /// The screen of this name goes.
    TakeScreen(Name),
    /// A new screen at this place, of this name and between these ends.
    PutScreen(u32, Name, Point, Point),
    /// The route of this name goes.
    TakeRoute(Name),
    /// A new route at this place, of this name and from the first point to the second.
    PutRoute(u32, Name, Point, Point),
}

impl Back {
    /// The name of what changes.
    pub fn name(&self) -> Name
        ensures { result ≡ name_of self.now }
    {
        match self {
            Back::Take(name) => name.copy(),
            Back::Put(_place, name, _points) => name.copy(),
            Back::Shift(name, _dx, _dy) => name.copy(),
            Back::TakeScreen(name) => name.copy(),
            Back::PutScreen(_place, name, _from, _to) => name.copy(),
            Back::TakeRoute(name) => name.copy(),
            Back::PutRoute(_place, name, _from, _to) => name.copy(),
        }
    }

    /// The same change again.
    pub fn copy(&self, alloc: Global) -> Result<Back, NoMemory>
        ensures { IfOk result (λ copy. copy ≡ self.now) }
    {
        Ok(match self {
            Back::Take(name) => Back::Take(name.copy()),
            Back::Put(place, name, points) => {
                let points = copied_points(alloc, points.as_slice())?;
                Back::Put(*place, name.copy(), points)
            }
            Back::Shift(name, dx, dy) => Back::Shift(name.copy(), *dx, *dy),
            Back::TakeScreen(name) => Back::TakeScreen(name.copy()),
            Back::PutScreen(place, name, from, to) => {
                Back::PutScreen(*place, name.copy(), *from, *to)
            }
            Back::TakeRoute(name) => Back::TakeRoute(name.copy()),
            Back::PutRoute(place, name, from, to) => {
                Back::PutRoute(*place, name.copy(), *from, *to)
            }
        })
    }
}

/// The name of what an edit changes.
pub fn edit_name(edit: &Edit) -> Name
    ensures { result ≡ edit_name edit.now }
{
    match edit {
        Edit::Add(name, _points) => name.copy(),
        Edit::Remove(name) => name.copy(),
        Edit::Move(name, _dx, _dy) => name.copy(),
        Edit::AddScreen(name, _from, _to) => name.copy(),
        Edit::RemoveScreen(name) => name.copy(),
        Edit::AddRoute(name, _from, _to) => name.copy(),
        Edit::RemoveRoute(name) => name.copy(),
    }
}
