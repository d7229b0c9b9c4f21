//! Elements of lists by their places.

ghost use Rattle.std.specs.Prelude.{◌≡◌, ◌<◌, ◌+◌, ◌∷◌, drop, get_or, length, None};
ghost use Rattle.graph_spec.specs.Graphs.{no_measures};

use step_depth::Measure;

/// The element at a place, which stands before those after it.
pub fn element<T: Copy>(xs: &[T], k: usize) -> T
    requires { k < length xs.now }
    ensures { drop k xs.now ≡ result ∷ drop (k + 1) xs.now }
{
    xs[k]
}

/// The same of elements that can't be copied.
pub fn element_of<T>(xs: &[T], k: usize) -> &T
    requires { k < length xs.now }
    ensures { drop k xs.now ≡ result.now ∷ drop (k + 1) xs.now }
{
    &xs[k]
}

/// The depth that stands at a number, if there is one.
pub fn depth_at(depths: &[Option<u32>], number: u32) -> Option<u32>
    ensures { result ≡ get_or depths.now number None }
{
    let k = number as usize;
    if k < depths.len() { depths[k] } else { None }
}

/// What is measured where nothing is.
fn nothing_measured() -> Measure
    ensures { result ≡ no_measures }
{
    Measure {
        connectivity: 0,
        reached: 0,
        total: 0,
        mean: None,
        ra: None,
    }
}

/// The measures that stand at a number, or those of nothing.
pub fn measure_at(measures: &[Measure], number: u32) -> Measure
    ensures { result ≡ get_or measures.now number no_measures }
{
    let k = number as usize;
    if k < measures.len() {
        measures[k]
    } else {
        nothing_measured()
    }
}
