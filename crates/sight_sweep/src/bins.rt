//! Which cover may hide what is in a direction: by bins, 64 for each quarter turn.
//!
//! A bin only proposes a cover, so nothing is proved of it.

ghost use Rattle.std.specs.Prelude.{◌≤◌};
ghost use Rattle.plane_spec.specs.Vectors.{IsDirection};

use crate::blocker::Blocker;
use crate::places::{is_first, is_second, is_third, size};
use plane_spec::Point;
use std::alloc::Global;
use text_spec::NoMemory;

/// So many bins.
const BINS: usize = 256;

/// A bin without a cover.
const NONE: u8 = 255;

/// The bin of a direction that leads so far along the first and so far along the second side of a quarter turn.
fn bin_in(quarter: usize, first: u64, second: u64) -> usize
    requires quarter_in { quarter ≤ 192 }
    requires first_in { first ≤ 400000 }
    requires second_in { second ≤ 400000 }
    ensures within { result ≤ 256 }
{
    if first + second == 0 {
        return quarter;
    }
    quarter + (second * 64 / (first + second)) as usize
}

/// The bin of a direction.
fn bin_of(d: Point) -> usize
    requires { IsDirection d }
    ensures within { result ≤ 256 }
{
    let (x, y) = (size(d.x), size(d.y));
    if is_first(d) {
        bin_in(0, x, y)
    } else if is_second(d) {
        bin_in(64, y, x)
    } else if is_third(d) {
        bin_in(128, x, y)
    } else {
        bin_in(192, y, x)
    }
}

/// Bins without covers.
pub(crate) fn no_covers(alloc: Global) -> Result<Vec<u8>, NoMemory> {
    Ok(vec![in alloc; NONE; BINS]?)
}

/// The number of the cover that the direction's bin has; beyond all covers where it has none.
pub(crate) fn proposed(bins: &[u8], d: Point) -> usize
    requires { IsDirection d }
{
    match bins.get(bin_of(d)) {
        None => NONE as usize,
        Some(cover) => *cover as usize,
    }
}

/// Gives the bin to the cover, if it has none: whether it did.
fn take_bin(bins: &mut [u8], bin: usize, cover: u8) -> bool {
    if bins.len() <= bin || bins[bin] != NONE {
        return false;
    }
    bins[bin] = cover;
    true
}

/// Gives the bins from the first up to the last, without it, to the cover: whether there was any without one.
fn take_bins(bins: &mut [u8], first: usize, last: usize, cover: u8) -> bool {
    let mut any = false;
    for bin in first..last {
        if take_bin(bins, bin, cover) {
            any = true;
        }
    }
    any
}

/// Gives the bins that lie between its ends to the cover, where nearer ones have left them: whether there are any.
pub(crate) fn cover_bins(bins: &mut [u8], blocker: &Blocker, cover: u8) -> bool {
    let first = bin_of(blocker.from);
    let last = bin_of(blocker.to);
    if last < first {
        let before = take_bins(bins, 0, last, cover);
        return take_bins(bins, first + 1, BINS, cover) || before;
    }
    take_bins(bins, first + 1, last, cover)
}
