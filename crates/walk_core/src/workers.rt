//! Walkers divided among workers.

ghost use Rattle.std.specs.Prelude.{◌≡◌, ℕ, ◌+◌, ◌^◌, ◌<◌, ◌≤◌, IfOk, length, slice_index};
ghost use Rattle.std.specs.Thread.{IsSync};
ghost use Rattle.walk_spec.specs.declared.TheConstants.{MAX_WALKERS};
ghost use Rattle.walk_core.specs.Lists.{MayWalk, part_visits};

use crate::neighbours::Neighbours;
use crate::walkers::walk_one;
use std::alloc::Global;
use std::thread::{Threads, join};
use text_spec::NoMemory;
use walk_spec::WalkSpec;

/// The visits of so many walkers, numbered from `first` on, by one worker.
fn walk_each(
    alloc: Global,
    lists: &Neighbours,
    starts: &[u32],
    spec: &WalkSpec,
    first: u32,
    walkers: u32,
) -> Result<Vec<u64>, NoMemory>
    requires may { MayWalk lists.now starts.now spec.now }
    requires walkers { first + walkers ≤ MAX_WALKERS }
    ensures { IfOk result (λ visits. visits.items ≡ part_visits lists.now starts.now spec.now first walkers) }
{
    let mut visits = vec![in alloc; 0u64; lists.nodes() as usize]?;
    for walker in first..first + walkers {
        walk_one(lists, starts, spec, walker, &mut visits);
    }
    Ok(visits)
}

/// Adds the visits that other walkers made.
fn add_each(visits: &mut [u64], others: &[u64])
    requires len { length others.now ≡ length visits.old }
    requires room { (node : ℕ) → node < length visits.old
        → slice_index visits.old node + slice_index others.now node < 2 ^ 64 }
    ensures len { length visits.new ≡ length visits.old }
    ensures sums { (node : ℕ) → node < length visits.old
        → slice_index visits.new node ≡ slice_index visits.old node + slice_index others.now node }
{
    for node in 0..visits.len() {
        visits[node] += others[node];
    }
}

/// How many of the walkers are for `more` of the workers: their share.
fn share(walkers: u32, more: u32, workers: u32) -> u32
    requires { 0 < workers }
    ensures { result ≤ walkers }
{
    (walkers.saturating_mul(more) / workers).min(walkers)
}

/// The visits of so many walkers, numbered from `first` on, by so many workers.
pub(crate) fn walk_all<R: Threads + Sync>(
    rt: &R,
    alloc: Global,
    lists: &Neighbours,
    starts: &[u32],
    spec: &WalkSpec,
    first: u32,
    walkers: u32,
    workers: u32,
) -> Result<Vec<u64>, NoMemory>
    requires may { MayWalk lists.now starts.now spec.now }
    requires walkers { first + walkers ≤ MAX_WALKERS }
    requires workers { 0 < workers }
    ensures { IfOk result (λ visits. visits.items ≡ part_visits lists.now starts.now spec.now first walkers) }
{
    if workers == 1 {
        return walk_each(alloc, lists, starts, spec, first, walkers);
    }
    let fewer = workers / 2;
    let more = workers - fewer;
    let here = share(walkers, more, workers);
    let there = walkers - here;
    let (left, right) = join(
        rt,
        move || -> Result<Vec<u64>, NoMemory>
            requires { IsSync R.row × MayWalk lists.now starts.now spec.now × (first + here ≤ MAX_WALKERS) × (0 < more) }
            ensures { IfOk result (λ visits. visits.items
                ≡ part_visits lists.entry.now starts.entry.now spec.entry.now first here) }
        { walk_all(rt, alloc, lists, starts, spec, first, here, more) },
        move || -> Result<Vec<u64>, NoMemory>
            requires { IsSync R.row × MayWalk lists.now starts.now spec.now × (first + here + there ≤ MAX_WALKERS) × (0 < fewer) }
            ensures { IfOk result (λ visits. visits.items
                ≡ part_visits lists.entry.now starts.entry.now spec.entry.now (first + here) there) }
        { walk_all(rt, alloc, lists, starts, spec, first + here, there, fewer) },
    );
    let mut visits = left?;
    let others = right?;
    add_each(&mut visits, &others);
    Ok(visits)
}
