//! Steps that wait, in a ring of buckets by their costs.

ghost use Rattle.std.specs.Prelude.{◌≡◌, ◌<◌, ◌%◌, ◌++◌, ◌∷◌, [], OnOk, IfOk, OnSome, IfSome, IfNone, replicate, slice_set, length};
ghost use Rattle.segment_core.specs.Steps.{bucket_at};

use std::alloc::Global;
use std::marker::Model;
use text_spec::NoMemory;

pub(crate) const BUCKETS: usize = 17;

/// The bucket of steps of a cost.
pub(crate) fn bucket_of(cost: u32) -> usize
    ensures value { result ≡ cost % 17 }
    ensures below { result < 17 }
{
    (cost % 17) as usize
}

/// Steps of one cost, in no order that matters.
#[derive(Drop)]
struct Bucket {
    steps: Vec<u32>,
}

impl Model for Bucket {
    ghost use Rattle.std.specs.Prelude.{List, ℕ};

    ghost Value = { List ℕ };

    ghost view = { λ a. a.steps.items };
}

impl Bucket {
    fn new(alloc: Global) -> Bucket
        ensures { result ≡ [] }
    {
        Bucket {
            steps: Vec::new(alloc),
        }
    }

    fn push(&mut self, step: u32) -> Result<(), NoMemory>
        ensures { OnOk result (self.new ≡ self.old ++ step ∷ []) }
    {
        self.steps.push(step)?;
        Ok(())
    }

    fn pop(&mut self) -> Option<u32>
        ensures last { IfSome result (λ step. self.old ≡ self.new ++ step ∷ []) }
        ensures none { IfNone result (self.old ≡ []) }
        ensures stays { IfNone result (self.new ≡ self.old) }
    {
        self.steps.pop()
    }
}

/// Steps that wait.
#[derive(Drop)]
pub(crate) struct Queue {
    buckets: Vec<Bucket>,
}

impl Model for Queue {
    ghost use Rattle.std.specs.Prelude.{List, ℕ, ◌≡◌, length};

    ghost Value = { List (List ℕ) };

    ghost view = { λ a. a.buckets.items };

    ghost invariant = { λ a. length a.buckets.items ≡ 17 };
}

fn empty_buckets(alloc: Global) -> Result<Vec<Bucket>, NoMemory>
    ensures { IfOk result (λ buckets. buckets.items ≡ replicate 17 []) }
{
    let mut buckets = Vec::new(alloc);
    for _ in 0..BUCKETS {
        buckets.push(Bucket::new(alloc))?;
    }
    Ok(buckets)
}

impl Queue {
    pub(crate) fn new(alloc: Global) -> Result<Queue, NoMemory>
        ensures { IfOk result (λ queue. queue ≡ replicate 17 []) }
    {
        let buckets = empty_buckets(alloc)?;
        Ok(Queue { buckets })
    }

    pub(crate) fn push(&mut self, bucket: usize, step: u32) -> Result<(), NoMemory>
        requires { bucket < 17 }
        ensures pushed { OnOk result (self.new ≡ slice_set self.old bucket (bucket_at self.old bucket ++ step ∷ [])) }
        ensures ring { length self.old ≡ 17 }
    {
        self.buckets[bucket].push(step)
    }

    pub(crate) fn pop(&mut self, bucket: usize) -> Option<u32>
        requires { bucket < 17 }
        ensures last { IfSome result (λ step. bucket_at self.old bucket ≡ bucket_at self.new bucket ++ step ∷ []) }
        ensures others { OnSome result (self.new ≡ slice_set self.old bucket (bucket_at self.new bucket)) }
        ensures none { IfNone result (bucket_at self.old bucket ≡ []) }
        ensures stays { IfNone result (self.new ≡ self.old) }
    {
        self.buckets[bucket].pop()
    }
}
