//! Walkers over lists of neighbours.

ghost use Rattle.std.specs.Prelude.{◌≡◌, ℕ, ◌+◌, ◌-◌, ◌*◌, ◌^◌, ◌<◌, ◌≤◌, All, length, slice_index};
ghost use Rattle.walk_spec.specs.declared.TheConstants.{MAX_WALK_STEPS};
ghost use Rattle.walk_spec.specs.Walks.{draw as draw_of, drawn_from, stepped, generator_of, visits_by};
ghost use Rattle.walk_core.specs.Lists.{listed};

use crate::neighbours::Neighbours;
use rand_core::utils::NextWord;
use rand_pcg::Lcg64Xsh32;
use walk_spec::WalkSpec;

/// The generator of a walker.
#[tactic(auto, unfolding(walk_spec::specs::Walks::generator_of))]
fn generator(seed: u64, walker: u32) -> Lcg64Xsh32
    ensures { result ≡ generator_of seed walker }
{
    Lcg64Xsh32::new(seed, u64::from(walker))
}

/// The generator's next word.
#[tactic(auto, unfolding(walk_spec::specs::Walks::draw))]
fn draw(generator: &mut Lcg64Xsh32) -> u32
    ensures word { result ≡ (draw_of generator.old).0 }
    ensures next { generator.new ≡ (draw_of generator.old).1 }
    ensures word_in { result < 2 ^ 32 }
{
    generator.next_word()
}

/// The starting point that a draw takes a walker to.
#[tactic(auto, unfolding(walk_spec::specs::Walks::drawn_from))]
fn start(starts: &[u32], generator: &mut Lcg64Xsh32) -> u32
    requires { 0 < length starts.now }
    ensures { record { at = result; generator = generator.new } ≡ drawn_from starts.now generator.old }
{
    starts[draw(generator) as usize % starts.len()]
}

/// The neighbour that a draw takes a walker to.
#[tactic(auto, unfolding(walk_spec::specs::Walks::drawn_from))]
fn pick(near: &[u16], generator: &mut Lcg64Xsh32) -> u32
    requires some { 0 < length near.now }
    requires short { length near.now < 2 ^ 32 }
    ensures { record { at = result; generator = generator.new } ≡ drawn_from near.now generator.old }
{
    u32::from(near[(draw(generator) % near.len() as u32) as usize])
}

/// One step of a walker.
fn step(lists: &Neighbours, at: u32, generator: &mut Lcg64Xsh32) -> u32
    requires { at < lists.now.count }
    ensures walker { record { at = result; generator = generator.new }
        ≡ stepped (listed lists.now) (record { at = at; generator = generator.old }) }
    ensures below { result < lists.now.count }
{
    let near = lists.of(at);
    if near.is_empty() {
        return at;
    }
    pick(near, generator)
}

/// Adds the visits of a walker.
pub(crate) fn walk_one(
    lists: &Neighbours,
    starts: &[u32],
    spec: &WalkSpec,
    walker: u32,
    visits: &mut [u64],
)
    requires sized { length visits.old ≡ lists.now.count }
    requires some { 0 < length starts.now }
    requires starts { All (λ start. start < lists.now.count) starts.now }
    requires steps { spec.now.steps ≤ MAX_WALK_STEPS }
    requires room { (node : ℕ) → node < lists.now.count → slice_index visits.old node ≤ 2 ^ 32 }
    ensures sized { length visits.new ≡ length visits.old }
    ensures visits { (node : ℕ) → node < lists.now.count → slice_index visits.new node
        ≡ slice_index visits.old node + visits_by (listed lists.now) starts.now spec.now node walker }
{
    let mut generator = generator(spec.seed, walker);
    let first = start(starts, &mut generator);
    visits[first as usize] += 1;
    let mut at = first;
    'steps: for _ in 0..spec.steps {
        at = step(lists, at, &mut generator);
        visits[at as usize] += 1;
    }
}
