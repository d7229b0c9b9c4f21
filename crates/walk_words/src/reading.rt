//! What the words ask for.

ghost use Rattle.std.specs.Prelude.{◌≡◌, map, string_bytes, slice_index_or, []};
ghost use Rattle.text_spec.specs.Numbers.{natural_of};
ghost use Rattle.walk_words.specs.WalkWords.{number_between, options_by, options_of, walk_options_of};

use options_spec::{GivenText, MAX_WORKERS};
use plan_text::natural;
use walk_spec::{MAX_WALK_STEPS, MAX_WALKERS, WalkSpec};

/// What the command for walkers was asked for.
#[derive(Drop)]
pub struct WalkOptions<'a> {
    /// The name of the plan's file.
    pub file: GivenText<'a>,
    /// How many walkers make how many steps, and their seed.
    pub spec: WalkSpec,
    /// How many threads may work at once, from 1 to [`MAX_WORKERS`].
    pub workers: u32,
}

/// The number of a text that is one from `least` to `most`.
fn number_between(least: u32, most: u32, text: &str) -> Option<u32>
    ensures { result ≡ number_between least most (natural_of text.now) }
{
    match natural(text.as_bytes()) {
        Some(number) if least <= number && number <= most => Some(number),
        _ => None,
    }
}

/// All that was asked for, where each part of it stands for something.
fn options_by<'a>(
    file: &'a str,
    walkers: Option<u32>,
    steps: Option<u32>,
    seed: Option<u32>,
    workers: Option<u32>,
) -> Option<WalkOptions<'a>>
    ensures { result ≡ options_by file.now walkers steps seed workers }
{
    match (walkers, steps, seed, workers) {
        (Some(walkers), Some(steps), Some(seed), Some(workers)) => Some(WalkOptions {
            file: GivenText::of(file),
            spec: WalkSpec {
                seed: u64::from(seed),
                walkers,
                steps,
            },
            workers,
        }),
        _ => None,
    }
}

/// What five texts after `-f` ask for.
fn options_of<'a>(
    file: &'a str,
    walkers: &str,
    steps: &str,
    seed: &str,
    workers: &str,
) -> Option<WalkOptions<'a>>
    ensures { result ≡ options_of file.now walkers.now steps.now seed.now workers.now }
{
    options_by(
        file,
        number_between(1, MAX_WALKERS, walkers),
        number_between(0, MAX_WALK_STEPS, steps),
        natural(seed.as_bytes()),
        number_between(1, MAX_WORKERS as u32, workers),
    )
}

/// What the words of the command ask for, the program's name left out; `None` where there are not six of them, the first
/// isn't `-f`, or a number isn't written as one or is out of its range.
#[tactic(auto, unfolding(crate::specs::WalkWords::walk_options_of))]
pub fn walk_options_in<'a>(words: &'a [String]) -> Option<WalkOptions<'a>>
    ensures { result ≡ walk_options_of (map string_bytes words.now) }
{
    if words.len() == 6 && words[0].as_str() == "-f" {
        options_of(
            words[1].as_str(),
            words[2].as_str(),
            words[3].as_str(),
            words[4].as_str(),
            words[5].as_str(),
        )
    } else {
        None
    }
}
