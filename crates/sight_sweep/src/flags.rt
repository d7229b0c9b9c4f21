//! Flags by number.

ghost use Rattle.std.specs.Prelude.{◌≡◌, ◌≢◌, ℕ, IfOk, replicate, true};
ghost use Rattle.sight_sweep.specs.LeftOut as words;

use std::alloc::Global;
use text_spec::NoMemory;

/// Whether the flag of the number is set, or there is none.
pub(crate) fn is_set(flags: &[bool], number: usize) -> bool
    ensures { result ≡ words.is_set flags.now number }
{
    match flags.get(number) {
        None => true,
        Some(flag) => *flag,
    }
}

/// Sets the flag of the number, if there is one.
pub(crate) fn set(flags: &mut [bool], number: usize)
    ensures own { words.is_set flags.new number ≡ true }
    ensures others { (n : ℕ) → words.is_set flags.old n ≡ true → words.is_set flags.new n ≡ true }
{
    if number < flags.len() {
        flags[number] = true;
    }
}

/// Clears the flag of the number, if there is one.
pub(crate) fn clear(flags: &mut [bool], number: usize)
    ensures { (n : ℕ) → n ≢ number → words.is_set flags.new n ≡ words.is_set flags.old n }
{
    if number < flags.len() {
        flags[number] = false;
    }
}

/// So many flags, all of them set.
pub(crate) fn all_set(alloc: Global, count: usize) -> Result<Vec<bool>, NoMemory>
    ensures { IfOk result (λ flags. flags.items ≡ replicate count true) }
{
    Ok(vec![in alloc; true; count]?)
}
