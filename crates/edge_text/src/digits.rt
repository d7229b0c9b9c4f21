//! The digits of numbers, made once and then copied.

ghost use Rattle.std.specs.Prelude.{◌≡◌, ◌+◌, ◌≤◌, ◌++◌, ◌∷◌, [], IfOk, length, map, take};
ghost use Rattle.std.specs.Fmt.{decimal};
ghost use Rattle.std.specs.List.{range_with_len};

use itoa::Buffer;
use std::alloc::Global;
use std::marker::Model;
use text_spec::NoMemory;

/// The digits of a number, at the front of sixteen bytes, which is more than a number of 32 bits has: all are copied in
/// one step, where a copy of a few would be a call. Contracts see the digits.
#[derive(Drop)]
pub struct Digits {
    bytes: [u8; 16],
    count: usize,
}

impl Model for Digits {
    ghost use Rattle.std.specs.Prelude.{◌≤◌, ℕ, List, take};

    ghost Value = { List ℕ };

    ghost view = { λ a. take a.count a.bytes };

    ghost invariant = { λ a. a.count ≤ 10 };
}

impl Digits {
    /// The digits of a number.
    pub fn of(number: u32) -> Digits
        ensures { result ≡ decimal number }
    {
        let mut buffer = Buffer::new();
        let text = buffer.format(number).as_bytes();
        let mut bytes = [0u8; 16];
        bytes[..text.len()].copy_from_slice(text);
        Digits {
            bytes,
            count: text.len(),
        }
    }

    /// Puts the digits at a place of the bytes, and `end` behind them. The place after it. What stood behind is lost.
    pub fn put(&self, bytes: &mut [u8], at: usize, end: u8) -> usize
        requires room { at + 16 ≤ length bytes.old }
        ensures place { result ≡ at + length self.now + 1 }
        ensures length { length bytes.new ≡ length bytes.old }
        ensures bytes { take result bytes.new ≡ take at bytes.old ++ (self.now ++ end ∷ []) }
    {
        bytes[at..at + 16].copy_from_slice(&self.bytes);
        let last = at + self.count;
        bytes[last] = end;
        last + 1
    }
}

/// The digits of each number below a limit.
pub fn digits_below(alloc: Global, limit: u32) -> Result<Vec<Digits>, NoMemory>
    ensures { IfOk result (λ all. all.items ≡ map decimal (range_with_len 0 limit)) }
{
    let mut all = Vec::with_capacity(alloc, limit as usize)?;
    for number in 0..limit {
        all.push(Digits::of(number))?;
    }
    Ok(all)
}
