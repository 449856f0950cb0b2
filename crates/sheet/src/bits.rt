//! The bits that a sheet starts with, and those after a step.
ghost use Rattle.std.specs.Prelude.{◌≡◌, ℕ, ◌≤◌, false, map, length, get_or, take, slice_index_or};
ghost use Rattle.sheet.specs.Runs.{start_bit, or_kept, numbered};
ghost use Rattle.sheet.specs.View.{sheet_of};

use crate::sheet::Sheet;
use crate::syntax::Bit;
use std::array;

// The start of bit n, and false past the last.
fn start_at(bits: &[Bit], n: usize) -> bool
    ensures { result ≡ slice_index_or (map start_bit bits.now) n false }
{
    bits.get(n).is_some_and(|bit| bit.start)
}

// The next value of a bit that was `old`.
fn next_of(bit: Bit, old: bool, truths: &[bool]) -> bool
    ensures { result ≡ or_kept (λ f. get_or truths.now f false) old bit.next }
{
    bit.next
        .map_or(old, |f| truths.get(f as usize).copied().unwrap_or(false))
}

// The next value of bit n, and false past the last.
fn next_at(bits: &[Bit], old: &[bool], truths: &[bool], n: usize) -> bool
    ensures { result ≡ slice_index_or (numbered (λ n b. or_kept (λ f. get_or truths.now f false) (slice_index_or old.now n false) b.next) 0 bits.now) n false }
{
    bits.get(n).is_some_and(|bit| next_of(*bit, old.get(n).copied().unwrap_or(false), truths))
}

impl Sheet {
    /// The bits of the first configuration; past the sheet's bits all are false.
    pub fn start_bits(&self) -> [bool; 16]
        ensures value { take (length (sheet_of self.now).bits) result ≡ map start_bit (sheet_of self.now).bits }
        ensures rest { (k : ℕ) → length (sheet_of self.now).bits ≤ k → slice_index_or result k false ≡ false }
    {
        let bits = self.parts.bits.as_slice();
        array::from_fn(|n| start_at(bits, n))
    }

    /// The bits after a step from the old ones, by the truth of the formulas; past the sheet's bits all
    /// are false.
    pub fn next_bits(&self, old: &[bool], truths: &[bool]) -> [bool; 16]
        ensures value { take (length (sheet_of self.now).bits) result ≡ numbered (λ n b. or_kept (λ f. get_or truths.now f false) (slice_index_or old.now n false) b.next) 0 (sheet_of self.now).bits }
        ensures rest { (k : ℕ) → length (sheet_of self.now).bits ≤ k → slice_index_or result k false ≡ false }
    {
        let bits = self.parts.bits.as_slice();
        array::from_fn(|n| next_at(bits, old, truths, n))
    }
}
