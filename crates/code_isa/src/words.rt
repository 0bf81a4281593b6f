//! Lists of words as sets of positions, 64 positions a word, the lowest bit of the first word first.

ghost use Rattle.std.specs.Prelude.{◌≡◌, ◌≢◌, ℕ, ◌*◌, ◌/◌, ◌^◌, ◌<◌, ◌≤◌, length, slice_index, MatchOption, IfOk, replicate};
ghost use Rattle.code_isa.specs.Marks.{IsBitSetTo, IsSummary, IsSummaryBut, IsEmpty, IsFirstWord, IsLowestIn};

use std::alloc::{AllocError, Global};

/// This many empty words.
pub fn zeros(alloc: Global, count: usize) -> Result<Vec<u64>, AllocError>
    ensures { IfOk result (λ words. words.items ≡ replicate count 0) }
{
    vec![in alloc; 0; count]
}

/// Sets the bit at a position.
pub fn set_bit(words: &mut Vec<u64>, k: usize)
    requires { k < 64 * length words.old.items }
    ensures { IsBitSetTo words.old.items words.new.items k 1 }
{
    words[k / 64] |= 1 << (k % 64);
}

/// Clears the bit at a position.
pub fn clear_bit(words: &mut Vec<u64>, k: usize)
    requires { k < 64 * length words.old.items }
    ensures { IsBitSetTo words.old.items words.new.items k 0 }
{
    words[k / 64] &= !(1 << (k % 64));
}

/// The lowest position that is set in a word that is not empty.
pub fn lowest(words: &[u64], j: usize) -> usize
    requires inside { length words.now < 2 ^ 57 }
    requires some { slice_index words.now j ≢ 0 }
    ensures { IsLowestIn words.now j result }
{
    j * 64 + words[j].trailing_zeros() as usize
}

/// The first word that is not empty.
pub fn first_word(words: &[u64]) -> Option<usize>
    ensures { MatchOption result (IsEmpty words.now) (IsFirstWord words.now) }
{
    words.iter().position(|word| *word != 0)
}

/// Clears the bit of a word that may have become empty.
pub fn drop_empty(upper: &mut Vec<u64>, lower: &[u64], j: usize)
    requires inside { j < length lower.now }
    requires room { length lower.now ≤ 64 * length upper.old.items }
    requires but { IsSummaryBut upper.old.items lower.now j }
    ensures size { length upper.new.items ≡ length upper.old.items }
    ensures sums { IsSummary upper.new.items lower.now }
    ensures words { (i : ℕ) → i ≢ j / 64 → slice_index upper.new.items i ≡ slice_index upper.old.items i }
{
    if lower[j] == 0 {
        clear_bit(upper, j);
    }
}
