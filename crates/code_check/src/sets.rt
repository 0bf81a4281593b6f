//! Sets of positions as rows of words, 64 positions a word, the lowest bit of the first word first.

ghost use Rattle.std.specs.Prelude.{◌≡◌, ◌*◌, ◌<◌, ◌↔◌, ◌⊎◌, ℕ, length, IsTrue};
ghost use Rattle.code_isa.specs.Marks.{IsBitSetTo};
ghost use Rattle.code_check.specs.code.Sets.{IsIn};

/// Whether a position is in a set.
pub fn has(row: &[u64], p: usize) -> bool
    requires { p < 64 * length row.now }
    ensures { IsTrue result ↔ IsIn row.now p }
{
    row[p / 64] >> (p % 64) & 1 == 1
}

/// Puts a position into a set.
pub fn insert(row: &mut Vec<u64>, p: usize)
    requires { p < 64 * length row.old.items }
    ensures { IsBitSetTo row.old.items row.new.items p 1 }
{
    row[p / 64] |= 1 << (p % 64);
}

/// Puts all positions of another set of the same size into a set.
pub fn join(row: &mut Vec<u64>, more: &[u64])
    requires { length row.old.items ≡ length more.now }
    ensures size { length row.new.items ≡ length row.old.items }
    ensures joined { (p : ℕ) → IsIn row.new.items p ↔ (IsIn row.old.items p ⊎ IsIn more.now p) }
{
    for k in 0..more.len() {
        row[k] |= more[k];
    }
}
