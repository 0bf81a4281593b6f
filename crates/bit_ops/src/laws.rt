//! Laws of the operations' meanings, over every width and word.
//!
//! Each is the contract of a function with an empty body. A caller has the laws by a call, which does nothing.

ghost use Rattle.std.specs.Prelude.{◌≡◌, ℕ, ◌+◌, ◌-◌, ◌%◌, ◌^◌, ◌<◌, ◌≤◌, List, min, max, ℤ, pos, neg_ℤ, ◌≤ℤ◌, ◌<ℤ◌};
ghost use Rattle.std.specs.Int.{bit_at};
ghost use Rattle.bit_ops.specs.Meaning.{signed_of, word_of, zext_of, sext_of, slice_of, concat_of, insert_of, not_of, and_of, or_of, xor_of, shl_of, shr_u_of, shr_s_of, lt_u_of, lt_s_of, mux_of};
ghost use Rattle.bit_ops.specs.Width.{WidthsFit};
ghost use Rattle.bit_ops.specs.Rows.{widths_of, AreWords, value_of};
ghost use Rattle.bit_ops.specs.declared.operation.Op.{Op};
ghost use Rattle.bit_ops.specs.declared.value.Bits.{Bits};

/// A value is its width and its word.
pub fn width_and_word_decide()
    ensures { (a b : Bits) → a.width ≡ b.width → a.word ≡ b.word → a ≡ b }
{}

/// The value of an operation is a word of its width, where the widths fit and the operands are words of theirs.
pub fn value_fits()
    ensures { (op : Op) (w lo : ℕ) (operands : List (ℕ × ℕ)) → WidthsFit op w lo (widths_of operands) → AreWords operands → value_of op w lo operands < 2 ^ w }
{}

/// A word and the signed number that it stands for, each of which gives the other.
pub fn signed_numbers()
    ensures within { (w a : ℕ) → 1 ≤ w → a < 2 ^ w → (neg_ℤ (pos (2 ^ (w - 1))) ≤ℤ signed_of w a) × (signed_of w a <ℤ pos (2 ^ (w - 1))) }
    ensures number { (w : ℕ) (z : ℤ) → 1 ≤ w → neg_ℤ (pos (2 ^ (w - 1))) ≤ℤ z → z <ℤ pos (2 ^ (w - 1)) → signed_of w (word_of w z) ≡ z }
    ensures word { (w a : ℕ) → a < 2 ^ w → word_of w (signed_of w a) ≡ a }
    ensures extended { (n w a : ℕ) → 1 ≤ n → n ≤ w → a < 2 ^ n → signed_of w (sext_of n w a) ≡ signed_of n a }
{}

/// Extension and cutting: cut to the width that it had, an extended word is as it was.
pub fn extension_then_cut()
    ensures cut { (n a : ℕ) → slice_of 0 n a ≡ a % 2 ^ n }
    ensures zext_then_cut { (n a : ℕ) → a < 2 ^ n → slice_of 0 n (zext_of a) ≡ a }
    ensures sext_then_cut { (n w a : ℕ) → n ≤ w → a < 2 ^ n → slice_of 0 n (sext_of n w a) ≡ a }
    ensures sext_twice { (n m w a : ℕ) → 1 ≤ n → n ≤ m → m ≤ w → a < 2 ^ n → sext_of m w (sext_of n m a) ≡ sext_of n w a }
{}

/// Slices of slices and of joined words.
pub fn slices()
    ensures of_slice { (lo w from n a : ℕ) → lo + w ≤ n → slice_of lo w (slice_of from n a) ≡ slice_of (from + lo) w a }
    ensures of_lower { (lo w n a b : ℕ) → lo + w ≤ n → slice_of lo w (concat_of n a b) ≡ slice_of lo w b }
    ensures of_upper { (lo w n a b : ℕ) → b < 2 ^ n → n ≤ lo → slice_of lo w (concat_of n a b) ≡ slice_of (lo - n) w a }

    // A slice that takes bits of both parts.
    ensures of_both { (lo w n a b : ℕ) → b < 2 ^ n → lo ≤ n → n ≤ lo + w → slice_of lo w (concat_of n a b) ≡ concat_of (n - lo) (slice_of 0 (lo + w - n) a) (slice_of lo (n - lo) b) }
    ensures of_shifted { (w n a b : ℕ) → a < 2 ^ w → slice_of 0 n (shr_u_of w a b) ≡ slice_of b n a }
{}

/// Joined slices and joined joins.
pub fn concatenations()
    ensures of_slices { (lo m n a : ℕ) → concat_of n (slice_of (lo + n) m a) (slice_of lo n a) ≡ slice_of lo (m + n) a }
    ensures of_concat { (m n a b c : ℕ) → concat_of n (concat_of m a b) c ≡ concat_of (m + n) a (concat_of n b c) }
{}

/// Insertion: the bits at its place are the inserted ones, and all others stay.
pub fn insertions()
    ensures slice_inside { (lo n a b : ℕ) → b < 2 ^ n → slice_of lo n (insert_of lo n a b) ≡ b }
    ensures slice_below { (from w lo n a b : ℕ) → from + w ≤ lo → slice_of from w (insert_of lo n a b) ≡ slice_of from w a }
    ensures slice_above { (from w lo n a b : ℕ) → b < 2 ^ n → lo + n ≤ from → slice_of from w (insert_of lo n a b) ≡ slice_of from w a }
    ensures of_slice { (lo n a : ℕ) → insert_of lo n a (slice_of lo n a) ≡ a }
    ensures twice { (lo n a b c : ℕ) → b < 2 ^ n → c < 2 ^ n → insert_of lo n (insert_of lo n a b) c ≡ insert_of lo n a c }
    ensures apart { (lo n hi m a b c : ℕ) → b < 2 ^ n → c < 2 ^ m → lo + n ≤ hi → insert_of lo n (insert_of hi m a c) b ≡ insert_of hi m (insert_of lo n a b) c }
    ensures whole { (n a b : ℕ) → a < 2 ^ n → insert_of 0 n a b ≡ b }

    // The bits above, the inserted ones and the bits below, joined.
    ensures as_concat { (lo n w a b : ℕ) → lo + n ≤ w → a < 2 ^ w → insert_of lo n a b ≡ concat_of (lo + n) (slice_of (lo + n) (w - (lo + n)) a) (concat_of lo b (slice_of 0 lo a)) }
{}

/// The choice at each value of its condition.
pub fn choices()
    ensures at_one { (a b : ℕ) → mux_of 1 a b ≡ a }
    ensures at_zero { (a b : ℕ) → mux_of 0 a b ≡ b }
    ensures of_same { (c a : ℕ) → mux_of c a a ≡ a }
{}

/// The signed order against the unsigned one: alike where the sign bits agree, else the number with the sign bit is less.
pub fn signed_order()
    ensures both_clear { (n a b : ℕ) → a < 2 ^ (n - 1) → b < 2 ^ (n - 1) → lt_s_of n a b ≡ lt_u_of a b }
    ensures both_set { (n a b : ℕ) → 2 ^ (n - 1) ≤ a → a < 2 ^ n → 2 ^ (n - 1) ≤ b → b < 2 ^ n → lt_s_of n a b ≡ lt_u_of a b }
    ensures left_set { (n a b : ℕ) → 2 ^ (n - 1) ≤ a → a < 2 ^ n → b < 2 ^ (n - 1) → lt_s_of n a b ≡ 1 }
    ensures right_set { (n a b : ℕ) → a < 2 ^ (n - 1) → 2 ^ (n - 1) ≤ b → b < 2 ^ n → lt_s_of n a b ≡ 0 }
{}

/// Each bit of a result, by its position, for the operations that move bits.
pub fn moved_bits()
    ensures slice { (lo w a i : ℕ) → i < w → bit_at (slice_of lo w a) i ≡ bit_at a (lo + i) }
    ensures concat_lower { (n a b i : ℕ) → i < n → bit_at (concat_of n a b) i ≡ bit_at b i }
    ensures concat_upper { (n a b i : ℕ) → b < 2 ^ n → n ≤ i → bit_at (concat_of n a b) i ≡ bit_at a (i - n) }
    ensures insert_below { (lo n a b i : ℕ) → i < lo → bit_at (insert_of lo n a b) i ≡ bit_at a i }
    ensures insert_inside { (lo n a b i : ℕ) → lo ≤ i → i < lo + n → bit_at (insert_of lo n a b) i ≡ bit_at b (i - lo) }
    ensures insert_above { (lo n a b i : ℕ) → b < 2 ^ n → lo + n ≤ i → bit_at (insert_of lo n a b) i ≡ bit_at a i }
    ensures sext_kept { (n w a i : ℕ) → n ≤ w → a < 2 ^ n → i < n → bit_at (sext_of n w a) i ≡ bit_at a i }
    ensures sext_new { (n w a i : ℕ) → 1 ≤ n → n ≤ w → a < 2 ^ n → n ≤ i → i < w → bit_at (sext_of n w a) i ≡ bit_at a (n - 1) }
{}

/// Each bit of a result, by its position, for shifts.
pub fn shifted_bits()
    ensures shl_below { (w a b i : ℕ) → i < b → i < w → bit_at (shl_of w a b) i ≡ 0 }
    ensures shl_above { (w a b i : ℕ) → b ≤ i → i < w → bit_at (shl_of w a b) i ≡ bit_at a (i - b) }

    // Past the width of a word its bits are 0.
    ensures shr_u { (w a b i : ℕ) → a < 2 ^ w → bit_at (shr_u_of w a b) i ≡ bit_at a (b + i) }
    ensures shr_s_inside { (w a b i : ℕ) → a < 2 ^ w → b + i < w → bit_at (shr_s_of w a b) i ≡ bit_at a (b + i) }
    ensures shr_s_past { (w a b i : ℕ) → a < 2 ^ w → i < w → w ≤ b + i → bit_at (shr_s_of w a b) i ≡ bit_at a (w - 1) }
{}

/// Each bit of a result, by its position, for the operations that work on each bit alone.
pub fn single_bits()
    ensures not { (w a i : ℕ) → a < 2 ^ w → i < w → bit_at (not_of w a) i ≡ 1 - bit_at a i }
    ensures and { (a b i : ℕ) → bit_at (and_of a b) i ≡ min (bit_at a i) (bit_at b i) }
    ensures or { (a b i : ℕ) → bit_at (or_of a b) i ≡ max (bit_at a i) (bit_at b i) }
    ensures xor { (a b i : ℕ) → bit_at (xor_of a b) i ≡ (bit_at a i + bit_at b i) % 2 }
{}
