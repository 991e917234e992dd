//! The integers of values in 64 bits.

ghost use Rattle.std.specs.Prelude.{◌≡◌, ◌^◌, ◌<◌, ◌≤◌, pos, neg_ℤ, ◌+ℤ◌, if◌then◌else◌, unsigned_abs};
ghost use Rattle.std.specs.Int.{is_negative};
ghost use Rattle.dwarf_base.specs.Numbers.{residue};
ghost use Rattle.dwarf_value.specs.Values.{word_integer};

/// The integer of a value as 64 bits, and the width and the sign of its type. Above the width stand copies of the sign,
/// or zeros.
#[derive(Clone, Copy)]
pub(crate) struct Word {
    pub bits: u64,
    pub width: u32,
    pub signed: bool,
    ghost some_bit: { 0 < width },
    ghost within_64: { width ≤ 64 },
}

impl Word {
    /// Whether the integer is below zero.
    #[tactic(auto, unfolding(crate::specs::Values::word_integer))]
    #[inline(always)]
    pub(crate) fn is_negative(self) -> bool
        ensures { result ≡ is_negative (word_integer self.signed 64 self.bits) }
    {
        self.signed && self.bits.cast_signed() < 0
    }

    /// The absolute value of the integer.
    #[tactic(auto, unfolding(crate::specs::Values::word_integer))]
    #[inline(always)]
    pub(crate) fn magnitude(self) -> u64
        ensures { result ≡ unsigned_abs (word_integer self.signed 64 self.bits) }
    {
        negated_if(self.is_negative(), self.bits)
    }

    /// A number that compares as the integer does with those of the same sign. Adding 2^63 turns the highest bit.
    #[tactic(auto, unfolding(crate::specs::Values::word_integer))]
    #[inline(always)]
    pub(crate) fn sort_key(self) -> u64
        ensures { pos result
            ≡ word_integer self.signed 64 self.bits +ℤ pos (if self.signed then 2 ^ 63 else 0) }
    {
        self.bits.wrapping_add(u64::from(self.signed) << 63)
    }
}

/// The bits of a number, or of the negated number.
#[inline(always)]
pub(crate) fn negated_if(negative: bool, bits: u64) -> u64
    ensures { result ≡ residue 64 (if negative then neg_ℤ (pos bits) else pos bits) }
{
    if negative { bits.wrapping_neg() } else { bits }
}
