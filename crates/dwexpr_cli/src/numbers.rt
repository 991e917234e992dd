//! Numbers in the input.

ghost use Rattle.std.specs.Prelude.{◌≡◌, ◌≤◌, option_and_then};
ghost use Rattle.dwexpr_cli.specs.StepLines.{below, integer_in, number_in, numeral_in};

/// The number that digits spell.
fn numeral_of(digits: &str, base: u32) -> Option<u64>
    requires two { 2 ≤ base }
    requires most { base ≤ 36 }
    ensures { result ≡ option_and_then (below 64) (numeral_in base digits.now) }
{
    // `from_str_radix` would accept a plus sign.
    if digits.starts_with('+') {
        return None;
    }
    u64::from_str_radix(digits, base).ok()
}

/// The number that a word spells, from 0 up: decimal digits, or `0x` and hexadecimal digits of either case.
pub(crate) fn number_of(word: &str) -> Option<u64>
    ensures { result ≡ number_in word.now }
{
    match word.strip_prefix("0x") {
        Some(digits) => numeral_of(digits, 16),
        None => numeral_of(word, 10),
    }
}

/// The integer that a word spells: decimal digits, perhaps after a minus sign.
pub(crate) fn integer_of(word: &str) -> Option<i64>
    ensures { result ≡ integer_in word.now }
{
    // `parse` would accept a plus sign.
    if word.starts_with('+') {
        return None;
    }
    word.parse().ok()
}
