// Digits and words as numbers, and back.
ghost use Rattle.std.specs.Prelude.{◌≡◌, ◌≢◌, ℕ, ◌<◌, MatchOption, from_bits};
ghost use Rattle.std.specs.Float.{binary64};
ghost use Rattle.std.specs.Int.{w64};
ghost use Rattle.std.proofs.Common.{to_z, of_z};
ghost use Rattle.std.specs.Char.{digit_char};

use std::num::f64_from_bits_with_nan;

// The value of a lower-case hexadecimal digit; any other byte has none.
pub(crate) fn digit_of(byte: u8) -> Option<u8>
    ensures { MatchOption result ((d : ℕ) → d < 16 → digit_char d ≢ byte) (λ d. (d < 16) × (digit_char d ≡ byte)) }
{
    match byte {
        b'0'..=b'9' => Some(byte - b'0'),
        b'a'..=b'f' => Some(byte - b'a' + 10),
        _ => None,
    }
}

// The double of these bits; every pattern of a NaN gives the one NaN.
pub(crate) fn double(bits: u64) -> f64
    ensures { result ≡ from_bits binary64 bits }
{
    f64_from_bits_with_nan(bits)
}

// The whole number of which the word is the two's complement.
pub(crate) fn signed(word: u64) -> i64
    ensures { result ≡ to_z w64 word }
{
    word.cast_signed()
}

// The two's complement of a whole number.
pub(crate) fn unsigned(n: i64) -> u64
    ensures { result ≡ of_z w64 n }
{
    n.cast_unsigned()
}
