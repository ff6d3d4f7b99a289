//! Numbers and bytes as the words of a line write them.

ghost use Rattle.std.specs.Prelude.{◌≡◌, ◌≢◌, ◌≤◌, ◌<◌, ◌^◌, ◌↔◌, ◌∷◌, ◌-ℤ◌, ℕ, pos, List, length, slice_index_or, IsSome, IfSome, IfNone};
ghost use Rattle.numerals.specs.Numeral.{digit_of};
ghost use Rattle.script_text.specs.Number.{IsDigit, SaysNumber};

/// More bytes than the HEX of a line of 16,384 bytes says.
pub const MOST_BYTES: usize = 8192;

/// A hex digit's value.
fn hex_digit(byte: u8) -> Option<u8>
    ensures value { IfSome result (λ value. (value < 16) × (value ≡ digit_of byte)) }
    ensures digit { IsSome result ↔ IsDigit 16 byte }
{
    match byte {
        b'0'..=b'9' => Some(byte - b'0'),
        b'A'..=b'F' => Some(byte - b'A' + 10),
        _ => None,
    }
}

/// The number that digits of a base up to 16 say, below 2^64; no digit says 0.
#[tactic(auto, using(crate::proofs::Digits::one_read, crate::proofs::Digits::said_grows))]
fn read_digits(word: &[u8], base: u64) -> Option<u64>
    requires { base ≤ 16 }
    ensures value { IfSome result (SaysNumber base word.now) }
    ensures none { IfNone result ((n : ℕ) → SaysNumber base word.now n → 2 ^ 64 ≤ n) }
{
    let mut value: u64 = 0;
    for &byte in word {
        let digit = u64::from(hex_digit(byte)?);
        if base <= digit {
            return None;
        }
        value = value.checked_mul(base)?.checked_add(digit)?;
    }
    Some(value)
}

/// The number below 2^64 that 1 to 20 decimal digits say.
pub fn read_decimal(word: &[u8]) -> Option<u64>
    ensures value { IfSome result (SaysNumber 10 word.now) }
    ensures none { IfNone result ((n : ℕ) → SaysNumber 10 word.now n → 0 < length word.now → length word.now ≤ 20 → 2 ^ 64 ≤ n) }
{
    if word.is_empty() || 20 < word.len() {
        return None;
    }
    read_digits(word, 10)
}

/// The number that decimal digits say, after a `-` if it is negative.
pub fn read_signed(word: &[u8]) -> Option<i64>
    ensures positive { slice_index_or word.now 0 48 ≢ 45 → IfSome result (λ z. (n : ℕ) × (z ≡ pos n) × SaysNumber 10 word.now n) }
    ensures negative { (digits : List ℕ) → word.now ≡ 45 ∷ digits → IfSome result (λ z. (n : ℕ) × (z ≡ pos 0 -ℤ pos n) × SaysNumber 10 digits n) }
{
    match word {
        [b'-', digits @ ..] => 0i64.checked_sub_unsigned(read_decimal(digits)?),
        _ => i64::try_from(read_decimal(word)?).ok(),
    }
}

/// An ID or a word of a table, of 1 to 16 hex digits. A leading zero stands only in `0` itself, so more digits say too
/// much.
pub fn read_word(word: &[u8]) -> Option<u64>
    ensures value { IfSome result (SaysNumber 16 word.now) }
    ensures none { IfNone result ((n : ℕ) → SaysNumber 16 word.now n → 0 < length word.now → slice_index_or word.now 0 48 ≢ 48 → 2 ^ 64 ≤ n) }
{
    match word {
        [] | [b'0', _, ..] => None,
        _ => read_digits(word, 16),
    }
}

/// Puts the bytes that HEX says at the front of `into`, and answers how many they are; `-` says none. It is no HEX that
/// says more bytes than `into` has.
pub fn read_hex(word: &[u8], into: &mut [u8]) -> Option<usize>
    ensures { IfSome result (λ count. count ≤ length into.old) }
{
    if matches!(word, b"-") {
        return Some(0);
    }
    let count = word.len() / 2;
    if word.is_empty() || word.len() % 2 != 0 || into.len() < count {
        return None;
    }
    for (byte, pair) in into.iter_mut().zip(word.chunks_exact(2)) {
        *byte = hex_digit(pair[0])? * 16 + hex_digit(pair[1])?;
    }
    Some(count)
}

/// The bytes that HEX says, which it puts at the front of `into` as `read_hex` does.
pub fn read_bytes<'a>(word: &[u8], into: &'a mut [u8]) -> Option<&'a [u8]>
    ensures { IfSome result (λ bytes. length bytes.now ≤ length into.old) }
{
    let count = read_hex(word, into)?;
    Some(&into[..count])
}
