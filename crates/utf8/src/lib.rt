//! The check in place of `String::from_utf8`: whether some bytes are a text in UTF-8, RFC 3629. One pass, no table; what
//! a text is stands in specs/.
#![tactic(auto)]

ghost use Rattle.std.specs.Prelude.{◌≡◌, true, cond, ℕ, ◌+◌, ◌≤◌, ◌<◌, length, get_or, drop, ltb, bit_or};
ghost use Rattle.std.specs.List.{list_all, fold};
ghost use Rattle.utf8.specs.Rfc3629.{is_text, char_length, fits, tail, within};
ghost use Rattle.utf8.specs.Helpers.{following, Passed};

// Whether a run of octets is ASCII: none has the high bit. There is no branch in the fold, so 16 octets go at a time.
fn all_ascii(run: &[u8]) -> bool
    ensures { result ≡ ltb (fold bit_or 0 run.now) 0x80 }
{
    run.iter().fold(0, |all, &octet| all | octet) < 0x80
}

// Past the ASCII octets from i on, n at a time, as far as that goes. A `while`, since the place where it ends is answered.
#[tactic(auto, using(crate::proofs::Text::passed_more, crate::proofs::Text::passed_run))]
fn past_runs(s: &[u8], i: usize, n: usize) -> usize
    requires { (i ≤ length s.now) × (0 < n) }
    ensures { Passed s.now i result }
{
    let mut at = i;
    while n <= s.len() - at && all_ascii(&s[at..at + n]) {
        at += n;
    }
    at
}

// Past the ASCII octets from i on: 64 at a time, then 8, then one.
#[tactic(auto, using(crate::proofs::Text::passed_more))]
fn past_ascii(s: &[u8], i: usize) -> usize
    requires { i ≤ length s.now }
    ensures { Passed s.now i result }
{
    past_runs(s, past_runs(s, past_runs(s, i, 64), 8), 1)
}

// Whether every octet is one of RFC 3629's UTF8-tail.
fn are_tails(s: &[u8]) -> bool
    ensures { result ≡ list_all (within tail) s.now }
{
    s.iter().all(|&octet| matches!(octet, 0x80..=0xBF))
}

// Whether n octets stand in front that follow a first one: the next from low to high, the others of UTF8-tail.
#[tactic(auto, using(crate::proofs::Fits::too_short, crate::proofs::Fits::next_below, crate::proofs::Fits::next_above, crate::proofs::Fits::next_inside))]
fn follow(rest: &[u8], n: usize, low: u8, high: u8) -> bool
    requires { 0 < n }
    ensures { result ≡ fits (following n (low, high)) rest.now }
{
    n <= rest.len() && (low..=high).contains(&rest[0]) && are_tails(&rest[1..n])
}

// The length of a character whose first octet, at i, has n octets after it, the next one from low to high; 0 where they
// do not follow.
fn followed(s: &[u8], i: usize, n: usize, low: u8, high: u8) -> usize
    requires { (i < length s.now) × (0 < n) × (n ≤ 3) }
    ensures { result ≡ cond (fits (following n (low, high)) (drop (i + 1) s.now)) (n + 1) 0 }
{
    if follow(&s[i + 1..], n, low, high) {
        n + 1
    } else {
        0
    }
}

// The length of the character at i, 0 where none stands there: RFC 3629's table, row by row and gap by gap. As a `match`
// on ranges it takes 29 instructions a character of three octets, not 24, and twice the time at two octets.
#[tactic(auto, using(crate::proofs::Table::characters))]
fn char_length(s: &[u8], i: usize) -> usize
    requires { i < length s.now }
    ensures { result ≡ char_length (drop i s.now) }
{
    let first = s[i];
    if first < 0x80 {
        return 1;
    }
    if first < 0xC2 {
        return 0;
    }
    if first < 0xE0 {
        return followed(s, i, 1, 0x80, 0xBF);
    }
    if first == 0xE0 {
        return followed(s, i, 2, 0xA0, 0xBF);
    }
    if first < 0xED {
        return followed(s, i, 2, 0x80, 0xBF);
    }
    if first == 0xED {
        return followed(s, i, 2, 0x80, 0x9F);
    }
    if first < 0xF0 {
        return followed(s, i, 2, 0x80, 0xBF);
    }
    if first == 0xF0 {
        return followed(s, i, 3, 0x90, 0xBF);
    }
    if first < 0xF4 {
        return followed(s, i, 3, 0x80, 0xBF);
    }
    if first == 0xF4 {
        return followed(s, i, 3, 0x80, 0x8F);
    }
    0
}

/// Whether `s` is a text in UTF-8: RFC 3629, section 4. An empty one is.
#[tactic(auto, using(crate::proofs::Text::passed_more, crate::proofs::Text::passed_char, crate::proofs::Text::stop, crate::proofs::Table::ascii_char))]
pub fn is_utf8(s: &[u8]) -> bool
    ensures { result ≡ is_text s.now }
{
    let mut i = 0;
    // Characters differ in length, so no `for` goes from one to the next.
    while i < s.len() {
        if s[i] < 0x80 {
            i = past_ascii(s, i + 1);
        } else {
            let n = char_length(s, i);
            if n == 0 {
                return false;
            }
            i += n;
        }
    }
    true
}
