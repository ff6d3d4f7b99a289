//! Words in layout 1.

ghost use Rattle.std.specs.Prelude.{◌≡◌, ◌+◌, ◌*◌, ◌≤◌, length, take, drop};
ghost use Rattle.stored_decoder.specs.Words.{word_count};
ghost use Rattle.stored_decoder.specs.Check.{all_zero};
ghost use Rattle.stored_decoder.specs.Block.{with_counts, from_layout1};
ghost use Rattle.stored_decoder.specs.Writing.{over};

use crate::words::put_rest;
use spec_util::types::MOST_OPEN;

/// So many words of a block in layout 1 are in use.
pub const IN_USE: usize = 235;

// So many words copied to another place.
fn copy(out: &mut [u64], to: usize, words: &[u64], from: usize, n: usize)
    requires { (to + n ≤ length out.old) × (from + n ≤ length words.now) }
    ensures { out.new ≡ over to (take n (drop from words.now)) out.old }
{
    out[to..to + n].copy_from_slice(&words[from..from + n]);
}

// The words of 32 places, each with a 0 for the count that it lacks.
fn copy_places(out: &mut [u64], to: usize, words: &[u64], from: usize, size: usize)
    requires { (to + (size + 1) * 32 ≤ length out.old) × (from + size * 32 ≤ length words.now) × (size ≤ 5) × (length out.old ≡ word_count) × (length words.now ≡ word_count) }
    ensures { out.new ≡ over to (with_counts size (drop from words.now)) out.old }
{
    for i in 0..MOST_OPEN {
        copy(out, to + (size + 1) * i, words, from + size * i, size);
        out[to + (size + 1) * i + size] = 0;
    }
}

/// The words in use as layout 2.
pub fn from_layout_1(words: &[u64], out: &mut [u64])
    requires { (length words.now ≡ word_count) × (length out.old ≡ word_count) }
    ensures { out.new ≡ from_layout1 words.now }
{
    out[0] = 2;
    copy(out, 1, words, 1, 3);
    out[4] = 0;
    copy(out, 5, words, 4, 6);
    copy_places(out, 11, words, 10, 5);
    copy(out, 203, words, 170, 1);
    copy_places(out, 204, words, 171, 2);
    put_rest(out);
}

/// Whether each word holds 0, as those that layout 1 does not use must.
pub fn all_zero(words: &[u64]) -> bool
    ensures { result ≡ all_zero words.now }
{
    words.iter().all(|&word| word == 0)
}
