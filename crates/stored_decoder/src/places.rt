//! The places of a record for open masters and for waiting Ends, each as so many words.

ghost use Rattle.std.specs.Prelude.{cond, ◌≡◌, ℕ, List, ◌+◌, ◌*◌, ◌≤◌, length, take, drop};
ghost use mathlib.Core.List.{map, flat_map};
ghost use Rattle.basics.specs.Lists.{array_places, filled};
ghost use Rattle.spec_util.specs.Walk.{no_tag};
ghost use Rattle.decoder_rules.specs.Record.{no_end};
ghost use Rattle.stored_decoder.specs.Words.{present, places, master_words, end_words, master_of, end_of};
ghost use Rattle.stored_decoder.specs.Places.{six, three};
ghost use Rattle.stored_decoder.specs.Writing.{over};

use decoder_move::moves::no_end;
use decoder_rules::types::WaitingEnd;
use spec_util::types::{MOST_OPEN, OpenTag, no_tag};

/// What stands in one of the 32 places of a group of the record.
pub trait Place: Copy {
    ghost SIZE: { ℕ };

    ghost unused: { Self };

    ghost words_of: { Self → List ℕ };

    ghost place_of: { List ℕ → Self };

    /// So many words.
    const SIZE: usize;

    /// What stands in a place that is not in use.
    fn unused() -> Self
        ensures { result ≡ unused };

    /// Puts its words at this place.
    fn put(self, words: &mut [u64], at: usize)
        requires { at + SIZE ≤ length words.old }
        ensures { words.new ≡ over at (words_of self) words.old };

    /// What the words at this place hold.
    fn read(words: &[u64], at: usize) -> Self
        requires { at + SIZE ≤ length words.now }
        ensures { result ≡ place_of (take SIZE (drop at words.now)) };

    ghost each: { (place : Self) → length (words_of place) ≡ SIZE };
}

/// A value that is there or not: 0 where it is absent.
pub fn present(there: bool, n: u64) -> u64
    ensures { result ≡ present there n }
{
    if there { n } else { 0 }
}

impl Place for OpenTag {
    ghost SIZE = { 6 };

    ghost unused = { no_tag };

    ghost words_of = { master_words };

    ghost place_of = { master_of };

    ghost each = { six };

    const SIZE: usize = 6;

    fn unused() -> Self {
        no_tag()
    }

    fn put(self, words: &mut [u64], at: usize) {
        words[at..at + 6].copy_from_slice(&[
            self.id,
            u64::from(self.known),
            present(self.known, self.size),
            self.tag_start,
            self.data_start,
            self.count,
        ]);
    }

    fn read(words: &[u64], at: usize) -> Self {
        OpenTag {
            id: words[at],
            known: words[at + 1] != 0,
            size: words[at + 2],
            tag_start: words[at + 3],
            data_start: words[at + 4],
            count: words[at + 5],
        }
    }
}

impl Place for WaitingEnd {
    ghost SIZE = { 3 };

    ghost unused = { no_end };

    ghost words_of = { end_words };

    ghost place_of = { end_of };

    ghost each = { three };

    const SIZE: usize = 3;

    fn unused() -> Self {
        no_end()
    }

    fn put(self, words: &mut [u64], at: usize) {
        words[at..at + 3].copy_from_slice(&[self.id, self.offset, self.count]);
    }

    fn read(words: &[u64], at: usize) -> Self {
        WaitingEnd {
            id: words[at],
            offset: words[at + 1],
            count: words[at + 2],
        }
    }
}

// What stands in a place, where it is in use.
fn used<P: Place>(in_use: bool, place: P) -> P
    ensures { result ≡ cond in_use place P.unused }
{
    if in_use { place } else { P::unused() }
}

/// The words of the 32 places, of which the first `count` are in use, from the word `from` on.
pub fn put_places<P: Place>(words: &mut [u64], from: usize, places: &[P], count: usize)
    requires { (from + P.SIZE * array_places ≤ length words.old) × (length places.now ≡ array_places) }
    ensures { words.new ≡ over from (flat_map P.words_of (filled P.unused (take count places.now))) words.old }
{
    for i in 0..MOST_OPEN {
        used(i < count, places[i]).put(words, from + P::SIZE * i);
    }
}

/// The 32 places whose words stand from the word `from` on.
pub fn read_places<P: Place>(words: &[u64], from: usize, out: &mut [P])
    requires { (from + P.SIZE * array_places ≤ length words.now) × (length out.old ≡ array_places) }
    ensures { out.new ≡ map P.place_of (places P.SIZE array_places (drop from words.now)) }
{
    for i in 0..MOST_OPEN {
        out[i] = P::read(words, from + P::SIZE * i);
    }
}
