//! One item of the list, read from its words.

ghost use Rattle.std.specs.Prelude.{◌≡◌, leb, ◌+◌, ◌*◌, ◌/◌, ◌≤◌, ◌<◌, length, get_or, take, drop};
ghost use Rattle.tag_writer.specs.Write.{greatest_size};
ghost use Rattle.tools.specs.Bytes.{be_number};
ghost use Rattle.tag_writer.specs.Document.{payload};
ghost use Rattle.tag_writer.specs.Items.{value_at};

use crate::types::GREATEST_SIZE;
use crate::widths::{integer_size, unsigned_size};
use tools::integer::unsigned_of;

/// How many items there are.
pub fn item_count(items: &[u64]) -> usize
    ensures { result ≡ length items.now / 4 }
{
    items.len() / 4
}

/// Word k of item at.
pub fn item_word(items: &[u64], at: usize, k: usize) -> u64
    requires { (at < length items.now / 4) × (k < 4) }
    ensures { result ≡ get_or items.now (4 * at + k) 0 }
{
    items[4 * at + k]
}

// The number of the eight bytes from a place on.
fn eight(values: &[u8], from: usize, upto: usize) -> u64
    requires { (from + 8 ≡ upto) × (upto ≤ length values.now) }
    ensures { result ≡ be_number (take 8 (drop from values.now)) }
{
    unsigned_of(&values[from..upto])
}

/// A word as a place.
pub fn index(word: u64) -> usize
    ensures { result ≡ word }
{
    word as usize
}

/// Whether a range lies in the values.
pub fn lies_in(values: &[u8], offset: u64, n: u64) -> bool
    ensures { result ≡ leb (offset + n) (length values.now) }
{
    let from = index(offset);
    from <= values.len() && index(n) <= values.len() - from
}

/// How many bytes the payload of a value takes; 0 where there is no value.
pub fn value_size(values: &[u8], kind: u64, offset: u64, n: u64) -> u64
    ensures { result ≡ length (payload (value_at values.now kind offset n)) }
{
    if !lies_in(values, offset, n) {
        return 0;
    }
    if kind == 3 {
        return n;
    }
    if kind == 4 {
        return n;
    }
    if n != 8 {
        return 0;
    }
    if kind == 5 {
        return 8;
    }
    let from = index(offset);
    if kind == 1 {
        return unsigned_size(eight(values, from, from + 8));
    }
    if kind == 2 {
        return integer_size(eight(values, from, from + 8));
    }
    0
}

/// Whether a size may be written.
pub fn small_enough(n: u64) -> bool
    ensures { result ≡ leb n greatest_size }
{
    n <= GREATEST_SIZE
}
