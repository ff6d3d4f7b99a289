//! ITEMS: a list of Starts, Ends and values, as `S:4E01,U:A2:0:8,E:4E01`, `-` for none. They become the four words of
//! each item: its kind, its ID, and of a value where its bytes begin and how many there are.

ghost use Rattle.std.specs.Prelude.{◌≤◌, length, IfSome};

use script_text::reading::{read_decimal, read_word};
use script_text::words::split_once;

/// The words of one item more than the writer takes: more items than these are too many as well.
pub const MOST_WORDS: usize = 2052;

// The writer's C form takes kinds as words, and so a kind is a number here too.

/// The kind of a Start.
const START: u64 = 0;

/// The kind of an End.
const END: u64 = 6;

/// The kind that a letter says: `S` a Start, `E` an End, and a value by the letter of its event.
fn kind_of(letter: &[u8]) -> Option<u64> {
    match letter {
        b"S" => Some(START),
        b"U" => Some(1),
        b"I" => Some(2),
        b"T" => Some(3),
        b"B" => Some(4),
        b"D" => Some(5),
        b"E" => Some(END),
        _ => None,
    }
}

/// A value, by its ID, its offset and its length.
fn read_value(kind: u64, words: &[u8]) -> Option<[u64; 4]> {
    let (id, place) = split_once(words, b':')?;
    let (offset, count) = split_once(place, b':')?;
    Some([
        kind,
        read_word(id)?,
        read_decimal(offset)?,
        read_decimal(count)?,
    ])
}

fn read_item(item: &[u8]) -> Option<[u64; 4]> {
    let (letter, words) = split_once(item, b':')?;
    match kind_of(letter)? {
        kind @ (START | END) => Some([kind, read_word(words)?, 0, 0]),
        kind => read_value(kind, words),
    }
}

/// Puts the words of the items that a text says at the front of `into`, and answers how many they are; what finds no
/// room is left out.
pub fn read_items(list: &[u8], into: &mut [u64]) -> Option<usize>
    ensures { IfSome result (λ count. count ≤ length into.old) }
{
    let mut count = 0;
    if matches!(list, b"-") {
        return Some(count);
    }
    for item in list.split(|&byte| byte == b',') {
        let words = read_item(item)?;
        let room = words.len().min(into.len() - count);
        into[count..count + room].copy_from_slice(&words[..room]);
        count += room;
    }
    Some(count)
}
