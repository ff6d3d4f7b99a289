//! The items of the lists that `set` takes: `ID:SIZE:START:DATA` of an open master, `ID:OFFSET` of a waiting End.

use decoder_rules::types::WaitingEnd;
use script_text::answers::BadLine;
use script_text::reading::{read_decimal, read_word};
use script_text::words::split_once;
use spec_util::types::{MOST_OPEN, OpenTag, open_tag};

// One item more than there are places only says so.
const MOST_ITEMS: usize = MOST_OPEN + 1;

/// The open master that an item writes, its size `u` where it is Unknown.
pub fn read_open(item: &[u8]) -> Option<OpenTag> {
    let (id, rest) = split_once(item, b':')?;
    let (size, starts) = split_once(rest, b':')?;
    let (tag_start, data_start) = split_once(starts, b':')?;
    let (is_known, size) = match size {
        b"u" => (false, 0),
        digits => (true, read_decimal(digits)?),
    };
    Some(open_tag(
        read_word(id)?,
        is_known,
        size,
        read_decimal(tag_start)?,
        read_decimal(data_start)?,
    ))
}

/// The waiting End that an item writes.
pub fn read_end(item: &[u8]) -> Option<WaitingEnd> {
    let (id, offset) = split_once(item, b':')?;
    Some(WaitingEnd {
        id: read_word(id)?,
        offset: read_decimal(offset)?,
        count: 0,
    })
}

/// Puts the items of a list into the first places, and answers how many they are; `-` has none. An item that has no
/// place is read all the same.
pub fn read_list<T: Copy, F: Fn(&[u8]) -> Option<T>>(
    list: &[u8],
    places: &mut [T],
    read_item: F,
) -> Result<usize, BadLine>
    requires { F.IsAlwaysCallable read_item }
{
    if matches!(list, b"-") {
        return Ok(0);
    }
    let count = list.split(|&byte| byte == b',').count();
    if MOST_ITEMS < count {
        return Err(BadLine);
    }
    for (i, item) in list.split(|&byte| byte == b',').enumerate() {
        let item = read_item(item).ok_or(BadLine)?;
        if let Some(place) = places.get_mut(i) {
            *place = item;
        }
    }
    Ok(count)
}

/// Sets the counts of children of the items that are held, exactly as many; `-` has none. An item that has no place has
/// no count to set.
pub fn set_counts<T, F: Fn(&mut T, u64)>(
    list: &[u8],
    held: usize,
    places: &mut [T],
    set_count: F,
) -> Result<(), BadLine>
    requires { F.IsAlwaysCallable set_count }
{
    let mut counts = [0; MOST_OPEN];
    if read_list(list, &mut counts, read_decimal)? != held {
        return Err(BadLine);
    }
    for (item, count) in places.iter_mut().zip(counts.iter()).take(held) {
        set_count(item, *count);
    }
    Ok(())
}
