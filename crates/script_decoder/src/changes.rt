//! What a call or a field of `set` changes of the record. Where its text is wrong, it changes nothing.

ghost use Rattle.std.specs.Prelude.{◌≡◌, OnErr};

use crate::items::{read_end, read_list, read_open, set_counts};
use decoder_move::moves::no_end;
use decoder_rules::types::TagDecoder;
use script_text::answers::BadLine;
use script_text::reading::read_decimal;
use spec_util::types::{MOST_OPEN, no_tag};
use std::mem;
use tag_decoder::settings::{allow_errors, set_max_allowable_tag_size, set_strict};

// `1` or `0`.
fn read_flag(text: &[u8]) -> Option<bool> {
    match text {
        b"1" => Some(true),
        b"0" => Some(false),
        _ => None,
    }
}

/// Switches off exactly these tests: a sum of 1, 2 and 4.
pub fn allow(text: &[u8], decoder: &mut TagDecoder) -> Result<(), BadLine>
    ensures { OnErr result (decoder.new ≡ decoder.old) }
{
    let sum = read_decimal(text).ok_or(BadLine)?;
    if 7 < sum {
        return Err(BadLine);
    }
    *decoder = allow_errors(*decoder, sum & 1 != 0, sum & 2 != 0, sum & 4 != 0);
    Ok(())
}

/// Sets the greatest size, `-` for none.
pub fn limit(text: &[u8], decoder: &mut TagDecoder) -> Result<(), BadLine>
    ensures { OnErr result (decoder.new ≡ decoder.old) }
{
    let greatest = match text {
        b"-" => None,
        digits => Some(read_decimal(digits).ok_or(BadLine)?),
    };
    *decoder = set_max_allowable_tag_size(*decoder, greatest);
    Ok(())
}

/// Reads strictly from here on, `1`, or as ported, `0`.
pub fn read_strictly(text: &[u8], decoder: &mut TagDecoder) -> Result<(), BadLine>
    ensures { OnErr result (decoder.new ≡ decoder.old) }
{
    *decoder = set_strict(*decoder, read_flag(text).ok_or(BadLine)?);
    Ok(())
}

// The field of this key, as `st` prints it.
fn set_field(key: u8, value: &[u8], decoder: &mut TagDecoder) -> Result<(), BadLine> {
    match key {
        b'a' => allow(value, decoder)?,
        b'm' => limit(value, decoder)?,
        b'p' => decoder.position = read_decimal(value).ok_or(BadLine)?,
        b's' => decoder.settled = read_flag(value).ok_or(BadLine)?,
        b'f' => decoder.finished = read_flag(value).ok_or(BadLine)?,
        b'O' => {
            decoder.open = [no_tag(); MOST_OPEN];
            decoder.open_count = read_list(value, &mut decoder.open, read_open)?;
        }
        b'W' => {
            decoder.waiting = [no_end(); MOST_OPEN];
            decoder.waiting_count = read_list(value, &mut decoder.waiting, read_end)?;
        }
        b'C' => {
            let held = decoder.open_count;
            set_counts(
                value,
                held,
                &mut decoder.open,
                |master, count| master.count = count,
            )?;
        }
        b'V' => {
            let held = decoder.waiting_count;
            set_counts(
                value,
                held,
                &mut decoder.waiting,
                |end, count| end.count = count,
            )?;
        }
        b'x' => read_strictly(value, decoder)?,
        _ => return Err(BadLine),
    }
    Ok(())
}

/// `set`: fields `k=v` in any order, none twice; none is set where one is wrong.
pub fn set_fields(words: &[u8], decoder: &mut TagDecoder) -> Result<(), BadLine>
    ensures { OnErr result (decoder.new ≡ decoder.old) }
{
    let mut changed = *decoder;
    let mut seen = [false; 256];
    for field in words.split(|&byte| byte == b' ') {
        let [key, b'=', value @ ..] = field else {
            return Err(BadLine);
        };
        if mem::replace(&mut seen[usize::from(*key)], true) {
            return Err(BadLine);
        }
        set_field(*key, value, &mut changed)?;
    }
    *decoder = changed;
    Ok(())
}
