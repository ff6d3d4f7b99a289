//! What refusal 23 says of bytes that are left, and of an open master: `unexpected_eof` of the Rust.

ghost use Rattle.std.specs.Prelude.{◌≡◌, ◌+◌, ◌≤◌, length};
ghost use Rattle.decoder_rules.specs.EndOfInput.{cut_at, cut_sized, cut_size, cut_bytes, cut_master};
ghost use Rattle.decoder_rules.specs.Record.{farthest};

use decoder_rules::types::Cut;
use spec_util::types::OpenTag;
use tag_parse::header::{read_tag_id, size_of};
use tag_parse::types::{EBMLSize, Range};
use tools::status::Status;
use tools::vint::read_vint;

// What 23 names where n bytes are left at the position, and the bytes from len on are the element's.
fn cut_at(position: u64, n: usize, id: Option<u64>, size: Option<u64>, len: usize) -> Cut
    requires { (position + n ≤ farthest) × (len ≤ n) }
    ensures { result ≡ cut_at position n id size len }
{
    let part = Some(Range {
        begin: position + len as u64,
        end: position + n as u64,
    });
    Cut {
        start: position,
        id,
        size,
        part,
    }
}

// The same where the header of len bytes is complete.
fn cut_sized(position: u64, n: usize, id: u64, len: usize, size: EBMLSize) -> Cut
    requires { (position + n ≤ farthest) × (len ≤ n) }
    ensures { result ≡ cut_sized position n id len size }
{
    match size {
        EBMLSize::Unknown => cut_at(position, n, Some(id), None, 0),
        EBMLSize::Known(m) => cut_at(position, n, Some(id), Some(m), len),
    }
}

/// What 23 names for the bytes that are left at the position.
pub fn cut_bytes(position: u64, input: &[u8]) -> Cut
    requires { position + length input.now ≤ farthest }
    ensures { result ≡ cut_bytes position input.now }
{
    let n = input.len();
    let Status::Complete((id, id_len)) = read_tag_id(input) else {
        return cut_at(position, n, None, None, 0);
    };
    // Two arms with one body: of an or-pattern the proof learns nothing.
    match read_vint(&input[id_len..]) {
        Ok(Status::Complete((value, length))) => cut_sized(
            position,
            n,
            id,
            id_len + length,
            size_of(value, length),
        ),
        Ok(Status::NeedMore { .. }) => cut_at(position, n, Some(id), None, 0),
        Err(_) => cut_at(position, n, Some(id), None, 0),
    }
}

/// What 23 names for an open master that is cut.
pub fn cut_master(m: OpenTag) -> Cut
    ensures { result ≡ cut_master m }
{
    Cut {
        start: m.tag_start,
        id: Some(m.id),
        size: Some(m.size),
        part: None,
    }
}
