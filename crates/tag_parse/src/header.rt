//! The front of an element, RFC 8794, section 3: `read_tag_id` and `read_header` of tag_parse.rs.

ghost use Rattle.std.specs.Prelude.{◌≡◌, ◌≤◌};
ghost use Rattle.table.specs.Table.{table_of};
ghost use Rattle.tag_parse.specs.Header.{id_length, read_tag_id, numeric, too_long, size_of, sized_by, read_header};

use crate::types::{EBMLSize, ParseError, TagHeader};
use table::lookup::look_up;
use table::types::{Spec, TagDataType};
use tools::integer::unsigned_of;
use tools::page::length_on_page;
use tools::status::Status;
use tools::vint::read_vint;

// The length that an ID's first byte announces.
fn id_length(first: u8) -> usize
    ensures { result ≡ id_length first }
{
    if first == 0 { 1 } else { length_on_page(first) }
}

/// The ID at the front of the bytes, its marker kept, and its length; or how many bytes it lacks at least.
#[tactic(auto, using(crate::proofs::Cases::id_none, crate::proofs::Cases::id_short, crate::proofs::Cases::id_whole, crate::proofs::Cases::id_width_lem))]
pub fn read_tag_id(input: &[u8]) -> Status<(u64, usize)>
    ensures { result ≡ read_tag_id input.now }
{
    if input.is_empty() {
        return Status::NeedMore { missing: 1 };
    }
    let length = id_length(input[0]);
    if input.len() < length {
        return Status::NeedMore {
            missing: length - input.len(),
        };
    }
    Status::Complete((unsigned_of(&input[..length]), length))
}

// Whether payloads of a type are numbers.
fn is_numeric(kind: TagDataType) -> bool
    ensures { result ≡ numeric kind }
{
    matches!(
        kind,
        TagDataType::UnsignedInt | TagDataType::Integer | TagDataType::Float
    )
}

// Whether a size is over what a number's payload can have.
#[tactic(auto, using(crate::proofs::Cases::not_long, crate::proofs::Cases::long_by_kind))]
fn is_too_long(kind: TagDataType, size: u64) -> bool
    ensures { result ≡ too_long kind size }
{
    8 < size && is_numeric(kind)
}

/// `EBMLSize::new`: the all-ones value of a length says that the size is unknown, RFC 8794, section 6.2.
pub fn size_of(size: u64, length: usize) -> EBMLSize
    ensures { result ≡ size_of size length }
{
    // ten bytes and more have data bits that no 64-bit number fills
    if length <= 9 && size == (1u64 << (7 * length)) - 1 {
        EBMLSize::Unknown
    } else {
        EBMLSize::Known(size)
    }
}

// The header of an ID and a size vint, each with its length.
#[tactic(auto, unfolding(crate::specs::Header::sized_by))]
fn with_size(
    id: u64,
    spec: Spec,
    id_len: usize,
    size: u64,
    size_len: usize,
) -> Result<Status<TagHeader>, ParseError>
    requires { (id_len ≤ 8) × (size_len ≤ 8) }
    ensures { result ≡ sized_by id spec id_len size size_len }
{
    let Spec { kind, path } = spec;
    if is_too_long(kind, size) {
        return Err(ParseError::InvalidTagData);
    }
    Ok(Status::Complete(TagHeader {
        id,
        kind,
        path,
        size: size_of(size, size_len),
        len: id_len + size_len,
    }))
}

/// The header at the front of the bytes: the ID, what the table says of it, and the size; or how many bytes it lacks at
/// least. A size that is no vint is refused, and a number of over 8 bytes.
pub fn read_header(
    entries: &[u64],
    parts: &[u64],
    input: &[u8],
) -> Result<Status<TagHeader>, ParseError>
    ensures { result ≡ read_header (table_of entries.now parts.now) input.now }
{
    match read_tag_id(input) {
        // the size has a byte at least
        Status::NeedMore { missing } => Ok(Status::NeedMore {
            missing: missing + 1,
        }),
        Status::Complete((id, id_len)) => match read_vint(&input[id_len..]) {
            Ok(Status::NeedMore { missing }) => Ok(Status::NeedMore { missing }),
            Err(_) => Err(ParseError::InvalidTagData),
            Ok(Status::Complete((value, length))) => {
                with_size(id, look_up(entries, parts, id), id_len, value, length)
            }
        },
    }
}
