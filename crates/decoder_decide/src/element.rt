//! Step 11: a Start, or a payload.

ghost use Rattle.std.specs.Prelude.{true, ◌≡◌, ◌≤◌, ◌<◌};
ghost use Rattle.decoder_rules.specs.OneCall.{data_or, read_element, element_of, step11};
ghost use Rattle.decoder_decide.specs.Bounds.{longest_header, SmallSize, FitsKind};
ghost use Rattle.tag_parse.specs.Payload.{is_integer};
ghost use Rattle.decoder_rules.specs.Record.{farthest, size_limit};

use decoder_rules::types::{Action, DecodeError};
use spec_util::types::MOST_OPEN;
use table::lookup::is_master;
use tag_parse::payload::value_of;
use tag_parse::types::{EBMLSize, ParseError, Range, TagHeader, TagValue};

// The Data, or what reading the payload refuses.
fn data_or(id: u64, taken: usize, read: Result<TagValue, ParseError>) -> Result<Action, DecodeError>
    ensures { result ≡ data_or id taken read }
{
    Ok(Action::Data {
        id,
        value: read?,
        taken,
    })
}

// An element with n bytes of payload after its header.
fn read_element(
    strict: bool,
    position: u64,
    h: TagHeader,
    n: u64,
    input: &[u8],
) -> Result<Action, DecodeError>
    requires { (position ≤ farthest) × (h.len ≤ longest_header) × (n < size_limit) × (is_integer h.kind ≡ true → n ≤ 8) }
    ensures { result ≡ read_element strict position h n input.now }
{
    let len = h.len;
    let kind = h.kind;
    let total = len + n as usize;
    if input.len() < total {
        return Ok(Action::NeedMore {
            missing: total - input.len(),
        });
    }
    let range = Range {
        begin: position + len as u64,
        end: position + total as u64,
    };
    data_or(
        h.id,
        total,
        value_of(strict, kind, &input[len..total], range),
    )
}

// An element that is no Master, with this size in its header.
fn element_of(
    strict: bool,
    position: u64,
    h: TagHeader,
    size: EBMLSize,
    input: &[u8],
) -> Result<Action, DecodeError>
    requires { (position ≤ farthest) × (h.len ≤ longest_header) × SmallSize size × FitsKind h.kind size }
    ensures { result ≡ element_of strict position h size input.now }
{
    match size {
        EBMLSize::Unknown => Err(DecodeError::InvalidTagData),
        EBMLSize::Known(n) => read_element(strict, position, h, n, input),
    }
}

/// Step 11 with so many masters open: a Start, or an element that is none.
pub fn step11(
    strict: bool,
    open_count: usize,
    position: u64,
    h: TagHeader,
    input: &[u8],
) -> Result<Action, DecodeError>
    requires { (position ≤ farthest) × (h.len ≤ longest_header) × SmallSize h.size × FitsKind h.kind h.size }
    ensures { result ≡ step11 strict open_count position h input.now }
{
    let kind = h.kind;
    let size = h.size;
    if is_master(kind) {
        if MOST_OPEN <= open_count {
            return Err(DecodeError::TooManyOpen);
        }
        return Ok(Action::Start {
            id: h.id,
            size,
            len: h.len,
        });
    }
    element_of(strict, position, h, size, input)
}
