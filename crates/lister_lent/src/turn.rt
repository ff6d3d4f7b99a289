//! One turn: the record is kept in a local, lent to a call by `&mut`, and then by `&` to the question where it stands.

ghost use Rattle.std.specs.Prelude.{◌≡◌};
ghost use Rattle.decoder_rules.specs.Moving.{decode};
ghost use Rattle.decoder_rules.specs.EndOfInput.{decode_eof};
ghost use Rattle.lister_lent.specs.Turn.{turn_of};

use decoder_rules::types::TagDecoder;
use tag_decoder_lent::calls::{decode, decode_eof};
use tag_decoder_lent::settings::position;
use tag_decoder_lent::types::Reply;

/// What a turn gives: the call's reply, the position after it, and the record that it left.
#[derive(Clone, Copy)]
pub struct Turned {
    pub reply: Reply,
    pub place: u64,
    pub state: TagDecoder,
}

/// A call of `decode` on a record, and its position after it.
pub fn turn(mut d: TagDecoder, entries: &[u64], parts: &[u64], input: &[u8]) -> Turned
    ensures { result ≡ turn_of (decode entries.now parts.now d input.now) }
{
    let reply = decode(&mut d, entries, parts, input);
    Turned {
        reply,
        place: position(&d),
        state: d,
    }
}

/// The same once the input has ended.
pub fn turn_eof(mut d: TagDecoder, entries: &[u64], parts: &[u64], input: &[u8]) -> Turned
    ensures { result ≡ turn_of (decode_eof entries.now parts.now d input.now) }
{
    let reply = decode_eof(&mut d, entries, parts, input);
    Turned {
        reply,
        place: position(&d),
        state: d,
    }
}
