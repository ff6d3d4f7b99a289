//! `decode`, `decode_eof` and `try_recover` on a lent record.

ghost use Rattle.decoder_rules.specs.Moving.{decode};
ghost use Rattle.decoder_rules.specs.EndOfInput.{decode_eof};
ghost use Rattle.decoder_rules.specs.Recovery.{try_recover};
ghost use Rattle.tag_decoder_lent.specs.Lent.{ReturnsAndLeaves, apart, recovery_apart};

use crate::types::{RecoveryReply, Reply};
use decoder_rules::types::{Decoded, Recovered, TagDecoder};

/// One call: the next event, or need more, finished, or a refusal. The record lent moves as the answer's record has it.
pub fn decode(d: &mut TagDecoder, entries: &[u64], parts: &[u64], input: &[u8]) -> Reply
    ensures { ReturnsAndLeaves result d.new (apart (decode entries.now parts.now d.old input.now)) }
{
    let Decoded {
        answer,
        taken,
        state: next,
    } = tag_decoder::calls::decode(entries, parts, *d, input);
    *d = next;
    Reply { answer, taken }
}

/// The same once the input has ended for good.
pub fn decode_eof(d: &mut TagDecoder, entries: &[u64], parts: &[u64], input: &[u8]) -> Reply
    ensures { ReturnsAndLeaves result d.new (apart (decode_eof entries.now parts.now d.old input.now)) }
{
    let Decoded {
        answer,
        taken,
        state: last,
    } = tag_decoder::calls::decode_eof(entries, parts, *d, input);
    *d = last;
    Reply { answer, taken }
}

/// The search for the next valid header.
pub fn try_recover(
    d: &mut TagDecoder,
    entries: &[u64],
    parts: &[u64],
    input: &[u8],
) -> RecoveryReply
    ensures { ReturnsAndLeaves result d.new (recovery_apart (try_recover entries.now parts.now d.old input.now)) }
{
    let Recovered {
        answer,
        taken,
        state: after,
    } = tag_decoder::recovery::try_recover(entries, parts, *d, input);
    *d = after;
    RecoveryReply { answer, taken }
}
