//! The input has ended for good, and a call had no event: what is left is cut, or all close.

ghost use Rattle.std.specs.Prelude.{◌≡◌, ◌+◌, ◌≤◌, length};
ghost use Rattle.table.specs.Table.{table_of};
ghost use Rattle.decoder_rules.specs.EndOfInput.{finish, close_all, end_of_input};
ghost use Rattle.spec_util.specs.Walk.{most_open};
ghost use Rattle.decoder_rules.specs.Record.{farthest};

use crate::cut::{cut_bytes, cut_master};
use decoder_decide::whole::all_masters_of;
use decoder_look::places::first_cut;
use decoder_move::answers::{close, refuse, taking_none};
use decoder_move::moves::with_finished;
use decoder_rules::types::{Answer, DecodeError, Decoded, TagDecoder};

// All close, and the first End is handed out.
fn finish(d: TagDecoder) -> Decoded
    requires { d.open_count ≤ most_open }
    ensures { result ≡ finish d }
{
    let count = d.open_count;
    let done = with_finished(d);
    if count == 0 {
        return taking_none(Ok(Answer::Finished), done);
    }
    close(done, 0)
}

// All close, unless one is no Master in the table.
fn close_all(entries: &[u64], parts: &[u64], d: TagDecoder) -> Decoded
    requires { d.open_count ≤ most_open }
    ensures { result ≡ close_all (table_of entries.now parts.now) d }
{
    if all_masters_of(entries, parts, d) {
        return finish(d);
    }
    refuse(DecodeError::NotAMaster, d.position, d)
}

/// What the end of input answers.
pub fn end_of_input(entries: &[u64], parts: &[u64], d: TagDecoder, input: &[u8]) -> Decoded
    requires { (d.open_count ≤ most_open) × (d.position + length input.now ≤ farthest) }
    ensures { result ≡ end_of_input (table_of entries.now parts.now) d input.now }
{
    let position = d.position;
    if 0 < input.len() {
        return refuse(
            DecodeError::UnexpectedEOF(cut_bytes(position, input)),
            position,
            d,
        );
    }
    let k = first_cut(d);
    if k < d.open_count {
        let m = d.open[k];
        return refuse(DecodeError::UnexpectedEOF(cut_master(m)), m.tag_start, d);
    }
    close_all(entries, parts, d)
}
