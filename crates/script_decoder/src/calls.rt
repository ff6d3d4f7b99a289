//! A line of a script that names a call on the decoder: which names do, and what the line answers.

ghost use Rattle.std.specs.Prelude.{◌≡◌, IfSome, OnErr};

use crate::changes::{allow, limit, read_strictly, set_fields};
use decoder_rules::types::TagDecoder;
use script_answers::answers::{DecodedText, RecoveredText};
use script_answers::record::RecordText;
use script_blocks::restoring::answer_restore;
use script_blocks::storing::answer_store;
use script_table::lending::TableWords;
use script_text::answers::{BadLine, Line};
use script_text::reading::{MOST_BYTES, read_bytes};
use tag_decoder::calls::{decode, decode_eof};
use tag_decoder::recovery::try_recover;
use tag_decoder::settings::new;

/// A call on the decoder.
#[derive(Clone, Copy, Debug, PartialEq, Eq)]
pub enum Call {
    /// A fresh decoder.
    New,
    /// The record as text.
    Show,
    /// Exactly these tests are switched off.
    Allow,
    /// The greatest size.
    Max,
    /// Strict reading or not.
    Strict,
    /// Fields of the record.
    Set,
    /// The record into a block.
    Store,
    /// The record from a block.
    Restore,
    /// A call on the unread bytes, `decode`, `eof` or `recover`.
    Read(Reading),
}

/// A call on the unread bytes.
#[derive(Clone, Copy, Debug, PartialEq, Eq)]
pub enum Reading {
    Decode,
    EndOfInput,
    Recover,
}

impl Call {
    ghost use Rattle.script_decoder.specs.Name.{name_of};

    /// The call of this name, where it is one on the decoder.
    pub fn named(name: &[u8]) -> Option<Call>
        ensures { IfSome result (λ call. name.now ≡ name_of call) }
    {
        match name {
            b"new" => Some(Call::New),
            b"st" => Some(Call::Show),
            b"allow" => Some(Call::Allow),
            b"max" => Some(Call::Max),
            b"strict" => Some(Call::Strict),
            b"set" => Some(Call::Set),
            b"store" => Some(Call::Store),
            b"restore" => Some(Call::Restore),
            b"decode" => Some(Call::Read(Reading::Decode)),
            b"eof" => Some(Call::Read(Reading::EndOfInput)),
            b"recover" => Some(Call::Read(Reading::Recover)),
            _ => None,
        }
    }
}

// A call on the unread bytes, which are given in HEX.
fn answer_reading(
    reading: Reading,
    hex: &[u8],
    table: TableWords<'_>,
    decoder: &mut TagDecoder,
    out: &mut Line,
) -> Result<(), BadLine>
    ensures { OnErr result (decoder.new ≡ decoder.old) }
{
    let mut bytes = [0u8; MOST_BYTES];
    let unread = read_bytes(hex, &mut bytes).ok_or(BadLine)?;
    match reading {
        Reading::Decode => {
            let decoded = decode(table.entries, table.parts, *decoder, unread);
            *decoder = decoded.state;
            write!(out, "{}", DecodedText(&decoded));
        }
        Reading::EndOfInput => {
            let decoded = decode_eof(table.entries, table.parts, *decoder, unread);
            *decoder = decoded.state;
            write!(out, "{}", DecodedText(&decoded));
        }
        Reading::Recover => {
            let recovered = try_recover(table.entries, table.parts, *decoder, unread);
            *decoder = recovered.state;
            write!(out, "{}", RecoveredText(&recovered));
        }
    }
    Ok(())
}

/// Answers a call with the words after its name, if there are any; `decoder` is the decoder after it. Where that is no
/// call, the decoder stays.
pub fn answer(
    call: Call,
    words: Option<&[u8]>,
    table: TableWords<'_>,
    decoder: &mut TagDecoder,
    out: &mut Line,
) -> Result<(), BadLine>
    ensures { OnErr result (decoder.new ≡ decoder.old) }
{
    match (call, words) {
        (Call::New, None) => *decoder = new(),
        (Call::Allow, Some(sum)) => allow(sum, decoder)?,
        (Call::Max, Some(size)) => limit(size, decoder)?,
        (Call::Strict, Some(flag)) => read_strictly(flag, decoder)?,
        (Call::Set, Some(fields)) => set_fields(fields, decoder)?,
        (Call::Show, None) => {
            write!(out, "{}", RecordText(decoder));
            return Ok(());
        }
        (Call::Store, Some(length)) => return answer_store(length, decoder, out),
        (Call::Restore, Some(block)) => return answer_restore(block, decoder, out),
        (Call::Read(reading), Some(hex)) => return answer_reading(
            reading, hex, table, decoder, out,
        ),
        _ => return Err(BadLine),
    }
    out.put(b"ok");
    Ok(())
}
