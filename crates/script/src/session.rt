//! What a line of a script answers, and what it leaves for the lines after it.

ghost use Rattle.std.specs.Prelude.{ℕ, List, ◌≡◌, [], OnErr};
ghost use Rattle.decoder_rules.specs.Record.{fresh};
ghost use Rattle.script_table.specs.HeldIn.{HeldIn, ShapeTold};

use decoder_rules::types::TagDecoder;
use script_decoder::calls::Call;
use script_table::lending::LentTable;
use script_text::answers::{BadLine, Line};
use script_text::words::split_once;
use tag_decoder::settings::new;

/// The lent table, whose words stand in those that the caller lends, and the decoder.
#[derive(Clone, Copy)]
pub struct Session {
    pub table: LentTable,
    pub decoder: TagDecoder,
}

impl Session {
    /// Before the first line: the empty table, and a new decoder.
    pub fn new() -> Session
        ensures table { (result.table.entries ≡ 0) × (result.table.parts ≡ 0) }
        ensures good { (entries : List ℕ) → (parts : List ℕ) → ShapeTold result.table entries parts }
        ensures decoder { result.decoder ≡ fresh }
    {
        Session {
            table: LentTable::new(),
            decoder: new(),
        }
    }

    // The answer to a line that is neither empty nor a comment, added to `out`.
    fn call(
        &mut self,
        line: &[u8],
        entries: &mut [u64],
        parts: &mut [u64],
        out: &mut Line,
    ) -> Result<(), BadLine>
        ensures held { HeldIn self.old.table entries.old parts.old → HeldIn self.new.table entries.new parts.new }
        ensures good { ShapeTold self.old.table entries.old parts.old → ShapeTold self.new.table entries.new parts.new }
        ensures session { OnErr result (self.new ≡ self.old) }
        ensures entries { OnErr result (entries.new ≡ entries.old) }
        ensures parts { OnErr result (parts.new ≡ parts.old) }
    {
        let (name, words) = match split_once(line, b' ') {
            Some((name, words)) => (name, Some(words)),
            None => (line, None),
        };
        let table = self.table;
        if script_table::calls::is_call(name) {
            script_table::calls::answer(line, &mut self.table, entries, parts, out)
        } else if script_writer::calls::is_call(name) {
            script_writer::calls::answer(line, table.words(entries, parts), out)
        } else if let Some(call) = Call::named(name) {
            let table = table.words(entries, parts);
            script_decoder::calls::answer(call, words, table, &mut self.decoder, out)
        } else {
            script_numbers::answer(line, out)
        }
    }

    /// Puts the answer to one line into `out`, in place of what is there: `BADLINE` where the line is no call, nothing
    /// where it is empty or a comment. The words of the lent table stand in `entries` and `parts`; what finds no room
    /// there is left out.
    pub fn answer(&mut self, line: &[u8], entries: &mut [u64], parts: &mut [u64], out: &mut Line)
        ensures held { HeldIn self.old.table entries.old parts.old → HeldIn self.new.table entries.new parts.new }
        ensures good { ShapeTold self.old.table entries.old parts.old → ShapeTold self.new.table entries.new parts.new }
        ensures empty { line.now ≡ [] → (out.new ≡ []) × (self.new ≡ self.old) × (entries.new ≡ entries.old) × (parts.new ≡ parts.old) }
    {
        out.clear();
        if matches!(line, [] | [b'#', ..]) {
            return;
        }
        if self.call(line, entries, parts, out).is_err() {
            out.clear();
            write!(out, "{BadLine}");
        }
    }
}

impl Default for Session {
    ghost is_default = { λ session. (session.table.entries ≡ 0) × (session.table.parts ≡ 0) × (session.decoder ≡ fresh) × ((entries : List ℕ) → (parts : List ℕ) → ShapeTold session.table entries parts) };

    fn default() -> Session {
        Session::new()
    }
}

#[cfg(test)]
mod tests {
    use super::*;

    // The lent words are no table: none of them is a word of the table by default.
    #[test]
    fn default_is_the_empty_table_and_a_new_decoder(rt: HostRuntime) {
        let mut session = Session::default();
        let mut out = Line::new();
        let record = b"st a=0 m=4000000000 p=0 s=0 f=0 O=- W=- C=- V=- x=0";
        let answers = [
            (b"check".as_slice(), b"ok".as_slice()),
            (b"ended 81 82".as_slice(), b"1".as_slice()),
            (b"st".as_slice(), record.as_slice()),
        ];
        for (line, want) in answers {
            session.answer(line, &mut [2; 4], &mut [2; 3], &mut out);
            assert_eq!(rt; out.as_slice(), want);
        }
    }
}
