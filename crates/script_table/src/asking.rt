//! What is asked of a lent table: `check`, `ended` and `path`, and strictly `sended` and `spath`.

use crate::lending::{BAD_SHAPE, TableWords};
use crate::stack::{Stack, read_stack};
use script_text::answers::Line;
use script_text::reading::read_word;
use script_text::words::split_once;
use spec_util::ended::is_ended_in;
use spec_util::place::validate_tag_path;
use table::check::{check_table, rule_number};
use table::types::TableError;

/// A question; strictly or as ported.
#[derive(Drop)]
pub enum Question {
    /// Whether the table keeps the rules.
    Check,
    /// Whether an ID ends a master.
    Ended { strict: bool, master: u64, id: u64 },
    /// Whether an ID may stand in open masters.
    Path { strict: bool, id: u64, stack: Stack },
}

fn read_ended(strict: bool, master: &[u8], id: &[u8]) -> Option<Question> {
    Some(Question::Ended {
        strict,
        master: read_word(master)?,
        id: read_word(id)?,
    })
}

fn read_path(strict: bool, id: &[u8], stack: &[u8]) -> Option<Question> {
    Some(Question::Path {
        strict,
        id: read_word(id)?,
        stack: read_stack(stack)?,
    })
}

/// The question that a line says.
pub fn read_question(line: &[u8]) -> Option<Question> {
    if matches!(line, b"check") {
        return Some(Question::Check);
    }
    let (name, words) = split_once(line, b' ')?;
    let (first, second) = split_once(words, b' ')?;
    match name {
        b"ended" => read_ended(false, first, second),
        b"sended" => read_ended(true, first, second),
        b"path" => read_path(false, first, second),
        b"spath" => read_path(true, first, second),
        _ => None,
    }
}

fn put_checked(checked: Result<(), TableError>, out: &mut Line) {
    match checked {
        Err(TableError::BadShape) => write!(out, "X {BAD_SHAPE}"),
        Ok(()) => out.put(b"ok"),
        Err(TableError::Fault { rule, entry }) => write!(out, "X {} {entry}", rule_number(rule)),
    }
}

/// What a question answers; of a table of bad shape only `check` can be asked.
pub fn answer_question(question: Question, table: TableWords<'_>, out: &mut Line) {
    let TableWords {
        entries,
        parts,
        is_good,
    } = table;
    match question {
        Question::Check => put_checked(check_table(entries, parts), out),
        _ if !is_good => write!(out, "X {BAD_SHAPE}"),
        Question::Ended { strict, master, id } => {
            let is_ended = is_ended_in(strict, entries, parts, master, id);
            write!(out, "{}", u8::from(is_ended));
        }
        Question::Path { strict, id, stack } => {
            let Stack { ids, knowns } = stack;
            let is_valid = validate_tag_path(strict, entries, parts, id, &ids, &knowns, ids.len());
            write!(out, "{}", u8::from(is_valid));
        }
    }
}
