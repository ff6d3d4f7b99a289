//! Refusal 43 but for the sizes of masters: "wrong place, kind or value".

ghost use Rattle.std.specs.Prelude.{true, ◌&&◌, ◌||◌, ◌≡◌, [], map, ◌/◌, ◌≤◌, leb, eqb, length, take};
ghost use Rattle.table.specs.Table.{table_of, parts_of, parts_in, same_part, same_path};
ghost use Rattle.table.specs.declared.types.PathPart.TheVariants.{Id};
ghost use Rattle.tag_writer.specs.Document.{payload};
ghost use Rattle.tag_writer.specs.Flat.{asked, all_asked};
ghost use Rattle.tag_writer.specs.Items.{value_at, mark_of, marks_of, matched};
ghost use Rattle.tag_writer.specs.Write.{reads_back, anywhere, goes_in, type_word, is_of_kind, greatest_size, most_items};

use crate::items::{index, item_count, item_word, lies_in, small_enough};
use crate::types::MOST_ITEMS;
use crate::widths::byte_width;
use table::lookup::{get_path_by_id, get_tag_data_type, is_master};
use table::parts::{path_length, path_part};
use table::types::{Path, PathPart, TagDataType};
use tag_parse::header::read_tag_id;
use tools::status::Status;
use utf8::is_utf8;

// Whether the bytes of an ID read back as it.
fn reads_back(id: u64) -> bool
    ensures { result ≡ reads_back id }
{
    let width = byte_width(id, 1, 0);
    let bytes = id.to_be_bytes();
    match read_tag_id(&bytes[8 - width..]) {
        Status::NeedMore { .. } => false,
        Status::Complete((x, n)) => x == id && n == width,
    }
}

// Whether a path is a single Global without bounds.
fn is_anywhere(parts: &[u64], path: Path) -> bool
    ensures { result ≡ anywhere (parts_in (parts_of parts.now) path) }
{
    if path_length(parts, path) != 1 {
        return false;
    }
    match path_part(parts, path, 0) {
        PathPart::Id(_) => false,
        PathPart::Global { min, max } => min.is_none() && max.is_none(),
    }
}

// Whether a part is this ID. With `matches!` and a guard the answer is not proved: its last arm does not say why.
fn is_id(part: PathPart, id: u64) -> bool
    ensures { result ≡ same_part part (Id id) }
{
    match part {
        PathPart::Id(x) => x == id,
        PathPart::Global { .. } => false,
    }
}

// Whether a path is these IDs.
fn is_stack(parts: &[u64], path: Path, ids: &[u64], depth: usize) -> bool
    requires { depth ≤ length ids.now }
    ensures { result ≡ same_path (parts_in (parts_of parts.now) path) (map Id (take depth ids.now)) }
{
    if path_length(parts, path) != depth {
        return false;
    }
    for i in 0..depth {
        if !is_id(path_part(parts, path, i), ids[i]) {
            return false;
        }
    }
    true
}

// Whether an element goes in the open masters of these IDs, outermost first.
fn goes_in(entries: &[u64], parts: &[u64], ids: &[u64], depth: usize, id: u64) -> bool
    requires { depth ≤ length ids.now }
    ensures { result ≡ goes_in (table_of entries.now parts.now) (take depth ids.now) id }
{
    let path = get_path_by_id(entries, parts, id);
    is_anywhere(parts, path) || is_stack(parts, path, ids, depth)
}

// The number of a type in the table; 6 where there is none.
fn type_word(kind: TagDataType) -> u64
    ensures { result ≡ type_word kind }
{
    match kind {
        TagDataType::Untyped => 6,
        TagDataType::Master => 0,
        TagDataType::UnsignedInt => 1,
        TagDataType::Integer => 2,
        TagDataType::Utf8 => 3,
        TagDataType::Binary => 4,
        TagDataType::Float => 5,
    }
}

// Whether a value of this type is a number of 8 bytes.
fn is_number(kind: u64) -> bool
    ensures { result ≡ (eqb kind 1 || (eqb kind 2 || eqb kind 5)) }
{
    matches!(kind, 1 | 2 | 5)
}

// Whether a value is of the kind that the table gives its ID, and small enough; text is UTF-8.
// One test after the other and no `&&`: a text is cut from the values only where its range is known to lie in them.
#[tactic(auto, using(crate::proofs::AskLaws::answers_of_value))]
fn good_value(want: TagDataType, values: &[u8], kind: u64, offset: u64, n: u64) -> bool
    ensures { result ≡ (is_of_kind want (value_at values.now kind offset n) && leb (length (payload (value_at values.now kind offset n))) greatest_size) }
{
    if !lies_in(values, offset, n) {
        return false;
    }
    if type_word(want) != kind {
        return false;
    }
    if kind == 3 {
        let from = index(offset);
        if !is_utf8(&values[from..from + index(n)]) {
            return false;
        }
        return small_enough(n);
    }
    if kind == 4 {
        return small_enough(n);
    }
    if n != 8 {
        return false;
    }
    is_number(kind)
}

// Whether one item is as refusal 43 asks, in the open masters of these IDs; a master's size is asked apart.
// One test after the other and no `&&`: an End is asked nothing, and the kind chooses the last test.
fn asked_item(
    entries: &[u64],
    parts: &[u64],
    values: &[u8],
    kind: u64,
    id: u64,
    offset: u64,
    n: u64,
    ids: &[u64],
    depth: usize,
) -> bool
    requires { depth ≤ length ids.now }
    ensures { result ≡ asked (table_of entries.now parts.now) (take depth ids.now) (mark_of values.now kind id offset n) }
{
    if kind == 6 {
        return true;
    }
    if !reads_back(id) {
        return false;
    }
    if !goes_in(entries, parts, ids, depth, id) {
        return false;
    }
    let want = get_tag_data_type(entries, parts, id);
    if kind == 0 {
        return is_master(want);
    }
    good_value(want, values, kind, offset, n)
}

/// Whether each item is as refusal 43 asks, in the masters that are open there.
pub fn all_asked(entries: &[u64], parts: &[u64], items: &[u64], values: &[u8]) -> bool
    requires { (length items.now / 4 ≤ most_items) × (matched [] (marks_of values.now items.now) ≡ true) }
    ensures { result ≡ all_asked (table_of entries.now parts.now) [] (marks_of values.now items.now) }
{
    let count = item_count(items);
    let mut open = [0u64; MOST_ITEMS];
    let mut depth: usize = 0;
    for i in 0..count {
        let kind = item_word(items, i, 0);
        let id = item_word(items, i, 1);
        let offset = item_word(items, i, 2);
        let n = item_word(items, i, 3);
        if !asked_item(entries, parts, values, kind, id, offset, n, &open, depth) {
            return false;
        }
        if kind == 0 {
            open[depth] = id;
            depth += 1;
            continue;
        }
        if kind != 6 {
            continue;
        }
        depth -= 1;
    }
    true
}
