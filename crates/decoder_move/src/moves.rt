//! How the record moves: each routine gives the whole record as it is after one move, its empty places too.

ghost use Rattle.std.specs.Prelude.{true, cond, ◌≡◌, ◌+◌, ◌^◌, ◌≤◌, ◌<◌, ltb, length};
ghost use Rattle.basics.specs.Lists.{every};
ghost use Rattle.table.specs.Table.{parts_of, parts_in};
ghost use Rattle.decoder_rules.specs.OneCall.{good_open};
ghost use Rattle.decoder_rules.specs.Moving.{master_at};
ghost use Rattle.decoder_rules.specs.Record.{farthest, opens, no_end, end_for, fresh, with_notes, implied, settled_to, closed_to, handed_out, with_one_more, size_grown, with_sizes_grown};
ghost use Rattle.spec_util.specs.Walk.{most_open};

use decoder_rules::types::{FIRST_GREATEST_SIZE, Settings, TagDecoder, WaitingEnd};
use spec_util::types::{MOST_OPEN, OpenTag, no_tag, open_tag};
use table::parts::{path_length, path_part};
use table::types::{Path, PathPart};
use tag_parse::types::EBMLSize;

/// The last place of each of the record's two arrays.
pub const LAST_PLACE: usize = MOST_OPEN - 1;

/// What an empty place of the waiting Ends holds.
pub fn no_end() -> WaitingEnd
    ensures { result ≡ no_end }
{
    WaitingEnd {
        id: 0,
        offset: 0,
        count: 0,
    }
}

/// The End of a master.
#[tactic(auto, unfolding(decoder_rules::specs::Record::end_for))]
pub fn end_for(m: OpenTag) -> WaitingEnd
    ensures { result ≡ end_for m }
{
    WaitingEnd {
        id: m.id,
        offset: m.tag_start,
        count: m.count,
    }
}

/// A fresh decoder.
pub fn fresh() -> TagDecoder
    ensures { result ≡ fresh }
{
    let tag = no_tag();
    let end = no_end();
    let settings = Settings {
        allow_ids: false,
        allow_hierarchy: false,
        allow_oversized: false,
        strict: false,
        max_given: true,
        max_size: FIRST_GREATEST_SIZE,
    };
    TagDecoder {
        settings,
        position: 0,
        settled: false,
        finished: false,
        open: [tag; MOST_OPEN],
        open_count: 0,
        waiting: [end; MOST_OPEN],
        waiting_count: 0,
    }
}

/// The record, finished.
#[tactic(auto, unfolding(decoder_rules::specs::Record::with_notes))]
pub fn with_finished(mut d: TagDecoder) -> TagDecoder
    ensures { result ≡ with_notes d d.position d.settled true }
{
    d.finished = true;
    d
}

// The master that a part of a path names: its size is unknown, its offsets are 0.
fn implied(part: PathPart) -> OpenTag
    ensures { result ≡ implied part }
{
    match part {
        PathPart::Id(id) => open_tag(id, false, 0, 0, 0),
        PathPart::Global { .. } => no_tag(),
    }
}

/// The open masters become those of a path.
pub fn settled_to(mut d: TagDecoder, parts: &[u64], path: Path) -> TagDecoder
    requires { length (parts_in (parts_of parts.now) path) ≤ most_open }
    ensures { result ≡ settled_to d (parts_in (parts_of parts.now) path) }
{
    let count = path_length(parts, path);
    let tag = no_tag();
    d.settled = true;
    d.open = [tag; MOST_OPEN];
    d.open_count = count;
    for i in 0..count {
        d.open[i] = implied(path_part(parts, path, i));
    }
    d
}

/// The first waiting End is gone, and the others move up.
pub fn handed_out(mut d: TagDecoder) -> TagDecoder
    requires { 0 < d.waiting_count }
    ensures { result ≡ handed_out d }
{
    for i in 0..LAST_PLACE {
        d.waiting[i] = d.waiting[i + 1];
    }
    d.waiting[LAST_PLACE] = no_end();
    d.waiting_count -= 1;
    d
}

/// The masters above the first k close, from the top down: the first End is handed out by the caller, the others wait.
pub fn closed_to(mut d: TagDecoder, k: usize) -> TagDecoder
    requires { (k < d.open_count) × (d.open_count ≤ most_open) }
    ensures { result ≡ closed_to d k }
{
    let top = d.open_count - 1;
    let tag = no_tag();
    let end = no_end();
    d.open_count = k;
    d.waiting = [end; MOST_OPEN];
    d.waiting_count = top - k;
    let mut i: usize = MOST_OPEN;
    while k < i {
        i -= 1;
        if i < top {
            let m = d.open[i];
            d.waiting[top - i - 1] = end_for(m);
        }
        d.open[i] = tag;
    }
    d
}

/// A master with one child more, where so many are open that it is one of them.
#[tactic(auto, unfolding(decoder_rules::specs::Record::with_one_more))]
pub fn with_child(mut m: OpenTag, open_count: usize) -> OpenTag
    requires { 0 < open_count → m.count ≤ farthest }
    ensures { result ≡ cond (ltb 0 open_count) (with_one_more m) m }
{
    if 0 < open_count {
        m.count += 1;
    }
    m
}

// A master whose size, if it is known, is larger by n.
#[tactic(auto, unfolding(decoder_rules::specs::Record::size_grown))]
fn size_grown(mut m: OpenTag, n: u64) -> OpenTag
    requires { m.known ≡ true → m.size + n < 2 ^ 64 }
    ensures { result ≡ size_grown n m }
{
    if m.known {
        m.size += n;
    }
    m
}

/// Every open known size grows by the n bytes passed over.
pub fn with_sizes_grown(mut d: TagDecoder, n: u64) -> TagDecoder
    requires { (d.open_count ≤ most_open) × (n ≤ farthest) × (d.position ≤ farthest) × (every (good_open d.position) (opens d) ≡ true) }
    ensures { result ≡ with_sizes_grown d n }
{
    let count = d.open_count;
    for i in 0..count {
        d.open[i] = size_grown(d.open[i], n);
    }
    d
}

/// The open master of a header at this position.
pub fn master_at(id: u64, size: EBMLSize, position: u64, len: usize) -> OpenTag
    requires { (position ≤ farthest) × (len ≤ farthest) }
    ensures { result ≡ master_at id size position len }
{
    let data_start = position + len as u64;
    match size {
        EBMLSize::Unknown => open_tag(id, false, 0, position, data_start),
        EBMLSize::Known(n) => open_tag(id, true, n, position, data_start),
    }
}
