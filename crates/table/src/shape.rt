//! The shape of a lent table (refusal 10).

ghost use Rattle.std.specs.Prelude.{◌≡◌, ◌+◌, ◌*◌, ◌/◌, ◌<◌, length, get_or};
ghost use Rattle.table.specs.Shape.{good_part, good_parts, good_entry, good_entries, good_shape};

// The most entries of a table.
const MOST_ENTRIES: usize = 64;

// The most parts of a path.
const MOST_PARTS: u64 = 16;

// The greatest word of a min or a max.
const MOST_BOUND: u64 = 65_536;

// Whether the three words of a part are good.
#[tactic(auto, unfolding(crate::specs::Shape::good_part))]
fn good_part(sort: u64, low: u64, high: u64) -> bool
    ensures { result ≡ good_part sort low high }
{
    if sort == 0 {
        high == 0
    } else {
        sort == 1 && low <= MOST_BOUND && high <= MOST_BOUND
    }
}

// Whether part i is good.
fn good_part_at(parts: &[u64], i: usize) -> bool
    requires { i < length parts.now / 3 }
    ensures { result ≡ good_part (get_or parts.now (3 * i) 0) (get_or parts.now (3 * i + 1) 0) (get_or parts.now (3 * i + 2) 0) }
{
    good_part(parts[3 * i], parts[3 * i + 1], parts[3 * i + 2])
}

// Whether each part is good.
#[tactic(auto, using(basics::proofs::Loops::every_end, crate::proofs::Words::word_lengths), unfolding(crate::specs::Shape::good_parts))]
fn good_parts(parts: &[u64]) -> bool
    ensures { result ≡ good_parts parts.now }
{
    for i in 0..parts.len() / 3 {
        if !good_part_at(parts, i) {
            return false;
        }
    }
    true
}

// Whether the words of an entry are good, where there are so many parts.
#[tactic(auto, unfolding(crate::specs::Shape::good_entry))]
fn good_entry(all: u64, kind: u64, first: u64, count: u64) -> bool
    ensures { result ≡ good_entry all kind first count }
{
    kind <= 5 && count <= MOST_PARTS && count <= all && first <= all - count
}

// Whether entry i is good.
fn good_entry_at(entries: &[u64], all: u64, i: usize) -> bool
    requires { i < length entries.now / 4 }
    ensures { result ≡ good_entry all (get_or entries.now (4 * i + 1) 0) (get_or entries.now (4 * i + 2) 0) (get_or entries.now (4 * i + 3) 0) }
{
    good_entry(
        all,
        entries[4 * i + 1],
        entries[4 * i + 2],
        entries[4 * i + 3],
    )
}

// Whether each entry is good.
#[tactic(auto, using(basics::proofs::Loops::every_end, crate::proofs::Words::word_lengths), unfolding(crate::specs::Shape::good_entries))]
fn good_entries(entries: &[u64], all: u64) -> bool
    ensures { result ≡ good_entries all entries.now }
{
    for i in 0..entries.len() / 4 {
        if !good_entry_at(entries, all, i) {
            return false;
        }
    }
    true
}

/// Whether a table's shape is good: whole entries and parts, at most 64 entries, and each part and each entry good.
#[tactic(auto, unfolding(crate::specs::Shape::good_shape))]
pub fn good_shape(entries: &[u64], parts: &[u64]) -> bool
    ensures { result ≡ good_shape entries.now parts.now }
{
    entries.len() % 4 == 0
        && parts.len() % 3 == 0
        && entries.len() / 4 <= MOST_ENTRIES
        && good_parts(parts)
        && good_entries(entries, (parts.len() / 3) as u64)
}
