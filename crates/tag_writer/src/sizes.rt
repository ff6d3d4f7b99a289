//! "The size of a master is the sum of its children's sizes, and a child may be a master again": the size of one element
//! and the size of a run of children call each other; the items left fall. Each master's size is computed once, and kept
//! in a lent list at the place of its Start.

ghost use Rattle.std.specs.Prelude.{true, ◌≡◌, ◌++◌, ◌/◌, ◌≤◌, length, drop};
ghost use Rattle.tag_writer.specs.Document.{Element, Run};
ghost use Rattle.tag_writer.specs.Items.{marks_of, element_marks, run_marks};
ghost use Rattle.tag_writer.specs.Sizing.{Sizable, RunAt, ElementAt, RunSized, ElementSized, SizesIn, KeptBelow, stops};

use crate::items::{item_count, item_word, small_enough, value_size};
use crate::types::Sized;
use crate::widths::header_size;

// The size of the element whose first item is at; the sizes of the masters in it are kept.
#[cycle(size_of_element_size_of_run)]
fn size_of_element(items: &[u64], values: &[u8], at: usize, sizes: &mut [u64]) -> Sized
    requires { Sizable (marks_of values.now items.now) × ElementAt (marks_of values.now items.now) at
        × (length items.now / 4 ≤ length sizes.old) }
    ensures { ((e : Element) (tail : _) → drop at (marks_of values.now items.now) ≡ element_marks e ++ tail
        → ElementSized (marks_of values.now items.now) at result e)
        × SizesIn (marks_of values.now items.now) at result.next sizes.new
        × KeptBelow at sizes.old sizes.new }
{
    let kind = item_word(items, at, 0);
    let id = item_word(items, at, 1);
    if kind == 0 {
        let inside = size_of_run(items, values, at + 1, sizes);
        let size = inside.size;
        sizes[at] = size;
        return Sized {
            size: header_size(id, size) + size,
            next: inside.next + 1,
            fits: small_enough(size) && inside.fits,
        };
    }
    let n = value_size(
        values,
        kind,
        item_word(items, at, 2),
        item_word(items, at, 3),
    );
    Sized {
        size: header_size(id, n) + n,
        next: at + 1,
        fits: true,
    }
}

/// The size of the elements from item at on, up to the End of the master that they are in or the end of the list; the
/// sizes of the masters in them are kept.
#[cycle(size_of_element_size_of_run)]
pub fn size_of_run(items: &[u64], values: &[u8], at: usize, sizes: &mut [u64]) -> Sized
    requires { Sizable (marks_of values.now items.now) × RunAt (marks_of values.now items.now) at
        × (length items.now / 4 ≤ length sizes.old) }
    ensures { ((run : Run) (tail : _) → stops tail ≡ true → drop at (marks_of values.now items.now) ≡ run_marks run ++ tail
        → RunSized (marks_of values.now items.now) at result run)
        × SizesIn (marks_of values.now items.now) at result.next sizes.new
        × KeptBelow at sizes.old sizes.new }
{
    if item_count(items) <= at {
        return Sized {
            size: 0,
            next: at,
            fits: true,
        };
    }
    if item_word(items, at, 0) == 6 {
        return Sized {
            size: 0,
            next: at,
            fits: true,
        };
    }
    let first = size_of_element(items, values, at, sizes);
    let others = size_of_run(items, values, first.next, sizes);
    Sized {
        size: first.size + others.size,
        next: others.next,
        fits: first.fits && others.fits,
    }
}
