//! Refusal 42: "unmatched Start or End".

ghost use Rattle.std.specs.Prelude.{◌≡◌, List, [], ℕ, ◌/◌, ◌≤◌, length};
ghost use Rattle.tag_writer.specs.Items.{marks_of, matched};
ghost use Rattle.tag_writer.specs.Write.{most_items};

use crate::items::{item_count, item_word};
use crate::types::MOST_ITEMS;

/// Whether each End closes the last Start still open and names its ID, and none is open at the end.
pub fn is_matched(items: &[u64]) -> bool
    requires { length items.now / 4 ≤ most_items }
    ensures { (vals : List ℕ) → result ≡ matched [] (marks_of vals items.now) }
{
    let count = item_count(items);
    let mut open = [0u64; MOST_ITEMS];
    let mut depth: usize = 0;
    for i in 0..count {
        let kind = item_word(items, i, 0);
        let id = item_word(items, i, 1);
        if kind == 0 {
            open[depth] = id;
            depth += 1;
            continue;
        }
        if kind != 6 {
            continue;
        }
        if depth == 0 {
            return false;
        }
        depth -= 1;
        if open[depth] != id {
            return false;
        }
    }
    depth == 0
}
