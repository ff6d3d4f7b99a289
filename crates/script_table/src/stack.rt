//! STACK: a list of at most 32 open masters from the outermost, as `4E01:u,A1:k`, `u` for Unknown and `k` for a known
//! size.

use arrayvec::ArrayVec;
use script_text::reading::read_word;
use script_text::words::split_once;
use spec_util::types::MOST_OPEN;

/// The open masters from the outermost: their IDs, and whether their sizes are known.
#[derive(Drop)]
pub struct Stack {
    pub ids: ArrayVec<u64, MOST_OPEN>,
    pub knowns: ArrayVec<bool, MOST_OPEN>,
}

/// The ID of a master, and whether its size is known.
fn read_master(item: &[u8]) -> Option<(u64, bool)> {
    let (id, size) = split_once(item, b':')?;
    let is_known = match size {
        b"k" => true,
        b"u" => false,
        _ => return None,
    };
    Some((read_word(id)?, is_known))
}

/// The STACK that a text says; `-` says that none is open.
pub fn read_stack(list: &[u8]) -> Option<Stack> {
    let mut stack = Stack {
        ids: ArrayVec::new(),
        knowns: ArrayVec::new(),
    };
    if matches!(list, b"-") {
        return Some(stack);
    }
    for item in list.split(|&byte| byte == b',') {
        let (id, is_known) = read_master(item)?;
        stack.ids.try_push(id).ok()?;
        stack.knowns.try_push(is_known).ok()?;
    }
    Some(stack)
}
