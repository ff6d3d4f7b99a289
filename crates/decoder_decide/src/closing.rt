//! Whether masters may close. Their IDs stand in lent words.

ghost use Rattle.std.specs.Prelude.{◌≡◌, ◌≤◌, length, take, drop};
ghost use Rattle.basics.specs.Lists.{every};
ghost use Rattle.table.specs.Table.{table_of, data_type_of, is_master};
ghost use Rattle.decoder_rules.specs.OneCall.{close_or_fault};
ghost use Rattle.decoder_look.specs.Summary.{ForEveryRecordWithIds};

use decoder_rules::types::{Action, DecodeError};
use table::lookup::{get_tag_data_type, is_master};

/// Whether, of the first n, those above the first k are Masters of the table.
pub fn all_masters(entries: &[u64], parts: &[u64], ids: &[u64], k: usize, n: usize) -> bool
    requires { n ≤ length ids.now }
    ensures { result ≡ every (λ x. is_master (data_type_of (table_of entries.now parts.now) x)) (drop k (take n ids.now)) }
{
    (k..n).all(|i| is_master(get_tag_data_type(entries, parts, ids[i])))
}

/// The masters above the first k close, or 24 if one is no Master of the table; n are open.
pub fn close_or_fault(
    entries: &[u64],
    parts: &[u64],
    ids: &[u64],
    k: usize,
    n: usize,
) -> Result<Action, DecodeError>
    requires { n ≤ length ids.now }
    ensures { ForEveryRecordWithIds ids.now n (λ d. result ≡ close_or_fault (table_of entries.now parts.now) d k) }
{
    if all_masters(entries, parts, ids, k, n) {
        Ok(Action::Close(k))
    } else {
        Err(DecodeError::NotAMaster)
    }
}
