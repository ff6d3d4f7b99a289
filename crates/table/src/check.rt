//! The table check: the lowest faulty entry and its first broken rule.

ghost use Rattle.std.specs.Prelude.{◌≡◌, [], ◌/◌, ◌≤◌, ◌<◌, length, take};
ghost use Rattle.table.specs.Table.{parts_of, parts_in, table_of};
ghost use Rattle.table.specs.Check.{rule_number, checked_number, allowed_id, listed, only_ids, master_of_ids, master_or_global, all_masters, own_paths, judged, check_table};

use crate::entry::{first_with, spec_at};
use crate::lookup::{get_path_by_id, get_tag_data_type, is_master};
use crate::parts::{path_length, path_part, same_path};
use crate::shape::good_shape;
use crate::types::{Path, PathPart, Rule, Spec, TableError, TagDataType};
use tools::element_id::is_element_id;

/// The rule's number in the interface.
pub fn rule_number(rule: Rule) -> u64
    ensures { result ≡ rule_number rule }
{
    match rule {
        Rule::NoElementId => 31,
        Rule::Repeated => 32,
        Rule::GlobalInMaster => 33,
        Rule::NoMaster => 34,
        Rule::OtherPath => 35,
    }
}

/// The answer's number in the interface: 0 for a table that passed.
pub fn checked_number(checked: Result<(), TableError>) -> u64
    ensures { result ≡ checked_number checked }
{
    match checked {
        Err(TableError::BadShape) => 10,
        Ok(()) => 0,
        Err(TableError::Fault { rule, .. }) => rule_number(rule),
    }
}

// Rule 31.
#[tactic(auto, unfolding(crate::specs::Check::allowed_id))]
fn allowed_id(id: u64) -> bool
    ensures { result ≡ allowed_id id }
{
    is_element_id(id)
}

// Rule 32: whether one of the first n entries has this ID.
#[tactic(auto, using(crate::proofs::Entries::listed_first))]
fn listed_before(entries: &[u64], parts: &[u64], id: u64, n: usize) -> bool
    requires { n ≤ length entries.now / 4 }
    ensures { result ≡ listed id (take n (table_of entries.now parts.now)) }
{
    first_with(entries, id, n) < n
}

/// Whether a path has no Global.
#[tactic(auto, using(basics::proofs::Loops::every_fails, basics::proofs::Loops::every_next, basics::proofs::Loops::every_end), unfolding(crate::specs::Check::only_ids))]
pub fn only_ids(parts: &[u64], path: Path) -> bool
    ensures { result ≡ only_ids (parts_in (parts_of parts.now) path) }
{
    for i in 0..path_length(parts, path) {
        if let PathPart::Global { .. } = path_part(parts, path, i) {
            return false;
        }
    }
    true
}

// Rule 34 of one part: a Global is no ID, and passes.
#[tactic(auto, unfolding(crate::specs::Check::master_or_global))]
fn master_or_global(entries: &[u64], parts: &[u64], part: PathPart) -> bool
    ensures { result ≡ master_or_global (table_of entries.now parts.now) part }
{
    match part {
        PathPart::Id(id) => is_master(get_tag_data_type(entries, parts, id)),
        PathPart::Global { .. } => true,
    }
}

// Rule 34: whether each ID of a path is a Master.
#[tactic(auto, using(basics::proofs::Loops::every_fails, basics::proofs::Loops::every_next, basics::proofs::Loops::every_end), unfolding(crate::specs::Check::all_masters))]
fn all_masters(entries: &[u64], parts: &[u64], path: Path) -> bool
    ensures { result ≡ all_masters (table_of entries.now parts.now) (parts_in (parts_of parts.now) path) }
{
    for i in 0..path_length(parts, path) {
        if !master_or_global(entries, parts, path_part(parts, path, i)) {
            return false;
        }
    }
    true
}

// Rule 35, up to the first Global.
#[tactic(auto, using(crate::proofs::Judging::own_fails, crate::proofs::Judging::own_next, crate::proofs::Judging::own_global, crate::proofs::Judging::own_end, crate::proofs::Ranges::within_front, crate::proofs::Entries::path_of_lem))]
fn own_paths(entries: &[u64], parts: &[u64], path: Path) -> bool
    ensures { result ≡ own_paths (table_of entries.now parts.now) [] (parts_in (parts_of parts.now) path) }
{
    for i in 0..path_length(parts, path) {
        match path_part(parts, path, i) {
            PathPart::Id(id) => {
                let before = Path { count: i, ..path };
                if !same_path(parts, get_path_by_id(entries, parts, id), before) {
                    return false;
                }
            }
            PathPart::Global { .. } => return true,
        }
    }
    true
}

// Rule 33.
#[tactic(auto, unfolding(crate::specs::Check::master_of_ids))]
fn master_of_ids(parts: &[u64], kind: TagDataType, path: Path) -> bool
    ensures { result ≡ master_of_ids kind (parts_in (parts_of parts.now) path) }
{
    !is_master(kind) || only_ids(parts, path)
}

// Entry i, by the rules in their order.
#[tactic(auto, using(crate::proofs::Judging::kept_31, crate::proofs::Judging::kept_32, crate::proofs::Judging::kept_33, crate::proofs::Judging::kept_34, crate::proofs::Judging::kept_35), unfolding(crate::specs::Check::first_broken))]
fn first_broken(entries: &[u64], parts: &[u64], i: usize) -> Result<(), Rule>
    requires { i < length entries.now / 4 }
    ensures { result ≡ judged (table_of entries.now parts.now) i }
{
    let id = entries[4 * i];
    let Spec { kind, path } = spec_at(entries, parts, i);
    if !allowed_id(id) {
        return Err(Rule::NoElementId);
    }
    if listed_before(entries, parts, id, i) {
        return Err(Rule::Repeated);
    }
    if !master_of_ids(parts, kind, path) {
        return Err(Rule::GlobalInMaster);
    }
    if !all_masters(entries, parts, path) {
        return Err(Rule::NoMaster);
    }
    if !own_paths(entries, parts, path) {
        return Err(Rule::OtherPath);
    }
    Ok(())
}

/// Whether a table passes; else its lowest faulty entry, with the first rule that it breaks.
pub fn check_table(entries: &[u64], parts: &[u64]) -> Result<(), TableError>
    ensures { result ≡ check_table entries.now parts.now }
{
    if !good_shape(entries, parts) {
        return Err(TableError::BadShape);
    }
    for i in 0..entries.len() / 4 {
        first_broken(entries, parts, i).map_err(|rule| TableError::Fault { rule, entry: i })?;
    }
    Ok(())
}
