//! The table check, for a gateway that checks its table once at start.

ghost use Rattle.std.specs.Prelude.{◌≡◌};
ghost use Rattle.table.specs.Check.{check_table};
ghost use Rattle.ebml.specs.Checks.{checked_out};

use table::check::{check_table, rule_number};
use table::types::TableError;

/// 0 for a table that passed, else its lowest fault or its bad shape.
pub fn ebml_check_table(entries: &[u64], parts: &[u64]) -> u64
    ensures { result ≡ checked_out (check_table entries.now parts.now) }
{
    match check_table(entries, parts) {
        Ok(()) => 0,
        Err(TableError::BadShape) => 266,
        Err(TableError::Fault { rule, entry }) => 65536 * (entry as u64)
            + (256 + rule_number(rule)),
    }
}
