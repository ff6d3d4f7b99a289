//! The table check, for a gateway that checks its table once at start.

ghost use Rattle.std.specs.Prelude.{◌≡◌};
ghost use Rattle.table.specs.Check.{check_table};
ghost use Rattle.ebml.specs.Checks.{checked_out};

/// 0 for a table that passed, else its lowest fault or its bad shape.
#[unsafe(no_mangle)]
pub extern "C" fn ebml_check_table(entries: &[u64], parts: &[u64]) -> u64
    ensures { result ≡ checked_out (check_table entries.now parts.now) }
{
    ebml::checks::ebml_check_table(entries, parts)
}
