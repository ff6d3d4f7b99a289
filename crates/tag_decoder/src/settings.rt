//! `new`, `allow_errors`, `set_max_allowable_tag_size`, `position` and `is_finished`; `set_strict`, which the Rust has
//! not.

ghost use Rattle.std.specs.Prelude.{◌≡◌};
ghost use Rattle.decoder_rules.specs.Record.{fresh};
ghost use Rattle.decoder_rules.specs.Settings.{allowing, reading, limited_to, is_finished};

use decoder_rules::types::TagDecoder;

/// A fresh decoder: nothing is allowed, and a size is at most 4,000,000,000.
pub fn new() -> TagDecoder
    ensures { result ≡ fresh }
{
    decoder_move::moves::fresh()
}

/// Exactly these tests are switched off.
#[tactic(auto, unfolding(decoder_rules::specs::Record::with_settings))]
pub fn allow_errors(mut d: TagDecoder, ids: bool, hierarchy: bool, oversized: bool) -> TagDecoder
    ensures { result ≡ allowing d ids hierarchy oversized }
{
    d.settings.allow_ids = ids;
    d.settings.allow_hierarchy = hierarchy;
    d.settings.allow_oversized = oversized;
    d
}

/// From now on reading is strict, or as ported.
#[tactic(auto, unfolding(decoder_rules::specs::Record::with_settings))]
pub fn set_strict(mut d: TagDecoder, strict: bool) -> TagDecoder
    ensures { result ≡ reading d strict }
{
    d.settings.strict = strict;
    d
}

/// The greatest size, or none.
pub fn set_max_allowable_tag_size(mut d: TagDecoder, size: Option<u64>) -> TagDecoder
    ensures { result ≡ limited_to d size }
{
    d.settings.max_given = size.is_some();
    d.settings.max_size = size.unwrap_or(0);
    d
}

/// The position: how many bytes were taken.
pub fn position(d: TagDecoder) -> u64
    ensures { result ≡ d.position }
{
    d.position
}

/// Finished, and every End handed out.
pub fn is_finished(d: TagDecoder) -> bool
    ensures { result ≡ is_finished d }
{
    d.finished && d.waiting_count == 0
}
