//! `allow_errors`, `set_strict`, `set_max_allowable_tag_size`, `position` and `is_finished` of a lent record.

ghost use Rattle.std.specs.Prelude.{◌≡◌};
ghost use Rattle.decoder_rules.specs.Settings.{allowing, reading, limited_to, is_finished};

use decoder_rules::types::TagDecoder;

/// From now on exactly these tests are switched off.
pub fn allow_errors(d: &mut TagDecoder, ids: bool, hierarchy: bool, oversized: bool)
    ensures { d.new ≡ allowing d.old ids hierarchy oversized }
{
    *d = tag_decoder::settings::allow_errors(*d, ids, hierarchy, oversized);
}

/// From now on reading is strict, or as ported.
pub fn set_strict(d: &mut TagDecoder, strict: bool)
    ensures { d.new ≡ reading d.old strict }
{
    *d = tag_decoder::settings::set_strict(*d, strict);
}

/// From now on a size is at most this one, or any where it is `None`.
pub fn set_max_allowable_tag_size(d: &mut TagDecoder, size: Option<u64>)
    ensures { d.new ≡ limited_to d.old size }
{
    *d = tag_decoder::settings::set_max_allowable_tag_size(*d, size);
}

/// The position: how many bytes were taken.
pub fn position(d: &TagDecoder) -> u64
    ensures { result ≡ d.now.position }
{
    tag_decoder::settings::position(*d)
}

/// Whether the decoder is finished, and every End was handed out.
pub fn is_finished(d: &TagDecoder) -> bool
    ensures { result ≡ is_finished d.now }
{
    tag_decoder::settings::is_finished(*d)
}
