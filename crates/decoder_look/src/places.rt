//! The open masters against a place in the stream. No end is added up: a sum is compared as a difference, so that none
//! wraps.

ghost use Rattle.std.specs.Prelude.{◌≡◌, ◌≤◌};
ghost use Rattle.decoder_rules.specs.Record.{opens};
ghost use Rattle.decoder_rules.specs.OneCall.{is_full};
ghost use Rattle.decoder_rules.specs.EndOfInput.{is_cut};
ghost use Rattle.basics.specs.Lists.{first_index};
ghost use Rattle.spec_util.specs.Walk.{most_open};

use decoder_rules::types::TagDecoder;
use spec_util::types::OpenTag;

/// Whether a master of known size ends at the position or before.
pub fn is_full(position: u64, m: OpenTag) -> bool
    ensures { result ≡ is_full position m }
{
    m.known && m.data_start <= position && m.size <= position - m.data_start
}

// Whether the end of the input at the position cuts a master of known size.
#[tactic(auto, unfolding(decoder_rules::specs::EndOfInput::is_cut, decoder_rules::specs::OneCall::is_full))]
fn is_cut(position: u64, m: OpenTag) -> bool
    ensures { result ≡ is_cut position m }
{
    m.known && !is_full(position, m)
}

/// The index of the outermost master that the end of the input cuts; the count where there is none.
pub fn first_cut(d: TagDecoder) -> usize
    requires { d.open_count ≤ most_open }
    ensures { result ≡ first_index (is_cut d.position) (opens d) }
{
    let position = d.position;
    let n = d.open_count;
    d.open[..n]
        .iter()
        .position(|m| is_cut(position, *m))
        .unwrap_or(n)
}
