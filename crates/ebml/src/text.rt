//! Text, for a gateway that shows or keeps what it reads.

ghost use Rattle.std.specs.Prelude.{◌≡◌};
ghost use Rattle.utf8.specs.Rfc3629.{is_text};
ghost use Rattle.ebml.specs.Numbers.{yes_no};

use utf8::is_utf8;

/// 1 where the bytes are a text by RFC 3629, else 0.
pub fn ebml_is_utf8(s: &[u8]) -> u64
    ensures { result ≡ yes_no (is_text s.now) }
{
    u64::from(is_utf8(s))
}
