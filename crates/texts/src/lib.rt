//! Text, put at a place of lent bytes. As in `numerals`, the answer is the place after what was put.
#![tactic(auto)]

ghost use Rattle.std.specs.Prelude.{◌+◌, ◌≤◌, length};
ghost use Rattle.numerals.specs.Puts.{Puts};

/// Puts all of a text at the place `at` of the lent bytes; answers the place after it.
#[tactic(auto, using(crate::proofs::Putting::all_put))]
pub fn put_text(text: &[u8], out: &mut [u8], at: usize) -> usize
    requires { at + length text.now ≤ length out.old }
    ensures { Puts (length text.now) result out.new out.old at text.now }
{
    let end = at + text.len();
    out[at..end].copy_from_slice(text);
    end
}
