//! Element IDs by RFC 8794, section 5. The Rust has no such test: its `is_vint` looks at the marker alone.

ghost use Rattle.std.specs.Prelude.{◌≡◌, ◌≤◌};
ghost use Rattle.tools.specs.ElementId.{is_id_of, element_id_length, is_element_id};

use crate::bytes::pow2;

// Whether a number is an ID of so many bytes: the marker at its place, data neither all 0 nor all 1, and the shortest
// form of it.
#[tactic(auto, unfolding(crate::specs::ElementId::is_id_of))]
fn is_id_of(length: usize, id: u64) -> bool
    requires { (1 ≤ length) × (length ≤ 8) }
    ensures { result ≡ is_id_of length id }
{
    let marker = pow2(7 * length);
    if id < marker {
        return false;
    }
    let value = id - marker;
    value < marker && value != 0 && value != marker - 1 && pow2(7 * (length - 1)) - 1 <= value
}

/// How many bytes a number has as an Element ID, as RFC 8794 allows it: 1 to 8, or 9 where it is none.
#[tactic(auto, using(crate::proofs::Least::least_here, crate::proofs::Least::least_next), unfolding(crate::specs::Vint::least_from))]
pub fn element_id_length(id: u64) -> usize
    ensures { result ≡ element_id_length id }
{
    for length in 1..=8 {
        if is_id_of(length, id) {
            return length;
        }
    }
    9
}

/// Whether a number is an Element ID as RFC 8794 allows it, of 1 to 8 bytes.
#[tactic(auto, unfolding(crate::specs::ElementId::is_element_id))]
pub fn is_element_id(id: u64) -> bool
    ensures { result ≡ is_element_id id }
{
    element_id_length(id) <= 8
}
