//! Big-endian numbers and their bytes, powers of 2, and least widths. Helpers of this crate alone.

ghost use Rattle.std.specs.Prelude.{◌≡◌, ◌++◌, ◌*◌, ◌/◌, ◌%◌, ◌^◌, ◌≤◌, ◌<◌, length, take, drop};
ghost use Rattle.tools.specs.Bytes.{be_number, be_bytes};
ghost use Rattle.tools.specs.Vint.{width_for};

/// The big-endian number of the bytes.
#[tactic(auto, using(crate::proofs::BigEndian::be_more, crate::proofs::BigEndian::push, crate::proofs::BigEndian::in64, crate::proofs::BigEndian::shifted), unfolding(crate::specs::Bytes::be_from))]
pub fn be_number(bytes: &[u8]) -> u64
    requires { length bytes.now ≤ 8 }
    ensures { (result ≡ be_number bytes.now) × (result < 2 ^ (8 * length bytes.now)) }
{
    let mut value: u64 = 0;
    for &byte in bytes {
        value = value * 256 + u64::from(byte);
    }
    value
}

/// The lowest width bytes of n, highest first, at the front of out.
#[tactic(auto, using(crate::proofs::BigEndian::last_bytes))]
pub fn put_be(n: u64, width: usize, out: &mut [u8])
    requires { (width ≤ 8) × (width ≤ length out.old) }
    ensures { out.new ≡ be_bytes width n ++ drop width out.old }
{
    out[..width].copy_from_slice(&n.to_be_bytes()[8 - width..]);
}

/// 2 to the power k.
pub fn pow2(k: usize) -> u64
    requires { k < 64 }
    ensures { result ≡ 2 ^ k }
{
    1u64 << k
}

/// The least width of 1 to 7 with m below 2 to the 7 bits of each byte less so many, else 8.
#[tactic(auto, unfolding(crate::specs::Vint::least_from))]
pub fn least_width(m: u64, less: usize) -> usize
    requires { less ≤ 1 }
    ensures { (result ≡ width_for less m) × (1 ≤ result) × (result ≤ 8) }
{
    for width in 1..8 {
        if m < pow2(7 * width - less) {
            return width;
        }
    }
    8
}
