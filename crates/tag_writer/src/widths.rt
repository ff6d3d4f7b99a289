//! How many bytes numbers and headers take.

ghost use Rattle.std.specs.Prelude.{◌≡◌, ◌-◌, ◌*◌, ◌^◌, ◌≤◌, ◌<◌, ltb, length};
ghost use Rattle.std.specs.Int.Signed.{mag};
ghost use Rattle.tools.specs.Twos.{signed_of};
ghost use Rattle.tools.specs.Vint.{least_from, vint_width};
ghost use Rattle.tag_writer.specs.Document.{unsigned_width, integer_bytes, header_bytes};

use tools::vint::as_vint;

// 2 to the power k.
fn pow2(k: usize) -> u64
    requires { k < 64 }
    ensures { result ≡ 2 ^ k }
{
    1u64 << k
}

/// The least count of bytes from `from` to 7 whose bits, less so many, hold m; else 8.
pub fn byte_width(m: u64, from: usize, less: usize) -> usize
    requires { (from ≤ 1) × (less ≤ from) }
    ensures { (result ≡ least_from (λ k. ltb m (2 ^ (8 * k - less))) (8 - from) from) × (result ≤ 8) }
{
    for width in from..8 {
        if m < pow2(8 * width - less) {
            return width;
        }
    }
    8
}

// How many bytes a size takes, as `as_vint` writes it.
fn vint_width(n: u64) -> usize
    requires { n < 2 ^ 56 }
    ensures { (result ≡ vint_width n) × (result ≤ 8) }
{
    let mut bytes = [0u8; 8];
    match as_vint(n, &mut bytes) {
        Ok(width) => width,
        // 8 bytes are room for n: this does not happen
        Err(_) => 8,
    }
}

// A count of bytes as a number.
fn wide(n: usize) -> u64
    ensures { result ≡ n }
{
    n as u64
}

/// How many bytes the header of an element takes: the ID's and the size's.
pub fn header_size(id: u64, n: u64) -> u64
    requires { n < 2 ^ 56 }
    ensures { (result ≡ length (header_bytes id n)) × (result ≤ 16) }
{
    wide(byte_width(id, 1, 0) + vint_width(n))
}

/// How many bytes an unsigned number takes.
pub fn unsigned_size(n: u64) -> u64
    ensures { result ≡ unsigned_width n }
{
    wide(byte_width(n, 0, 0))
}

// Of a number, its 64 bits in two's complement: how far it is from 0, or below it from -1.
fn mag_bits(bits: u64) -> u64
    ensures { result ≡ mag (signed_of 64 bits) }
{
    if bits < 0x8000_0000_0000_0000 {
        return bits;
    }
    0xffff_ffff_ffff_ffff - bits
}

/// How many bytes a signed number takes, of its 64 bits in two's complement.
pub fn integer_size(bits: u64) -> u64
    ensures { result ≡ length (integer_bytes (signed_of 64 bits)) }
{
    if bits == 0 {
        return 0;
    }
    wide(byte_width(mag_bits(bits), 1, 1))
}
