//! Bytes at a place of the lent output.

ghost use Rattle.std.specs.Prelude.{◌≡◌, ◌+◌, ◌^◌, ◌≤◌, ◌<◌, length, take, drop};
ghost use Rattle.std.proofs.Math.Seq.{paste};
ghost use Rattle.tools.specs.Vint.{vint_width, vint_bytes};
ghost use Rattle.tag_writer.specs.Document.{payload, id_bytes, header_bytes};
ghost use Rattle.tag_writer.specs.Flat.{datum_bytes};
ghost use Rattle.tag_writer.specs.Items.{value_at};

use crate::items::{index, value_size};
use crate::widths::byte_width;
use tools::vint::as_vint;

/// The n bytes of values from a place on.
pub fn put_part(values: &[u8], from: usize, n: usize, out: &mut [u8], at: usize)
    requires { (from + n ≤ length values.now) × (at + n ≤ length out.old) }
    ensures { out.new ≡ paste out.old at (take n (drop from values.now)) n }
{
    // not `copy_from_slice`: it calls `memmove` here, and the archive for C needs no more than `memcpy` and `memset`
    for i in 0..n {
        out[at + i] = values[from + i];
    }
}

// The bytes of an ID; the place after them.
fn put_id(id: u64, out: &mut [u8], at: usize) -> usize
    requires { at + length (id_bytes id) ≤ length out.old }
    ensures { (result ≡ at + length (id_bytes id)) × (out.new ≡ paste out.old at (id_bytes id) (length (id_bytes id))) }
{
    let width = byte_width(id, 1, 0);
    put_part(&id.to_be_bytes(), 8 - width, width, out, at);
    at + width
}

// The bytes of a size; the place after them.
fn put_size(n: u64, out: &mut [u8], at: usize) -> usize
    requires { (n < 2 ^ 56) × (at + vint_width n ≤ length out.old) }
    ensures { (result ≡ at + vint_width n) × (out.new ≡ paste out.old at (vint_bytes (vint_width n) n) (vint_width n)) }
{
    let mut bytes = [0u8; 8];
    match as_vint(n, &mut bytes) {
        Ok(width) => {
            put_part(&bytes, 0, width, out, at);
            at + width
        }
        // 8 bytes are room for n: this does not happen
        Err(_) => at,
    }
}

/// The header of an element; the place after it.
pub fn put_header(id: u64, n: u64, out: &mut [u8], at: usize) -> usize
    requires { (n < 2 ^ 56) × (at + length (header_bytes id n) ≤ length out.old) }
    ensures { (result ≡ at + length (header_bytes id n)) × (out.new ≡ paste out.old at (header_bytes id n) (length (header_bytes id n))) }
{
    let middle = put_id(id, out, at);
    put_size(n, out, middle)
}

/// The payload of a value; the place after it. It is the end of the value's own bytes: a number's without the first
/// ones, which say no more of it. Where there is no value nothing is put.
pub fn put_value(values: &[u8], kind: u64, offset: u64, n: u64, out: &mut [u8], at: usize) -> usize
    requires { at + length (payload (value_at values.now kind offset n)) ≤ length out.old }
    ensures { (result ≡ at + length (payload (value_at values.now kind offset n)))
        × (out.new ≡ paste out.old at (payload (value_at values.now kind offset n)) (length (payload (value_at values.now kind offset n)))) }
{
    let size = index(value_size(values, kind, offset, n));
    if size == 0 {
        return at;
    }
    let skipped = index(n) - size;
    put_part(values, index(offset) + skipped, size, out, at);
    at + size
}

/// A value with its header; the place after it.
pub fn put_datum(
    values: &[u8],
    kind: u64,
    id: u64,
    offset: u64,
    n: u64,
    out: &mut [u8],
    at: usize,
) -> usize
    requires { (length (payload (value_at values.now kind offset n)) < 2 ^ 56)
        × (at + length (datum_bytes values.now kind id offset n) ≤ length out.old) }
    ensures { (result ≡ at + length (datum_bytes values.now kind id offset n))
        × (out.new ≡ paste out.old at (datum_bytes values.now kind id offset n) (length (datum_bytes values.now kind id offset n))) }
{
    let middle = put_header(id, value_size(values, kind, offset, n), out, at);
    put_value(values, kind, offset, n, out, middle)
}
