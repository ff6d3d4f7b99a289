//! The number routines: a result number, and a value or a vint at the front of the lent output.

ghost use Rattle.std.specs.Prelude.{◌≡◌};
ghost use Rattle.tools.specs.Answers.{Gives};
ghost use Rattle.tools.specs.Vint.{read_vint, as_vint, as_vint_with_length, is_vint};
ghost use Rattle.tools.specs.ElementId.{is_element_id};
ghost use Rattle.tools.specs.SignedVint.{read_signed_vint, as_signed_vint, as_signed_vint_with_length};
ghost use Rattle.tools.specs.Integer.{arr_to_u64, arr_to_i64};
ghost use Rattle.tools.specs.Float.{arr_to_f64};
ghost use Rattle.ebml.specs.Numbers.{read_out, read_signed_out, written_out, yes_no, unsigned_out, integer_out, float_out};

/// The vint at the front of the buffer: its value out, its length the result; or how many bytes of it are missing.
#[unsafe(no_mangle)]
pub extern "C" fn ebml_read_vint(buffer: &[u8], out: &mut [u8]) -> u64
    ensures { Gives result out.new (read_out (read_vint buffer.now) out.old) }
{
    ebml::numbers::ebml_read_vint(buffer, out)
}

/// The same of a signed vint.
#[unsafe(no_mangle)]
pub extern "C" fn ebml_read_signed_vint(buffer: &[u8], out: &mut [u8]) -> u64
    ensures { Gives result out.new (read_signed_out (read_signed_vint buffer.now) out.old) }
{
    ebml::numbers::ebml_read_signed_vint(buffer, out)
}

/// The vint of a value, of the least width.
#[unsafe(no_mangle)]
pub extern "C" fn ebml_as_vint(val: u64, out: &mut [u8]) -> u64
    ensures { Gives result out.new (written_out (as_vint val out.old)) }
{
    ebml::numbers::ebml_as_vint(val, out)
}

/// The vint of a value in so many bytes.
#[unsafe(no_mangle)]
pub extern "C" fn ebml_as_vint_with_length(val: u64, width: usize, out: &mut [u8]) -> u64
    ensures { Gives result out.new (written_out (as_vint_with_length val width out.old)) }
{
    ebml::numbers::ebml_as_vint_with_length(val, width, out)
}

/// The signed vint of a number, of the least width.
#[unsafe(no_mangle)]
pub extern "C" fn ebml_as_signed_vint(val: i64, out: &mut [u8]) -> u64
    ensures { Gives result out.new (written_out (as_signed_vint val out.old)) }
{
    ebml::numbers::ebml_as_signed_vint(val, out)
}

/// The signed vint of a number in so many bytes.
#[unsafe(no_mangle)]
pub extern "C" fn ebml_as_signed_vint_with_length(val: i64, width: usize, out: &mut [u8]) -> u64
    ensures { Gives result out.new (written_out (as_signed_vint_with_length val width out.old)) }
{
    ebml::numbers::ebml_as_signed_vint_with_length(val, width, out)
}

/// 1 where the highest set bit is where a vint has its marker, else 0.
#[unsafe(no_mangle)]
pub extern "C" fn ebml_is_vint(val: u64) -> u64
    ensures { result ≡ yes_no (is_vint val) }
{
    ebml::numbers::ebml_is_vint(val)
}

/// 1 where a number is an Element ID as RFC 8794 allows it, else 0.
#[unsafe(no_mangle)]
pub extern "C" fn ebml_is_element_id(id: u64) -> u64
    ensures { result ≡ yes_no (is_element_id id) }
{
    ebml::numbers::ebml_is_element_id(id)
}

/// The number of up to 8 bytes.
#[unsafe(no_mangle)]
pub extern "C" fn ebml_arr_to_u64(arr: &[u8], out: &mut [u8]) -> u64
    ensures { Gives result out.new (unsigned_out (arr_to_u64 arr.now) out.old) }
{
    ebml::numbers::ebml_arr_to_u64(arr, out)
}

/// The same in two's complement.
#[unsafe(no_mangle)]
pub extern "C" fn ebml_arr_to_i64(arr: &[u8], out: &mut [u8]) -> u64
    ensures { Gives result out.new (integer_out (arr_to_i64 arr.now) out.old) }
{
    ebml::numbers::ebml_arr_to_i64(arr, out)
}

/// The 64 bits of a float of 4 or 8 bytes.
#[unsafe(no_mangle)]
pub extern "C" fn ebml_arr_to_f64(arr: &[u8], out: &mut [u8]) -> u64
    ensures { Gives result out.new (float_out (arr_to_f64 arr.now) out.old) }
{
    ebml::numbers::ebml_arr_to_f64(arr, out)
}
