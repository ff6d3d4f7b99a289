//! A script of calls answered as the program `replay` answers it, from lent bytes to lent bytes: a driver asks many
//! scripts without starting a program.

ghost use Rattle.std.specs.Prelude.{◌≤◌, length};

use script::session::Session;
use script_text::answers::Line;

// Puts the bytes at the front of `out`, and answers how many they are; what finds no room is left out.
fn put(bytes: &[u8], out: &mut [u8]) -> usize
    ensures { result ≤ length out.old }
{
    let count = bytes.len().min(out.len());
    out[..count].copy_from_slice(&bytes[..count]);
    count
}

/// Answers every line of a script, the first on a fresh session, and gives the count of bytes of `out` that are filled.
/// The lent words hold the table.
#[unsafe(no_mangle)]
pub extern "C" fn bench_script(
    script: &[u8],
    entries: &mut [u64],
    parts: &mut [u64],
    out: &mut [u8],
) -> u64 {
    let mut session = Session::new();
    let mut answer = Line::new();
    let mut filled = 0;
    for line in script.split(|&byte| byte == b'\n') {
        session.answer(line, entries, parts, &mut answer);
        if !answer.is_empty() {
            answer.put(b"\n");
            filled += put(answer.as_slice(), &mut out[filled..]);
        }
    }
    filled as u64
}
