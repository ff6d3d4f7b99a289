//! A recovery over bytes without a valid header, and what it is measured by: a header read at each byte.

use tag_decoder::recovery::try_recover;
use tag_decoder::settings::new;
use tag_parse::header::read_header;
use tools::status::Status;

/// Recovers with a lent table from fresh; the result is how many bytes were passed over.
#[unsafe(no_mangle)]
pub extern "C" fn bench_recover(entries: &[u64], parts: &[u64], input: &[u8]) -> u64 {
    try_recover(entries, parts, new(), input).taken as u64
}

/// Reads a header at each byte; the result is at how many there is one.
#[unsafe(no_mangle)]
pub extern "C" fn bench_read_headers(entries: &[u64], parts: &[u64], input: &[u8]) -> u64 {
    let mut count: u64 = 0;
    for i in 0..input.len() {
        if matches!(
            read_header(entries, parts, &input[i..]),
            Ok(Status::Complete(_))
        ) {
            count = count.wrapping_add(1);
        }
    }
    count
}
