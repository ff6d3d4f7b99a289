//! A record restored from a block, and stored again.

use stored_decoder::blocks::{restore, store};
use stored_decoder::errors::error_number;
use stored_decoder::types::StoreError;
use tag_decoder::settings::new;

// The number of a refusal, or 0.
fn refusal_of(answer: Result<(), StoreError>) -> u64 {
    match answer {
        Ok(()) => 0,
        Err(error) => error_number(error),
    }
}

/// Restores the record of a block; the result is the number of the refusal, or 0.
#[unsafe(no_mangle)]
pub extern "C" fn bench_restore(block: &[u8]) -> u64 {
    refusal_of(restore(new(), block).answer)
}

/// Restores the record of a block and stores it in another; the result is the number of the storing's refusal, or 0.
#[unsafe(no_mangle)]
pub extern "C" fn bench_restore_and_store(block: &[u8], out: &mut [u8]) -> u64 {
    refusal_of(store(restore(new(), block).state, out))
}
