//! The bench table as the words that are lent to the decoder.

ghost use Rattle.std.specs.Prelude.{◌≡◌};
ghost use Rattle.table.specs.BenchTable.{bench_entries, bench_parts};

/// The entries' words: ID, type, first part, number of parts.
pub fn entries() -> [u64; 32]
    ensures { result ≡ bench_entries }
{
    [
        // Session: a Master, root
        0x4E01, 0, 0, 0,
        // Feed: a Master, in Session
        0xA1, 0, 0, 1,
        // Amount: unsigned, in Feed as the four after it
        0xA2, 1, 0, 2,
        // Unit: text
        0xA3, 3, 0, 2,
        // Blob: binary
        0xA4, 4, 0, 2,
        // Shift: signed
        0xA5, 2, 0, 2,
        // Rate: a float
        0xA6, 5, 0, 2,
        // Void: binary, anywhere
        0xEC, 4, 2, 1,
    ]
}

/// The parts' words: Session, Feed, and a Global with neither bound.
pub fn parts() -> [u64; 9]
    ensures { result ≡ bench_parts }
{
    [0, 0x4E01, 0, 0, 0xA1, 0, 1, 0, 0]
}
