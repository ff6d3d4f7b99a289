// What every crate says of lists, of tests and of arrays of 32 places: definitions in specs/, laws in proofs/. It has
// no code of its own.
#![tactic(auto)]
