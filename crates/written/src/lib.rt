// What the round trip of the writer and the decoder gives a reader: definitions in specs/, promises in proofs/. There is
// no code of its own here.
#![tactic(auto)]
