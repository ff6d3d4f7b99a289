// What a decoder's record that is stored and read back answers: definitions in specs/, laws in proofs/. There is no code
// of its own here.
#![tactic(auto)]
