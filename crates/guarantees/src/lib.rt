// What a checked table guarantees over any calls: definitions in specs/, promises in proofs/. There is no code of its
// own here.
#![tactic(auto)]
