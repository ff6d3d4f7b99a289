// What is written is the shortest: definitions in specs/, promises in proofs/. There is no code of its own here.
#![tactic(auto)]
