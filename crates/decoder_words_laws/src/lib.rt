// What holds of the words that hold a decoder's record, whatever calls are made on them: definitions in specs/, laws in
// proofs/. There is no code of its own here.
#![tactic(auto)]
