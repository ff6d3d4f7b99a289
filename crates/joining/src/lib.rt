// Document 02, CR 6: joining is composition. Definitions in specs/, laws in proofs/. There is no code of its own here.
#![tactic(auto)]
