// Known sizes mean known places: at each element the open masters are the path that the table gives its ID. Definitions
// in specs/, laws in proofs/. There is no code of its own here.
#![tactic(auto)]
