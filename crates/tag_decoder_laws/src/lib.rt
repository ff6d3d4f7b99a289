// What holds of the decoder's calls whoever makes them: what appended bytes change, what settles, what is finished, and
// that every event brings the end nearer. There is no code of its own here.
#![tactic(auto)]
