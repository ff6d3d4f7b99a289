//! What a call does, decided before the decoder's record moves: steps 1 to 11. The record was looked at
//! before (decoder_look), and its open masters stand in lent words: a promise here is made of every record that looks
//! so.
#![tactic(auto)]

pub mod checks;
pub mod closing;
pub mod decide;
pub mod element;
pub mod header;
pub mod whole;
