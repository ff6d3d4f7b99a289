//! The calls on a decoder: `new`, `allow`, `max`, `strict`, `set`, `st`, `store` and `restore` on its record, `decode`,
//! `eof` and `recover` on bytes.
#![tactic(auto)]

pub mod calls;
mod changes;
mod items;
