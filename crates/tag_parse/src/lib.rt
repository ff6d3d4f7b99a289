//! One element of the stream: its header and its payload. tag_parse.rs of the Rust; text is checked by the crate utf8.
#![tactic(auto)]

pub mod header;
pub mod payload;
pub mod types;
