//! The number routines of ebml-iterable's tools.rs: vints, signed vints, integers and floats; and what an ID may be.
//! Every routine answers on every input; what each answer is stands in specs/.
#![tactic(auto)]

mod bytes;
pub mod element_id;
pub mod errors;
pub mod float;
pub mod integer;
pub mod page;
pub mod signed_vint;
pub mod status;
mod twos;
pub mod vint;
