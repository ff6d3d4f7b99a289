//! Who ends whom, and whether an element may stand where it does: spec_util.rs over a lent table.
//! Every routine answers on any words; what each answer is stands in specs/.
#![tactic(auto)]

pub mod ended;
mod ids;
pub mod place;
pub mod types;
pub mod walk;
