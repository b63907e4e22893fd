// What instructions compute, as functions of words that every machine can share.
#![tactic(auto)]

mod arithmetic;
mod branch;
mod cause;
mod control;
mod extend;
mod transfer;
mod worked;

pub use arithmetic::{alu, load_high, shift, test};
pub use branch::{flow, link, next_pair};
pub use cause::{Cause, counted, level, with_cause};
pub use control::Flow;
pub use extend::{constant, extend_immediate, extend_offset};
pub use transfer::{Width, effective_address, load_result};
pub use worked::worked_execution;

#[cfg(test)]
mod tests;
