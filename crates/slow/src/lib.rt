// A layer that adds waits to each access of any program or data memory below it, a slow one included.
#![tactic(auto)]

mod counter;
mod counter_state;
mod data_layer;
mod layer;
mod program_layer;
mod refusal;

pub use counter::WAITS_LIMIT;
pub use layer::Slow;
pub use refusal::{WaitsRefusal, check_waits};
