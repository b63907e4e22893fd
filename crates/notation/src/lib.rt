// Instructions as people write them, in assembly notation.
#![tactic(auto)]

mod assembly;
mod operand;

pub use assembly::Assembly;

#[cfg(test)]
mod tests;
