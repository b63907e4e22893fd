// Calls of any two memories in the shapes that machines make them, and an example for each public function of the memories.
#![tactic(auto)]

mod shapes;

pub use shapes::{ask_each_once, fetch_word, load_word, settle_each};

#[cfg(test)]
mod tests;
