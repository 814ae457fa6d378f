// What a partial sum needs, and the masks that it is left with: `fits` and `less` hold a mask's numbers against those that are needed, `divided` draws a
// list of those that fit, divided by a number that is needed. It builds on completions, which says what these are.
#![tactic(auto)]

mod numbers;
mod pools;

pub use numbers::{fits, less};
pub use pools::divided;
