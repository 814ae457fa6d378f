// How far cells reach: the least and the greatest row and column with a cell. What they are is in specs/; the functions that find those of rows are in
// the crate extent_steps.
#![tactic(auto)]
