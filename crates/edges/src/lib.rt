// The eighteen numbers of a set of cells, which add up under ⊕, and the greatest values of sixteen directions that they are made of: what they are is in
// specs/, and the functions that find those of rows are in the crate edge_steps.
#![tactic(auto)]
