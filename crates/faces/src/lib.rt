// The faces of a set of cells, and which faces a sum of masks can have: what they are is in specs/, and the test of rows is in the crate face_steps.
#![tactic(auto)]
