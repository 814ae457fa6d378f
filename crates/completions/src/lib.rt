// The quick search: what its answers say and why they hold is in specs/ and proofs/; `pool_steps`, `path_steps` and `completion_steps` have its functions.
// It is one-sided: that no masks complete a partial sum is said, that some do is not. Here are the values that its functions hand on.
// It builds on rows (sums and residues of cells) and edges (the eighteen numbers of a mask).
#![tactic(auto)]

// A partial sum: the target, the residue target ⊖ sum, the masks of the sum, and the numbers that are needed still.
// The path is an array with a length, since there is no heap.
#[derive(Clone, Copy)]
pub struct Here {
    pub target: [u16; 16],
    pub rest: [u16; 16],
    pub path: [u16; 32],
    pub len: usize,
    pub need: [u8; 18],
}

// What a list was divided by: a number; how many masks of the list are without it, and how many there are.
#[derive(Clone, Copy)]
pub struct Branch {
    pub number: usize,
    pub without: usize,
    pub count: usize,
}
