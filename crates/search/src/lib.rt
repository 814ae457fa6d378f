// The search for the fewest stages: what it answers, and why that follows from the answers below it, is in specs/ and proofs/; `mark_steps` and `search_steps`
// have its functions. It builds on completions, the quick search, which it asks on the way down.
#![tactic(auto)]

// What the search starts with: a mark for each mask, the n marked masks as a list, and a table with eighteen numbers for each mask.
// The list is an array with a length, since there is no heap; and no copy is made of eleven thousand bytes unasked.
#[derive(Drop)]
pub struct Pool {
    pub marks: [bool; 512],
    pub list: [u16; 512],
    pub n: usize,
    pub nums: [u8; 9216],
}

// The n stages of the plan that is picked, the first at n − 1.
#[derive(Clone, Copy)]
pub struct Chosen {
    pub n: usize,
    pub masks: [u16; 32],
}
