// Text of the program `shapeplan`: what has been read of lines of words, and a page of lines. What they stand for is in specs/; lines are read in the crate
// line_steps, and pages made in page_steps. No input, no output, no planning.
#![tactic(auto)]

// What has been read: whether some line was bad; how many words, counted to 18, and the words; the digits of the line begun and their value. `bad` is a field,
// since `print_calls::page` answers of every reading, a bad one too; the buffer of words is fixed, since nothing allocates.
#[derive(Clone, Copy)]
pub struct Reading {
    pub bad: bool,
    pub count: usize,
    pub words: [u32; 18],
    pub digits: u32,
    pub value: u32,
}

// A page: the text is the first n bytes; 288 is room for 32 lines of nine. The buffer is fixed, since nothing allocates.
#[derive(Clone, Copy)]
pub struct Page {
    pub n: usize,
    pub bytes: [u8; 288],
}
