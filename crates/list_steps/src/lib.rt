// Words into rows of bits: read_anchor and read_rows find the anchor and the cells of a shape list, read_place and plan_rows the place and the sum of a plan
// list. Any list is read, word by word through the reader: a word of another kind than its place calls for holds nothing, nor does the end.
// What a list holds: specs/ of the crate lists.
#![tactic(auto)]

ghost use Rattle.std.specs.Prelude.{◌≡◌, get_or};
ghost use Rattle.words.specs.Read.{word_of};
ghost use Rattle.rows.specs.Cells.{Same, At};
ghost use Rattle.lists.specs.Held.{held_anchor, held_place, held_cells, held_masks};
ghost use Rattle.lists.specs.Held.{CellsOf, WithWord, WithStage, SumRows};

use words::Word;

// Two numbers of a word.
#[derive(Clone, Copy)]
pub struct Pair {
    pub x: u32,
    pub y: u32,
}

// The word at a position, as the reader finds it there; past the end one of no used kind.
fn word_at(ws: &[u32], at: usize) -> Word
    ensures { result ≡ word_of (get_or ws.now at 0) }
{
    readers::read_at(ws, at).unwrap_or(Word::Unused(0))
}

// The anchor of a shape list, its first word; 0 and 0 where that is none.
pub fn read_anchor(ws: &[u32]) -> Pair
    ensures { (result.x ≡ (held_anchor ws.now).0) × (result.y ≡ (held_anchor ws.now).1) }
{
    match word_at(ws, 0) {
        Word::Anchor { ax, ay } => Pair { x: ax, y: ay },
        _ => Pair { x: 0, y: 0 },
    }
}

// The place of a plan list, its second word; 0 and 0 where that is none.
pub fn read_place(ws: &[u32]) -> Pair
    ensures { (result.x ≡ (held_place ws.now).0) × (result.y ≡ (held_place ws.now).1) }
{
    match word_at(ws, 1) {
        Word::Place { x, y } => Pair { x, y },
        _ => Pair { x: 0, y: 0 },
    }
}

// Adds the cells of the word at a position to the rows z. A row may stand twice in a damaged list.
fn with_word(z: &mut [u16; 16], ws: &[u32], at: usize)
    ensures { WithWord z.old (get_or ws.now at 0) z.new }
{
    if let Word::Row { y, columns } = word_at(ws, at) {
        z[(y % 16) as usize] |= (columns % 0x1_0000) as u16;
    }
}

// The cells of a shape list, whose rows stand from the second word on.
pub fn read_rows(ws: &[u32]) -> [u16; 16]
    ensures { Same (At result) (CellsOf (held_cells ws.now)) }
{
    let mut r = [0u16; 16];
    for i in 1..ws.len() {
        with_word(&mut r, ws, i);
    }
    r
}

// The sum of the rows z and the mask of the word at a position.
fn with_stage(z: [u16; 16], ws: &[u32], at: usize) -> [u16; 16]
    ensures { WithStage z (get_or ws.now at 0) result }
{
    match word_at(ws, at) {
        Word::Stage(m) => row_sum_steps::sum_of(z, row_steps::mask_rows((m % 512) as u16)),
        _ => z,
    }
}

// The sum of a plan list's stages, which stand from the third word on, cut to the window: from the last to the first, each added to those after it.
pub fn plan_rows(ws: &[u32]) -> [u16; 16]
    ensures { SumRows (held_masks ws.now) result }
{
    let mut r = [0u16; 16];
    r[0] = 1;
    for i in (2..ws.len()).rev() {
        r = with_stage(r, ws, i);
    }
    r
}
