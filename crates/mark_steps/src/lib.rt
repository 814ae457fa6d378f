// What the search starts with, by `pooled`: which masks can be in a list that sums to the cells at all, the same as a list, and a table of their numbers.
// It builds on rows (sums and residues by a mask), stages (which masks are stages) and edges (the numbers of a mask).
#![tactic(auto)]

ghost use Rattle.std.specs.Prelude.{◌≡◌, ◌+◌, ◌<◌, length};
ghost use Rattle.masks.specs.Mask.{stage as isStage};
ghost use Rattle.rows.specs.Cells.{At};
ghost use Rattle.search.specs.Tree.{Marks, Candidate, Candidates};
ghost use Rattle.search.specs.Asking.{Drawn, Stored, Tabled, Stocked};

use search::Pool;

// Whether m is a stage that leaves the cells equal to (cells ⊖ m) ⊕ m, as each stage of a plan of them does.
fn mark(cells: [u16; 16], m: u16) -> bool
    ensures { Candidate isStage (At cells) m result }
{
    if !stage_steps::is_stage(m as u32) {
        return false;
    }
    let t = mask_steps::shrunk(cells, m);
    let whole = mask_steps::grown(t, m);
    row_steps::same(cells, whole)
}

// The marks of all masks.
fn marked(cells: [u16; 16]) -> [bool; 512]
    ensures { Candidates isStage (At cells) 512 result }
{
    let mut marks = [false; 512];
    for m in 0..512 {
        marks[m as usize] = mark(cells, m);
    }
    marks
}

// Puts the masks that are marked to the front of the list, and answers how many they are.
fn listed(marks: &[bool], list: &mut [u16; 512]) -> usize
    requires { (length marks.now ≡ 512) × (length list.old ≡ 512) }
    ensures { Drawn marks.now 512 list.new result }
{
    let mut n: usize = 0;
    for m in 0..512 {
        list[n] = m;
        if marks[m as usize] {
            n += 1;
        }
    }
    n
}

// Stores the numbers of the mask m in their place in the table.
fn store(table: &mut [u8], m: usize, numbers: [u8; 18])
    requires { (length table.old ≡ 9216) × (m < 512) }
    ensures { Stored table.old m numbers 18 table.new }
{
    let at = m * 18;
    for j in 0..18 {
        table[at + j] = numbers[j];
    }
}

// Stores the numbers of the mask m in the table, where it is marked.
fn entered(marks: &[bool], table: &mut [u8], m: u16)
    requires { Marks marks.now × ((length table.old ≡ 9216) × (m < 512)) }
    ensures { (length table.new ≡ length table.old) ×
        (Tabled marks.now m table.old → Tabled marks.now (m + 1) table.new) }
{
    if marks[m as usize] {
        let numbers = edge_steps::numbers(row_steps::mask_rows(m), 3);
        store(table, m as usize, numbers);
    }
}

// Fills the table with the numbers of the masks that are marked.
fn tabled(marks: &[bool], table: &mut [u8])
    requires { Marks marks.now × (length table.old ≡ 9216) }
    ensures { Tabled marks.now 512 table.new }
{
    for m in 0..512 {
        entered(marks, table, m);
    }
}

// The marks for the cells, the marked masks as a list, and the table of their numbers.
pub fn pooled(cells: [u16; 16]) -> Pool
    ensures { Stocked cells result }
{
    let marks = marked(cells);
    let mut list = [0u16; 512];
    let n = listed(&marks, &mut list);
    let mut nums = [0u8; 9216];
    tabled(&marks, &mut nums);
    Pool {
        marks,
        list,
        n,
        nums,
    }
}
