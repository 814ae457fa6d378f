// Loops over the cells of frames and grids, for ground 13 and the counts. They always run to the end, so that many cells are done at a time.
#![tactic(auto)]

ghost use Rattle.std.specs.Prelude.{◌≡◌, ◌≤◌, length, take};
ghost use Rattle.grids.specs.Frame.{bad_cell};
ghost use Rattle.cell_steps.specs.Leaves.{greatest_of, counts_of, times_of, Counted};

// The greatest of some cells.
fn greatest(cells: &[u8]) -> u8
    ensures { result ≡ greatest_of cells.now }
{
    let mut v: u8 = 0;
    for c in cells {
        v = v.max(*c);
    }
    v
}

// The greatest number among the first n cells, or as many as there are; 0 where there is none.
pub fn greatest_among(cells: &[u8], n: usize) -> u8
    ensures { result ≡ greatest_of (take n cells.now) }
{
    greatest(&cells[..n.min(cells.len())])
}

// Ground 13 over the first n cells, or as many as there are: whether one is above 2.
pub fn bad_among(cells: &[u8], n: usize) -> bool
    ensures { result ≡ bad_cell (take n cells.now) }
{
    greatest_among(cells, n) > 2
}

// The number of cells in a chunk that are v. It has at most 255, so that a byte holds the count and a register sixteen such counts.
fn in_chunk(cells: &[u8], v: u8) -> u8
    requires { length cells.now ≤ 255 }
    ensures { result ≡ counts_of v cells.now }
{
    let mut n: u8 = 0;
    for c in cells {
        n += u8::from(*c == v);
    }
    n
}

// The cells of a whole chunk. They fill registers of sixteen bytes, so that only the last chunk ends cell by cell.
const CHUNK: usize = 224;

// The number of cells that are v, chunk by chunk; the last chunk has what is left, perhaps nothing. Not by `chunks`: there a chunk's length is no
// constant to the compiler, and the count was measured 8 to 36 % slower.
fn in_chunks(cells: &[u8], v: u8) -> u32
    requires { length cells.now ≤ 0x7fffffff }
    ensures { result ≡ times_of v cells.now }
{
    let whole = cells.len() / CHUNK;
    let mut n: u32 = 0;
    for i in 0..whole {
        let k = i * CHUNK;
        n += u32::from(in_chunk(&cells[k..k + CHUNK], v));
    }
    n + u32::from(in_chunk(&cells[whole * CHUNK..], v))
}

// The number of cells that are v; 0 where there are more than 2,147,483,647 cells.
pub fn times(cells: &[u8], v: u8) -> u32
    ensures { Counted v cells.now result }
{
    if 0x7fff_ffff < cells.len() {
        0
    } else {
        in_chunks(cells, v)
    }
}
