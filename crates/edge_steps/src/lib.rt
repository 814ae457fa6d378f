// The eighteen numbers of rows, which add up under ⊕: numbers. A row's greatest value of a direction is at its first or at its last cell, so that two columns
// of each row are enough; each number then puts the greatest values of three directions together. greatest_of and greatest_in are the greatest values
// themselves, of rows and of one row, and first_in is a row's first column. What the numbers are, and what each function answers: specs/ of the crate edges.
#![tactic(auto)]

ghost use Rattle.std.specs.Prelude.{◌≡◌, ℕ, ◌+◌, ◌*◌, ◌≤◌, ◌<◌, get_or};
ghost use Rattle.edges.specs.Numbers.{FirstFound, LastIn, Supported, Topped, RowTops, Fits, Numbered};

// The sixteen directions: (PLUS_X - MINUS_X, PLUS_Y - MINUS_Y). These tables, and those of the numbers below, stand one by one, as specs/Edges of the crate
// edges has them: so the check takes each for its definition, and a loop reads sixteen entries side by side.
const PLUS_X: [u16; 16] = [1, 2, 1, 1, 0, 0, 0, 0, 0, 0, 0, 0, 0, 1, 1, 2];

const PLUS_Y: [u16; 16] = [0, 1, 1, 2, 1, 2, 1, 1, 0, 0, 0, 0, 0, 0, 0, 0];

const MINUS_X: [u16; 16] = [0, 0, 0, 0, 0, 1, 1, 2, 1, 2, 1, 1, 0, 0, 0, 0];

const MINUS_Y: [u16; 16] = [0, 0, 0, 0, 0, 0, 0, 0, 0, 1, 1, 2, 1, 2, 1, 1];

// The directions of the eighteen numbers, and how many times the middle one is taken.
const FIRST: [u8; 18] = [15, 0, 1, 2, 3, 4, 5, 6, 7, 8, 9, 10, 11, 12, 13, 14, 0, 4];

const SECOND: [u8; 18] = [1, 2, 3, 4, 5, 6, 7, 8, 9, 10, 11, 12, 13, 14, 15, 0, 8, 12];

const MIDDLE: [u8; 18] = [0, 1, 2, 3, 4, 5, 6, 7, 8, 9, 10, 11, 12, 13, 14, 15, 0, 0];

const TIMES: [u16; 18] = [4, 1, 3, 1, 4, 1, 3, 1, 4, 1, 3, 1, 4, 1, 3, 1, 0, 0];

// The column of the first cell of a row that has one; 16 where it has none, as std's `trailing_zeros` answers.
pub fn first_in(row: u16) -> u16
    ensures { FirstFound row result }
{
    row.trailing_zeros() as u16
}

// The column of the last cell of a row that has one.
fn last_in(row: u16) -> u16
    requires { 0 < row }
    ensures { LastIn row result }
{
    (15 - row.leading_zeros()) as u16
}

// A direction's value, and 64 more, where it counts ahead at column last and behind at column first.
fn value(a: u16, b: u16, c: u16, d: u16, first: u16, last: u16, y: u16) -> u16
    requires { (a ≤ 2) × ((b ≤ 2) × ((c ≤ 2) × ((d ≤ 2) × ((first ≤ 15) × ((last ≤ 15) × (y ≤ 15)))))) }
    ensures { (result + (c * first + d * y)) ≡ (a * last + b * y + 64) }
{
    a * last + b * y + 64 - (c * first + d * y)
}

// The greatest values s with those of row y, whose cells reach from column first to column last.
fn raised(s: [u16; 16], first: u16, last: u16, y: u16) -> [u16; 16]
    requires { (first ≤ 15) × ((last ≤ 15) × (y ≤ 15)) }
    ensures { (i : ℕ) → i < 16 → Supported i first last y (get_or s i 0) (get_or result i 0) }
{
    let a = PLUS_X;
    let b = PLUS_Y;
    let c = MINUS_X;
    let d = MINUS_Y;
    let mut r = [0u16; 16];
    for i in 0..16 {
        let v = value(a[i], b[i], c[i], d[i], first, last, y);
        r[i] = s[i].max(v);
    }
    r
}

// The greatest values of the sixteen directions on the cells before row n.
fn tops(cells: [u16; 16], n: usize) -> [u16; 16]
    requires { n ≤ 16 }
    ensures { (i : ℕ) → i < 16 → Topped i cells n (get_or result i 0) }
{
    let mut s = [0u16; 16];
    for y in 0..n {
        let row = cells[y];
        if row != 0 {
            let next = raised(s, first_in(row), last_in(row), y as u16);
            s = next;
        }
    }
    s
}

// The greatest values of the sixteen directions on the cells: 0 where there is none.
pub fn greatest_of(cells: [u16; 16]) -> [u16; 16]
    ensures { (i : ℕ) → i < 16 → Topped i cells 16 (get_or result i 0) }
{
    tops(cells, 16)
}

// The greatest values of the sixteen directions on row y alone: 0 where it has no cell or is not of the window.
pub fn greatest_in(row: u16, y: u16) -> [u16; 16]
    ensures { RowTops row y result }
{
    if row == 0 || 15 < y {
        return [0u16; 16];
    }
    raised([0u16; 16], first_in(row), last_in(row), y)
}

// A number by the greatest values s and u of its first and second direction, and t times that of its middle one, m.
fn number(s: u16, u: u16, m: u16, t: u16) -> u8
    requires { Fits s u m t }
    ensures { (result + (t * m + 128)) ≡ (s + u + t * 64) }
{
    (s + u + t * 64 - (t * m + 128)) as u8
}

// The eighteen numbers of the cells before row n: zeros where there is none.
pub fn numbers(cells: [u16; 16], n: usize) -> [u8; 18]
    ensures { Numbered cells n result }
{
    let s = tops(cells, n.min(16));
    let mut r = [0u8; 18];
    if s[0] == 0 {
        return r;
    }
    let first = FIRST;
    let second = SECOND;
    let middle = MIDDLE;
    let times = TIMES;
    for i in 0..18 {
        r[i] = number(
            s[first[i] as usize],
            s[second[i] as usize],
            s[middle[i] as usize],
            times[i],
        );
    }
    r
}
