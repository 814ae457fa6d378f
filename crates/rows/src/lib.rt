// Cells of the window as rows of bits, [u16; 16]: bit x of row y is the cell (x, y), and the window is the 16 × 16 cells that rows can hold; has reads a bit.
// What sums, residues and moves of cells are is in specs/; the functions that make them are in the crates row_steps, row_sum_steps and mask_steps.
#![tactic(auto)]

ghost use Rattle.std.specs.Prelude.{◌≡◌, true, false};
ghost use Rattle.rows.specs.Cells.{bit};

// Whether bit i of a is set; none past the sixteenth is.
pub fn has(a: u16, i: u32) -> bool
    ensures yes { result ≡ true → bit a i ≡ 1 }
    ensures no { result ≡ false → bit a i ≡ 1 → ⊥ }
{
    i < 16 && (a >> i) % 2 == 1
}
