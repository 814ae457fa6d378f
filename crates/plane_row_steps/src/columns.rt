// The columns of a mask's row that a pass reads. Three are read always, so that a pass has no test in its loop: one that is set stands in for one that is not.
ghost use Rattle.std.specs.Prelude.{◌≡◌, cond, ◌+◌, ◌<◌, ◌≤◌, MatchOption};
ghost use Rattle.planes.specs.MaskBits.{has_bit};
ghost use Rattle.plane_row_steps.specs.MaskRows.{first_column, across_of};

use plane_pass_steps::Columns;

// The first column that is set, of the three whose bits begin at s.
pub(crate) fn first(mask: u16, s: u32) -> Option<usize>
    requires { s ≤ 6 }
    ensures { MatchOption result (first_column mask s ≡ 3) (λ f. (f ≡ first_column mask s) × (f < 3)) }
{
    if rows::has(mask, s) {
        Some(0)
    } else if rows::has(mask, s + 1) {
        Some(1)
    } else if rows::has(mask, s + 2) {
        Some(2)
    } else {
        None
    }
}

// How far on the cell stands that is read for column i, or for column f where i is not set.
fn read(mask: u16, s: u32, i: usize, f: usize, erode: bool) -> usize
    requires { (s ≤ 6) × (i ≤ 2) × (f ≤ 2) }
    ensures { (result ≡ across_of erode (cond (has_bit mask (s + i)) i f)) × (result ≤ 2) }
{
    let k = if rows::has(mask, s + i as u32) { i } else { f };
    if erode { k } else { 2 - k }
}

// How far on the cells stand that are read for the three columns whose bits begin at s, from o on; f stands in for one that is not set.
pub(crate) fn reads(mask: u16, s: u32, o: usize, f: usize, erode: bool) -> Columns
    requires { (s ≤ 6) × (f ≤ 2) × (o + 2 ≤ usize.MAX) }
    ensures x { (result.x ≡ o + across_of erode (cond (has_bit mask (s + 0)) 0 f)) × (result.x ≤ o + 2) }
    ensures y { (result.y ≡ o + across_of erode (cond (has_bit mask (s + 1)) 1 f)) × (result.y ≤ o + 2) }
    ensures z { (result.z ≡ o + across_of erode (cond (has_bit mask (s + 2)) 2 f)) × (result.z ≤ o + 2) }
{
    Columns {
        x: o + read(mask, s, 0, f, erode),
        y: o + read(mask, s, 1, f, erode),
        z: o + read(mask, s, 2, f, erode),
    }
}
