// Partial sums: `step` has the one below by a mask, or none where the mask is passed over; `finished` says whether one is the target; `replaced` finds a mask
// that is in the place of another. It builds on pool_steps (what masks need), rows and extents.
#![tactic(auto)]

ghost use Rattle.std.specs.Prelude.{◌≡◌, true, false, ℕ, ◌≤◌, ◌<◌, length, get_or, IfSome};
ghost use Rattle.rows.specs.Cells.{Sum, Residue, At, AtMask, AtSum, CutTo, chosen};
ghost use Rattle.completions.specs.Completing.{Differs, Replaces, Spans, Unmet, Stepped};
ghost use Rattle.completions.specs.Opening.{Finished};

use completions::Here;

// Whether the cells of t have one in column 0 and one in column w, one in row 0 and one in row h.
fn spans(t: [u16; 16], w: u8, h: u8) -> bool
    ensures { result ≡ false → Spans (At t) w h → ⊥ }
{
    if 16 <= w || 16 <= h || t[0] == 0 || t[h as usize] == 0 {
        return false;
    }
    let all = extent_steps::columns(t);
    all % 2 == 1 && (all >> (w as u32)) % 2 == 1
}

// Whether the step from the numbers that were needed to those that are left gains in width or height, and what is left of the cells has the extents that are
// needed then.
fn reaches(t: [u16; 16], need: [u8; 18], left: [u8; 18]) -> bool
    ensures yes { result ≡ true → get_or left 16 0 ≡ get_or need 16 0 → get_or left 17 0 ≡ get_or need 17 0 → ⊥ }
    ensures no { result ≡ false → Unmet (At t) need left }
{
    (left[16] != need[16] || left[17] != need[17]) && spans(t, left[16], left[17])
}

// The sum of the cells of a and the masks of the path, cut to the window.
fn carried(a: [u16; 16], path: [u16; 32], len: usize) -> [u16; 16]
    requires { len ≤ 32 }
    ensures { CutTo (Sum (At a) (AtSum (chosen path len))) result }
{
    let mut z = a;
    for j in 0..len {
        // a variable of its own, since the borrow checker does not cover a call's result that is laid in an array
        let next = mask_steps::grown(z, path[j]);
        z = next;
    }
    z
}

// Whether the target is the sum of the cells of t, the mask m and the masks of the path. Where t and m make up the rest again, which m left t of, the target
// is made up as it was above, and the sum is not made again.
fn covers(here: Here, t: [u16; 16], m: u16) -> bool
    requires { here.len ≤ 32 }
    ensures { result ≡ false → Differs here.target t here.path here.len m }
{
    let z = mask_steps::grown(t, m);
    row_steps::same(here.rest, z) || row_steps::same(here.target, carried(z, here.path, here.len))
}

// Whether the masks of the path sum to the target. Where the residue has the cell (0, 0) their sum lies in the target, so that the window has all of it.
pub fn finished(here: Here) -> bool
    ensures { Finished here result }
{
    if 32 < here.len || here.rest[0] % 2 == 0 {
        return false;
    }
    let origin = [1u16, 0, 0, 0, 0, 0, 0, 0, 0, 0, 0, 0, 0, 0, 0, 0];
    let sum = carried(origin, here.path, here.len);
    row_steps::same(here.target, sum)
}

// The partial sum below by the mask m. It is passed over where a number of m is above what is needed, where it gains nothing in width or height or what it
// leaves has not the extents that are needed then, or where the target differs from (target ⊖ sum) ⊕ sum. A path of 32 masks has no room for one more.
pub fn step(here: Here, nums: &[u8; 9216], m: u16) -> Option<Here>
    ensures { Stepped nums.now here m result }
{
    let need = here.need;
    if 32 <= here.len || !pool_steps::fits(need, nums, m) {
        return None;
    }
    let rest = mask_steps::shrunk(here.rest, m);
    let left = pool_steps::less(need, nums, m);
    if !reaches(rest, need, left) || !covers(here, rest, m) {
        return None;
    }
    let mut path = here.path;
    path[here.len] = m;
    Some(Here {
        rest,
        path,
        len: here.len + 1,
        need: left,
        ..here
    })
}

// Whether b has the cells of m and leaves as much of t as m does, which is own: then what the one completes the other completes too.
fn replaces(t: [u16; 16], own: [u16; 16], m: u16, b: u16) -> bool
    requires { CutTo (Residue (At t) (AtMask m)) own }
    ensures { result ≡ true → (i j : ℕ) → AtMask m i j → Replaces (At t) m b }
{
    b & m == m && row_steps::same(own, mask_steps::shrunk(t, b))
}

// The first of the list from r on that replaces m.
pub fn replaced(t: [u16; 16], list: &[u16], r: usize, m: u16) -> Option<usize>
    ensures { IfSome result (λ p. (p < length list.now) × ((r ≤ p) × ((i j : ℕ) → AtMask m i j → Replaces (At t) m (get_or list.now p 0)))) }
{
    let own = mask_steps::shrunk(t, m);
    for p in r..list.len() {
        if replaces(t, own, m, list[p]) {
            return Some(p);
        }
    }
    None
}
