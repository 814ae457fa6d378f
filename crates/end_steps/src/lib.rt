// Rows near an end of a frame, dilated: the part of it that they depend on goes through the plan's stages on planes of its own (`parts`).
#![tactic(auto)]

mod parts;

ghost use Rattle.std.specs.Prelude.{◌≡◌, true, false};
ghost use Rattle.frame_grounds.specs.Looking.{greatest_cell};
ghost use Rattle.end_steps.specs.Ends.{Part, EndPart, EndDilated};

// Whether a plan's stages can be run on the part, e rows of w cells whose greatest number is this: 2 to 32 words, a place within its range, sides that pass, e
// at most 31, all cells, and none above 2.
#[tactic(auto, using(crate::proofs::EndPlanes::none_great, crate::proofs::EndPlanes::too_great))]
fn part_passes(plan: &[u32], w: usize, e: usize, part: &[u8], greatest: u8) -> bool
    requires { greatest ≡ greatest_cell w e part.now }
    ensures yes { result ≡ true → Part plan.now w e part.now }
    ensures no { result ≡ false → Part plan.now w e part.now → ⊥ }
{
    (2..=32).contains(&plan.len())
        && plan[1] % 256 <= 30
        && plan[1] / 256 % 256 <= 30
        && !frame_grounds::bad_size(w, e)
        && e <= 31
        && part.len() == e * w
        && greatest <= 2
}

// Whether rows s to s + t of the part can be worked out into d: they are among its rows, and d has their length.
fn workable(
    plan: &[u32],
    w: usize,
    e: usize,
    part: &[u8],
    greatest: u8,
    s: usize,
    t: usize,
    d: &[u8],
) -> bool
    requires { greatest ≡ greatest_cell w e part.now }
    ensures yes { result ≡ true → EndPart plan.now w e part.now s t d.now }
    ensures no { result ≡ false → EndPart plan.now w e part.now s t d.now → ⊥ }
{
    part_passes(plan, w, e, part, greatest) && t <= e && s <= e - t && d.len() == t * w
}

// Rows s to s + t of the dilation of the part, e rows of w cells, into d, which stays where they cannot be worked out.
pub fn rows(plan: &[u32], w: usize, e: usize, part: &[u8], s: usize, t: usize, d: &mut [u8])
    ensures { EndDilated plan.now w e part.now s t d.old d.new }
{
    let greatest = frame_grounds::greatest_cell(w, e, part);
    if !workable(plan, w, e, part, greatest, s, t, d) {
        return;
    }
    // A part of 31 rows has a grid of 46, whose plane takes 2,058 bytes at most.
    if greatest > 1 {
        parts::with_planes::<4116>(plan, w, e, part, s, t, d, 2058);
    } else {
        parts::with_planes::<2058>(plan, w, e, part, s, t, d, 0);
    }
}
