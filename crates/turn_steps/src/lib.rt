// The stages of an operation, run one after the other on a frame that is packed into a plane in the first of two work images, which take turns (`turns`).
#![tactic(auto)]

mod turns;

ghost use Rattle.std.specs.Prelude.{◌≡◌, true, false};
ghost use Rattle.turn_steps.specs.Turns.{plane_bytes, Turnable, StagesTurned};

use cleaning::Operation;
use cuts::Sides;

// Bytes that the plane of a frame's grid takes; 0 for sides that ground 11 refuses.
pub fn plane_bytes(w: usize, h: usize) -> usize
    ensures { result ≡ plane_bytes w h }
{
    if frame_grounds::bad_size(w, h) {
        0
    } else {
        planes::size(Sides {
            columns: w + 15,
            rows: h + 15,
            outside: 0,
        })
    }
}

// Whether the plan list has as many words as a plan has, the sides pass, and both images have room for the plane of the frame's grid.
fn turnable(plan: &[u32], w: usize, h: usize, first: &[u8], second: &[u8]) -> bool
    ensures yes { result ≡ true → Turnable plan.now w h first.now second.now }
    ensures no { result ≡ false → Turnable plan.now w h first.now second.now → ⊥ }
{
    let room = first.len().min(second.len());
    (2..=32).contains(&plan.len()) && !frame_grounds::bad_size(w, h) && plane_bytes(w, h) <= room
}

// The stages of an operation, on the plane in the first image, and no cut. Returns the number of stages run; 0, with the images as they were, where there are
// not as many words as a plan has, or no room for the planes.
pub fn stages(
    op: Operation,
    plan: &[u32],
    w: usize,
    h: usize,
    first: &mut [u8],
    second: &mut [u8],
) -> usize
    ensures { StagesTurned op plan.now w h first.old second.old result first.new second.new }
{
    if turnable(plan, w, h, first, second) {
        turns::stages(op, plan, w, h, first, second)
    } else {
        0
    }
}
