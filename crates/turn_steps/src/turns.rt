// The work images take turns: each single stage reads the image in which the plane stands and writes the other. They stand apart: two fields of a struct, each
// a `&mut`, cannot be lent to one call (the checker does not cover that yet).
ghost use Rattle.std.specs.Prelude.{◌≤◌};
ghost use Rattle.turn_steps.specs.Turns.{Worded, PlaneRoom, Turned, Passed, Ended};

use cleaning::Operation;
use cuts::Sides;
use planes::Stage;

// One single stage, after t others, with the value outside the grid.
fn turn(
    stage: Stage,
    outside: u8,
    t: usize,
    w: usize,
    h: usize,
    first: &mut [u8],
    second: &mut [u8],
)
    requires { PlaneRoom w h first.old second.old × (outside ≤ 1) }
    ensures { Turned stage.erode outside stage.mask w h t first.old second.old first.new second.new }
{
    let plane = Sides {
        columns: w + 15,
        rows: h + 15,
        outside,
    };
    if t % 2 == 0 {
        plane_stage_steps::stage(first, second, plane, stage);
    } else {
        plane_stage_steps::stage(second, first, plane, stage);
    }
}

// All stages of a plan, in order, after t others, with the value outside the grid. Returns how many have then been run.
fn pass(
    plan: &[u32],
    erode: bool,
    outside: u8,
    t: usize,
    w: usize,
    h: usize,
    first: &mut [u8],
    second: &mut [u8],
) -> usize
    requires { Worded plan.now × PlaneRoom w h first.old second.old × (t ≤ 30) × (outside ≤ 1) }
    ensures { Passed erode outside plan.now w h t first.old second.old result first.new second.new }
{
    let mut n = t;
    for k in 2..plan.len() {
        let mask = (plan[k] % 512) as u16;
        turn(Stage { mask, erode }, outside, n, w, h, first, second);
        n += 1;
    }
    n
}

// The stages of an operation, on the plane in the first image: once, or for opening and closing by one kind and then all of them again by the
// other. Cells outside the grid are occupied for erosion alone, and free else.
pub(crate) fn stages(
    op: Operation,
    plan: &[u32],
    w: usize,
    h: usize,
    first: &mut [u8],
    second: &mut [u8],
) -> usize
    requires { Worded plan.now × PlaneRoom w h first.old second.old }
    ensures { Ended op plan.now w h first.old second.old result first.new second.new }
{
    match op {
        Operation::Dilation => pass(plan, false, 0, 0, w, h, first, second),
        Operation::Erosion => pass(plan, true, 1, 0, w, h, first, second),
        Operation::Opening => {
            let n = pass(plan, true, 0, 0, w, h, first, second);
            pass(plan, false, 0, n, w, h, first, second)
        }
        Operation::Closing => {
            let n = pass(plan, false, 0, 0, w, h, first, second);
            pass(plan, true, 0, n, w, h, first, second)
        }
    }
}
