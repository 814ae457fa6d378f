// The stages of an operation on one plane, or on two that have both levels of a grid, of which the second starts where the first ends.
ghost use Rattle.turn_steps.specs.Turns.{Worded};
ghost use Rattle.result_steps.specs.Cutting.{Room};
ghost use Rattle.result_steps.specs.Levels.{SecondEnded, LevelsEnded};

use cleaning::Operation;

// The stages on the second planes.
fn second_stages(
    op: Operation,
    plan: &[u32],
    w: usize,
    h: usize,
    first: &mut [u8],
    second: &mut [u8],
)
    requires { Worded plan.now × Room w h first.old second.old }
    ensures { SecondEnded op plan.now w h first.old second.old first.new second.new }
{
    let o = turn_steps::plane_bytes(w, h);
    let n = first.len();
    let m = second.len();
    turn_steps::stages(op, plan, w, h, &mut first[o..n], &mut second[o..m]);
}

// The stages on the first planes, and on the second where there are two. Returns the number of stages run on each.
pub(crate) fn stages(
    op: Operation,
    plan: &[u32],
    w: usize,
    h: usize,
    first: &mut [u8],
    second: &mut [u8],
    two: bool,
) -> usize
    requires { Worded plan.now × Room w h first.old second.old }
    ensures { LevelsEnded two op plan.now w h first.old second.old result first.new second.new }
{
    let n = turn_steps::stages(op, plan, w, h, first, second);
    if two {
        second_stages(op, plan, w, h, first, second);
    }
    n
}
