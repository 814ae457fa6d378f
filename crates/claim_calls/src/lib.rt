// Demand 3 as one function: it plans a shape and runs one of the four operations on a frame with exactly the words that planning wrote. What it promises is one
// statement, Claim in claim/specs/Whole, of its answer and of the part that `part_calls::part` hands back for it; and Lent there, of the work images.
#![tactic(auto)]

ghost use Rattle.words.specs.Ground.{stated};
ghost use Rattle.cleaning.specs.Cleaning.{Cleaned};
ghost use Rattle.claim.specs.Whole.{Claim, handed_for, Lent, Steps};

use cleaning::Operation;
use words::Answer;

// The operation, on a plan list.
fn operate(
    op: Operation,
    plan: &[u32],
    w: usize,
    h: usize,
    frame: &[u8],
    first: &mut [u8],
    second: &mut [u8],
) -> Answer
    ensures { Cleaned op plan.now w h frame.now first.old second.old result first.new
        second.new }
{
    match op {
        Operation::Dilation => clean_calls::dilation(plan, w, h, frame, first, second),
        Operation::Erosion => clean_calls::erosion(plan, w, h, frame, first, second),
        Operation::Opening => clean_calls::opening(plan, w, h, frame, first, second),
        Operation::Closing => clean_calls::closing(plan, w, h, frame, first, second),
    }
}

// Plans into the list and runs the operation with the words written, as many as the length returned.
fn steps(
    op: Operation,
    shape: &[u32],
    plan: &mut [u32],
    w: usize,
    h: usize,
    frame: &[u8],
    first: &mut [u8],
    second: &mut [u8],
) -> Answer
    ensures { Steps op shape.now w h frame.now first.old second.old plan.old result
        first.new second.new }
{
    let n = plan_calls::plan(shape, plan)? as usize;
    operate(op, &plan[..n], w, h, frame, first, second)
}

// The operation with the shape's own plan: the number of stages run, for which the part is handed back, or the refusal. The plan list is its own, so that a
// refusal changes nothing lent.
pub fn run(
    op: Operation,
    shape: &[u32],
    w: usize,
    h: usize,
    frame: &[u8],
    first: &mut [u8],
    second: &mut [u8],
) -> Answer
    ensures { Claim op shape.now w h frame.now first.old second.old (stated result) (handed_for
        (stated result) w h first.new second.new)
        × Lent w h first.old second.old (stated result) first.new second.new }
{
    let mut plan: [u32; 32] = [0; 32];
    steps(op, shape, &mut plan, w, h, frame, first, second)
}
