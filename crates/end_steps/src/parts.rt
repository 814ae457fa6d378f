// A part of the live frame through the plan's stages by planes: one where all its cells were measured, else two that have both levels of it. Rows of the
// dilation are cut from the last plane, or planes.
ghost use Rattle.std.specs.Prelude.{◌≤◌, replicate};
ghost use Rattle.turn_steps.specs.Turns.{PlaneRoom};
ghost use Rattle.end_steps.specs.Ends.{Part, EndPart, EndRows};
ghost use Rattle.end_steps.specs.PartLevels.{PartMeasured, PartRoom, LevelRun, SecondRun, LevelsRun};

use cleaning::Operation;
use cuts::Sides;
use planes::Packing;

// One level of the part, packed into a plane in the first array and taken through the stages. Returns how many were run.
fn level(
    plan: &[u32],
    w: usize,
    e: usize,
    part: &[u8],
    first: &mut [u8],
    second: &mut [u8],
    some: bool,
) -> usize
    requires { Part plan.now w e part.now × PlaneRoom w e first.old second.old }
    ensures { LevelRun some plan.now w e part.now first.old second.old result first.new
        second.new }
{
    let placed = Packing {
        w,
        h: e,
        far: false,
        some,
    };
    let plane = Sides {
        columns: w + 15,
        rows: e + 15,
        outside: 0,
    };
    plane_pack_steps::pack(part, first, placed, plane);
    turn_steps::stages(Operation::Dilation, plan, w, e, first, second)
}

// The second level, in the bytes from o on.
fn second_level(
    plan: &[u32],
    w: usize,
    e: usize,
    part: &[u8],
    first: &mut [u8],
    second: &mut [u8],
    o: usize,
)
    requires { Part plan.now w e part.now × PartRoom o w e part.now first.old second.old }
    ensures { SecondRun o plan.now w e part.now first.old second.old first.new
        second.new }
{
    level(plan, w, e, part, &mut first[o..], &mut second[o..], true);
}

// One level, and the second where there are two planes. Returns the number of stages run on each.
fn levels(
    plan: &[u32],
    w: usize,
    e: usize,
    part: &[u8],
    first: &mut [u8],
    second: &mut [u8],
    o: usize,
) -> usize
    requires { Part plan.now w e part.now × PartRoom o w e part.now first.old second.old }
    ensures { LevelsRun o plan.now w e part.now first.old second.old result first.new
        second.new }
{
    let n = level(plan, w, e, part, first, second, false);
    if o != 0 {
        second_level(plan, w, e, part, first, second, o);
    }
    n
}

// The stages, and rows s to s + t cut into d from the planes that stand then.
fn by_planes(
    plan: &[u32],
    w: usize,
    e: usize,
    part: &[u8],
    s: usize,
    t: usize,
    d: &mut [u8],
    first: &mut [u8],
    second: &mut [u8],
    o: usize,
)
    requires { EndPart plan.now w e part.now s t d.old × PartRoom o w e part.now first.old second.old }
    ensures { EndRows plan.now w e part.now s t d.old d.new }
{
    let n = levels(plan, w, e, part, first, second, o);
    let x = 30 - (plan[1] % 256) as usize;
    let y = 30 - (plan[1] / 256 % 256) as usize;
    let rows = cuts::Part {
        w,
        h: t,
        a: x,
        b: y + s,
    };
    let plane = Sides {
        columns: w + 15,
        rows: e + 15,
        outside: 0,
    };
    if n % 2 == 0 {
        plane_unpack_steps::unpack(first, d, rows, plane, o);
    } else {
        plane_unpack_steps::unpack(second, d, rows, plane, o);
    }
}

// The same, with N bytes of its own for the planes of each image.
pub(crate) fn with_planes<const N: usize>(
    plan: &[u32],
    w: usize,
    e: usize,
    part: &[u8],
    s: usize,
    t: usize,
    d: &mut [u8],
    o: usize,
)
    requires { EndPart plan.now w e part.now s t d.old × PartRoom o w e part.now (replicate N 0) (replicate N 0) × (N ≤ 65535) }
    ensures { EndRows plan.now w e part.now s t d.old d.new }
{
    let mut first: [u8; N] = [0; N];
    let mut second: [u8; N] = [0; N];
    by_planes(plan, w, e, part, s, t, d, &mut first, &mut second, o);
}
