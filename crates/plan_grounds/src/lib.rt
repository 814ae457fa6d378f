// What refuses a plan list, head, place and then the stages: the first of grounds 1 to 3 and 5 to 8 that holds. No point is built: ground 8 is tried by
// the stages' extents. The crate word_grounds has the tests of any list.
#![tactic(auto)]

ghost use Rattle.std.specs.Prelude.{◌≡◌, false, not, ◌≤◌, length, drop};
ghost use Rattle.plane.specs.Lists.{any, any_next};
ghost use Rattle.words.specs.Ground.{refused_by, first_of};
ghost use Rattle.words.specs.Word.{stage_mask};
ghost use Rattle.masks.specs.Mask.{stage};
ghost use Rattle.shapes.specs.Shape.{out_of_range};
ghost use Rattle.shapes.specs.Plan.{plan_tests, wrong_plan_kinds, wrong_plan_bits, wrong_count, wrong_place, wrong_masks, plan_masks, plan_points};
ghost use Rattle.plan_grounds.specs.Leaves.{falls};

use words::Ground;

// Ground 2: whether the first word is no head, the second no place, or some other no stage.
fn wrong_kinds(ws: &[u32]) -> bool
    requires { 2 ≤ length ws.now }
    ensures { result ≡ wrong_plan_kinds ws.now }
{
    ws[0] / 0x1000_0000 != 3 || ws[1] / 0x1000_0000 != 4 || word_grounds::wrong_kind(ws, 2, 5)
}

// Ground 3: a head names 8 bits, a place 16, a stage 9.
fn extra_bits(ws: &[u32]) -> bool
    requires { 2 ≤ length ws.now }
    ensures { result ≡ wrong_plan_bits ws.now }
{
    ws[0] % 0x1000_0000 >= 256
        || ws[1] % 0x1000_0000 >= 0x1_0000
        || word_grounds::extra_bit(ws, 2, 512)
}

// Ground 5: whether the head's count isn't the number of words less 2.
fn wrong_count(ws: &[u32]) -> bool
    requires { 2 ≤ length ws.now }
    ensures { result ≡ wrong_count ws.now }
{
    let count = ws[0] % 256;
    count as usize != ws.len() - 2
}

// Ground 6: whether a place field is above 30.
fn wrong_place(ws: &[u32]) -> bool
    requires { 2 ≤ length ws.now }
    ensures { result ≡ wrong_place ws.now }
{
    ws[1] % 256 > 30 || ws[1] / 256 % 256 > 30
}

// Whether some mask is no stage.
fn some_no_stage(ws: &[u32]) -> bool
    ensures { result ≡ any (λ w. not (stage (stage_mask w))) (drop 2 ws.now) }
{
    ws.iter().skip(2).any(|w| !stage_steps::is_stage(w % 512))
}

// Whether some mask is below the mask before.
fn falling(ws: &[u32]) -> bool
    ensures { result ≡ any_next falls (drop 2 ws.now) }
{
    let mut pairs = ws.iter().skip(2).zip(ws.iter().skip(3));
    pairs.any(|(v, w)| w % 512 < v % 512)
}

// Ground 7: whether a mask is no stage, or is below the mask before.
#[tactic(auto, using(crate::proofs::Stages::masks_tried))]
fn wrong_masks(ws: &[u32]) -> bool
    ensures { result ≡ wrong_masks (plan_masks ws.now) }
{
    some_no_stage(ws) || falling(ws)
}

// Ground 8, from the extents of the sum and the place; the masks are stages, so each reaches down to 0.
fn out_of_range(ws: &[u32]) -> bool
    requires { (2 ≤ length ws.now) × (length ws.now ≤ 32) × (wrong_masks (plan_masks ws.now) ≡ false) }
    ensures { result ≡ out_of_range (plan_points ws.now) }
{
    let w = plan_steps::extent(ws, false);
    let h = plan_steps::extent(ws, true);
    w > 15 || h > 15 || ws[1] % 256 + w > 30 || ws[1] / 256 % 256 + h > 30
}

// What refuses a plan list: the first of grounds 1 to 3 and 5 to 8 that holds, each tried over the whole list, or `Ok` where none does.
#[tactic(auto, unfolding(shapes::specs::Plan::plan_tests))]
pub fn plan_refusal(ws: &[u32]) -> Result<(), Ground>
    ensures { refused_by result ≡ first_of (plan_tests ws.now) }
{
    words::tried(word_grounds::wrong_length(ws, 2, 32), Ground::ListLength)?;
    words::tried(wrong_kinds(ws), Ground::WordKind)?;
    words::tried(extra_bits(ws), Ground::ExtraBit)?;
    words::tried(wrong_count(ws), Ground::StageCount)?;
    words::tried(wrong_place(ws), Ground::PlaceField)?;
    words::tried(wrong_masks(ws), Ground::StageMask)?;
    words::tried(out_of_range(ws), Ground::OutOfRange)
}
