// Stages by arithmetic on the mask, with no list of its cells: whether a mask is one, and how far it goes from 0.
#![tactic(auto)]

ghost use Rattle.std.specs.Prelude.{◌≡◌};
ghost use Rattle.masks.specs.Mask.{stage};
ghost use Rattle.stage_steps.specs.Reach.{reach};

// Whether a mask is a stage: row 0 and column 0 have a cell, and it is not the one normal mask of one cell.
#[tactic(auto, using(crate::proofs::Stages::stage_is, crate::proofs::Stages::stage_large))]
pub fn is_stage(mask: u32) -> bool
    ensures { result ≡ stage mask }
{
    mask < 512 && mask % 8 != 0 && mask % 2 + mask / 8 % 2 + mask / 64 % 2 != 0 && mask != 1
}

// How far a mask goes from 0: its last row with a cell where down, else its last column with one.
pub fn reach(mask: u32, down: bool) -> u32
    ensures { result ≡ reach down mask }
{
    let (second, first) = if down {
        (mask >= 64, mask >= 8)
    } else {
        (
            mask / 4 % 2 + mask / 32 % 2 + mask / 256 % 2 > 0,
            mask / 2 % 2 + mask / 16 % 2 + mask / 128 % 2 > 0,
        )
    };
    if second { 2 } else { u32::from(first) }
}
