// Frames and grids of cells: what they are, the single stage, and what the calls on them promise is in specs/.
#![tactic(auto)]

ghost use Rattle.std.specs.Prelude.{◌≡◌};
ghost use Rattle.grids.specs.Grid.{outside_of};

use words::Ground;

// The two kinds of grid, by what is around the frame in it, and outside it.
#[derive(Clone, Copy, Debug, PartialEq, Eq)]
pub enum Around {
    Free,
    Occupied,
}

impl Around {
    // The value outside the grid, and around the frame in it.
    pub fn outside(self) -> u8
        ensures { result ≡ outside_of self }
    {
        match self {
            Around::Free => 0,
            Around::Occupied => 1,
        }
    }
}

// The load in ten-thousandths of the measured cells: a quotient and a remainder.
#[derive(Clone, Copy, Debug, PartialEq, Eq)]
pub struct Share {
    pub quotient: u32,
    pub remainder: u32,
}

// A share, or the ground that refuses the frame.
pub type ShareAnswer = Result<Share, Ground>;
