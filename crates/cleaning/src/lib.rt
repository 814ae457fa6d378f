// The four operations on a frame and the part that is handed back: what they give and promise is in specs/.
#![tactic(auto)]

ghost use Rattle.std.specs.Prelude.{◌≡◌};
ghost use Rattle.cleaning.specs.Operation.{around};

use grids::Around;

// The four operations.
#[derive(Clone, Copy, Debug, PartialEq, Eq)]
pub enum Operation {
    Dilation,
    Erosion,
    Opening,
    Closing,
}

impl Operation {
    // The kind of grid that it works in: cells outside the frame are occupied for erosion alone.
    pub fn around(self) -> Around
        ensures { result ≡ around self }
    {
        match self {
            Operation::Erosion => Around::Occupied,
            Operation::Dilation | Operation::Opening | Operation::Closing => Around::Free,
        }
    }
}
