// Bit planes: definitions and laws, how a stage and a frame's packing are told (Stage, Packing), which sides a plane may have (sides), how many bytes it takes
// (size), and the bit that a level of a cell is (level_bit). What is done with planes is in plane_pack_steps, plane_stage_steps and plane_unpack_steps.
#![tactic(auto)]

ghost use Rattle.std.specs.Prelude.{◌≡◌, ◌<◌, ◌≤◌, ◌⊎◌};
ghost use Rattle.planes.specs.Bits.{level_bit};
ghost use Rattle.planes.specs.Planes.{plane_sides, plane_size, place_of};

use cuts::Sides;

// A stage: its mask, by erosion or by dilation.
#[derive(Clone, Copy)]
pub struct Stage {
    pub mask: u16,
    pub erode: bool,
}

// How a frame is packed: its columns and rows, whether it stands at (15, 15), and whether the level is that cells are not 0.
#[derive(Clone, Copy)]
pub struct Packing {
    pub w: usize,
    pub h: usize,
    pub far: bool,
    pub some: bool,
}

impl Packing {
    // Where the frame's cell (0, 0) stands in the plane: at its own, or at (15, 15).
    pub fn place(self) -> usize
        ensures { result ≡ place_of self.far }
    {
        if self.far { 15 } else { 0 }
    }
}

// Whether planes of these sides are made, with this value outside.
pub fn sides(plane: Sides) -> bool
    ensures { result ≡ plane_sides plane.outside plane.columns plane.rows }
{
    1 <= plane.rows && plane.columns <= 65535 && plane.rows <= 65535 && plane.outside <= 1
}

// The bytes that a plane of these sides takes; 0 of sides past 65,535, of which no plane is made.
pub fn size(plane: Sides) -> usize
    ensures of_a_plane { plane.columns ≤ 65535 → plane.rows ≤ 65535 → result ≡ plane_size plane.columns plane.rows }
    ensures of_others { (65535 < plane.columns) ⊎ (65535 < plane.rows) → result ≡ 0 }
{
    if plane.columns <= 65535 && plane.rows <= 65535 {
        ((plane.rows + 7) / 8 + 2) * (plane.columns + 2) + 2
    } else {
        0
    }
}

// A level of a cell that is 0, 1 or 2: whether it is 1, or, if some, whether it is not 0.
pub fn level_bit(c: u8, some: bool) -> u8
    ensures { (result ≡ level_bit some c) × (result < 2) }
{
    if some { u8::from(c != 0) } else { c % 2 }
}
