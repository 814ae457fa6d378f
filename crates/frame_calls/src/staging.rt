// A grid through a stage by planes: one where all its cells were measured, else two that have both levels of it.
ghost use Rattle.std.specs.Prelude.{◌≡◌, ◌+◌, ◌≤◌, length, replicate};
ghost use Rattle.grids.specs.Grid.{once, written};
ghost use Rattle.planes.specs.Planes.{plane_size};
ghost use Rattle.frame_calls.specs.Staging.{StageReady, GridMeasured, PlanesReady, LevelTaken, SecondTaken, LevelsTaken};

use cuts::{Part, Sides};
use grids::Around;
use planes::{Packing, Stage};

// The sides of a frame, the stage that its grid is taken through, and the kind of that grid.
#[derive(Clone, Copy)]
pub(crate) struct Staging {
    pub(crate) w: usize,
    pub(crate) h: usize,
    pub(crate) stage: Stage,
    pub(crate) around: Around,
}

// One level of a grid through the stage: it is packed into a plane in the image that will be written, which has room for it, and taken through the stage into a
// plane lent for that.
fn level(from: &[u8], to: &mut [u8], plane: &mut [u8], s: Staging, some: bool)
    requires { StageReady s.w s.h from.now to.old × (plane_size (s.w + 15) (s.h + 15) ≤ length plane.old) }
    ensures { LevelTaken some s.stage.erode s.around s.w s.h s.stage.mask from.now to.old plane.old to.new plane.new }
{
    let sides = Sides {
        columns: s.w + 15,
        rows: s.h + 15,
        outside: put_calls::outside(s.around),
    };
    let whole = Packing {
        w: s.w + 15,
        h: s.h + 15,
        far: false,
        some,
    };
    plane_pack_steps::pack(from, to, whole, sides);
    plane_stage_steps::stage(to, plane, sides, s.stage);
}

// The second level, into a plane from byte o on.
fn second_level(from: &[u8], to: &mut [u8], plane: &mut [u8], s: Staging, o: usize)
    requires { StageReady s.w s.h from.now to.old × (o + plane_size (s.w + 15) (s.h + 15) ≤ length plane.old) }
    ensures { SecondTaken o s.stage.erode s.around s.w s.h s.stage.mask from.now to.old plane.old to.new
        plane.new }
{
    level(from, to, &mut plane[o..], s, true);
}

// One level, and the second where there are two planes.
fn levels(from: &[u8], to: &mut [u8], plane: &mut [u8], s: Staging, o: usize)
    requires { StageReady s.w s.h from.now to.old × PlanesReady o s.w s.h from.now plane.old }
    ensures { LevelsTaken o s.stage.erode s.around s.w s.h s.stage.mask from.now to.old plane.old to.new
        plane.new }
{
    level(from, to, plane, s, false);
    if o != 0 {
        second_level(from, to, plane, s, o);
    }
}

// The stage, and the grid written from the planes over all that was packed.
fn by_planes(from: &[u8], to: &mut [u8], plane: &mut [u8], s: Staging, o: usize)
    requires { StageReady s.w s.h from.now to.old × PlanesReady o s.w s.h from.now plane.old }
    ensures { to.new ≡ written s.w s.h (once s.stage.erode s.around s.w s.h s.stage.mask from.now) to.old }
{
    levels(from, to, plane, s, o);
    let sides = Sides {
        columns: s.w + 15,
        rows: s.h + 15,
        outside: put_calls::outside(s.around),
    };
    let whole = Part {
        w: s.w + 15,
        h: s.h + 15,
        a: 15,
        b: 15,
    };
    plane_unpack_steps::unpack(plane, to, whole, sides, o);
}

// The same, with N bytes of its own for the planes.
fn with_planes<const N: usize>(from: &[u8], to: &mut [u8], s: Staging, o: usize)
    requires { StageReady s.w s.h from.now to.old × PlanesReady o s.w s.h from.now (replicate N 0) × (N ≤ 65535) }
    ensures { to.new ≡ written s.w s.h (once s.stage.erode s.around s.w s.h s.stage.mask from.now) to.old }
{
    let mut planes: [u8; N] = [0; N];
    by_planes(from, to, &mut planes, s, o);
}

// A grid all of whose cells were measured. The longest plane is that of 255 columns and rows; frames of at most 64 columns and rows have shorter ones, so that
// less is cleared.
pub(crate) fn by_one(from: &[u8], to: &mut [u8], s: Staging)
    requires { StageReady s.w s.h from.now to.old × GridMeasured s.w s.h from.now }
    ensures { to.new ≡ written s.w s.h (once s.stage.erode s.around s.w s.h s.stage.mask from.now) to.old }
{
    if s.w <= 64 && s.h <= 64 {
        with_planes::<974>(from, to, s, 0);
    } else {
        with_planes::<8740>(from, to, s, 0);
    }
}

// A grid with cells that were not measured: two planes.
pub(crate) fn by_two(from: &[u8], to: &mut [u8], s: Staging)
    requires { StageReady s.w s.h from.now to.old }
    ensures { to.new ≡ written s.w s.h (once s.stage.erode s.around s.w s.h s.stage.mask from.now) to.old }
{
    if s.w <= 64 && s.h <= 64 {
        with_planes::<1948>(from, to, s, 974);
    } else {
        with_planes::<17480>(from, to, s, 8740);
    }
}
