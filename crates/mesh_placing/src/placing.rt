// Putting a mesh into its place in the volume of the machine.

ghost use Rattle.std.specs.Prelude.{◌≡◌, ◌<◌, ◌≤◌, ◌^◌, ◌↔◌, ◌+ℤ◌, ◌-ℤ◌, ◌≤ℤ◌, ℕ, pos, length, map, OnOk, OnErr};
ghost use Rattle.std.specs.Int.RustNames.{unsigned_abs};
ghost use Rattle.std.specs.List.{All, position, slice_get};
ghost use Rattle.slice_base.specs.Boxes.{TriIn, TriOver, TriUnder};
ghost use Rattle.mesh_placing.specs.Extents.{extent_of, lower, stretched, upper};
ghost use Rattle.mesh_placing.specs.Inner.Moves.{AreMovedInside, IsMovedInside, IsShorter, shifted};
ghost use Rattle.mesh_placing.specs.Places.{centred, centring, middle_of, moved, moved_corner, placed, shift_of, to_middle};
ghost use Rattle.mesh_placing.specs.Volume.{bed_of, excess_of, excess_on, first_outside, further, is_inside, is_within, leaves, reach};

use settings_core::{MeshSettings, Settings};
use slice_base::{Pt3, Tri};

/// A side of the volume, as seen from the front.
#[derive(Clone, Copy, PartialEq, Eq, Debug)]
pub enum Side {
    /// Where x is 0.
    Left,
    /// Where x is the machine's width.
    Right,
    /// Where y is 0.
    Front,
    /// Where y is the machine's depth.
    Back,
    /// Where z is 0: the bed.
    Below,
    /// Where z is the machine's height.
    Above,
}

/// How far a mesh reaches out of the volume.
#[derive(Clone, Copy, PartialEq, Eq, Debug)]
pub struct Excess {
    /// The side on which it reaches out.
    pub side: Side,
    /// How far, in µm.
    pub by: i64,
}

/// A mesh that doesn't lie in the volume.
#[derive(Clone, Copy, PartialEq, Eq, Debug)]
pub struct OutsideVolume {
    /// The first triangle with a corner outside the volume, counted from 0.
    pub triangle: u32,
    /// Where the mesh reaches out furthest.
    pub excess: Excess,
}

// The least and the greatest coordinates of corners, in µm.
#[derive(Clone, Copy)]
pub(crate) struct Extent {
    pub(crate) low: Pt3,
    pub(crate) high: Pt3,
}

// How far a mesh is moved, in µm.
#[derive(Clone, Copy)]
pub(crate) struct Shift {
    pub(crate) x: i64,
    pub(crate) y: i64,
    pub(crate) z: i64,
}

fn lower(p: Pt3, q: Pt3) -> Pt3
    ensures { result ≡ lower p q }
{
    Pt3 {
        x: p.x.min(q.x),
        y: p.y.min(q.y),
        z: p.z.min(q.z),
    }
}

fn upper(p: Pt3, q: Pt3) -> Pt3
    ensures { result ≡ upper p q }
{
    Pt3 {
        x: p.x.max(q.x),
        y: p.y.max(q.y),
        z: p.z.max(q.z),
    }
}

impl Extent {
    fn stretched(self, p: Pt3) -> Extent
        ensures { result ≡ stretched self p }
    {
        Extent {
            low: lower(self.low, p),
            high: upper(self.high, p),
        }
    }
}

fn extent_of(tris: &[Tri]) -> Extent
    ensures { result ≡ extent_of tris.now }
{
    if tris.is_empty() {
        let origin = Pt3 { x: 0, y: 0, z: 0 };
        return Extent {
            low: origin,
            high: origin,
        };
    }
    let first = tris[0].a;
    let mut found = Extent {
        low: first,
        high: first,
    };
    for t in tris {
        found = found.stretched(t.a).stretched(t.b).stretched(t.c);
    }
    found
}

// The middle of two coordinates, rounded down.
fn middle(low: i32, high: i32) -> i64
    ensures exact { result ≡ middle_of low high }
    ensures small { unsigned_abs result ≤ 2 ^ 31 }
{
    (i64::from(low) + i64::from(high)).div_euclid(2)
}

// From the middle of two coordinates, rounded down, to the middle of a size.
fn to_middle(size: u32, low: i32, high: i32) -> i64
    requires { size ≤ 1000000 }
    ensures exact { result ≡ to_middle size low high }
    ensures small { unsigned_abs result < 2 ^ 32 }
{
    i64::from(size / 2) - middle(low, high)
}

// The shift into the middle of the bed and down onto it.
fn centring(settings: &Settings, extent: Extent) -> Shift
    ensures exact { result ≡ centring settings.now extent }
    ensures short { IsShorter result (2 ^ 32) }
{
    Shift {
        x: to_middle(settings.machine_width, extent.low.x, extent.high.x),
        y: to_middle(settings.machine_depth, extent.low.y, extent.high.y),
        z: 0 - i64::from(extent.low.z),
    }
}

// The same where the mesh is to be centred, else none.
fn centred(settings: &Settings, mesh: &MeshSettings, tris: &[Tri]) -> Shift
    ensures exact { result ≡ centred settings.now mesh.now tris.now }
    ensures short { IsShorter result (2 ^ 32) }
{
    if mesh.center_object {
        centring(settings, extent_of(tris))
    } else {
        Shift { x: 0, y: 0, z: 0 }
    }
}

fn shift_of(settings: &Settings, mesh: &MeshSettings, tris: &[Tri]) -> Shift
    ensures exact { result ≡ shift_of settings.now mesh.now tris.now }
    ensures short { IsShorter result (2 ^ 33) }
{
    let by = centred(settings, mesh, tris);
    Shift {
        x: by.x + i64::from(mesh.mesh_position_x),
        y: by.y + i64::from(mesh.mesh_position_y),
        z: by.z + i64::from(mesh.mesh_position_z),
    }
}

// A coordinate, moved.
fn moved_by(from: i32, by: i64) -> i64
    requires { unsigned_abs by < 2 ^ 33 }
    ensures { result ≡ from +ℤ by }
{
    i64::from(from) + by
}

// Whether a coordinate, moved, lies from 0 to a size.
fn is_within(size: u32, from: i32, by: i64) -> bool
    requires { unsigned_abs by < 2 ^ 33 }
    ensures { result ≡ is_within size (from +ℤ by) }
{
    let at = moved_by(from, by);
    0 <= at && at <= i64::from(size)
}

fn is_inside(settings: &Settings, p: Pt3, by: Shift) -> bool
    requires { IsShorter by (2 ^ 33) }
    ensures { result ≡ is_inside settings.now (moved_corner by p) }
{
    if !is_within(settings.machine_width, p.x, by.x) {
        return false;
    }
    if !is_within(settings.machine_depth, p.y, by.y) {
        return false;
    }
    is_within(settings.machine_height, p.z, by.z)
}

// Whether a corner of the triangle, moved, lies outside the volume.
fn leaves(settings: &Settings, t: Tri, by: Shift) -> bool
    requires { IsShorter by (2 ^ 33) }
    ensures { result ≡ leaves settings.now (moved by t) }
{
    if !is_inside(settings, t.a, by) {
        return true;
    }
    if !is_inside(settings, t.b, by) {
        return true;
    }
    !is_inside(settings, t.c, by)
}

fn first_leaving(settings: &Settings, tris: &[Tri], by: Shift) -> Option<usize>
    requires { IsShorter by (2 ^ 33) }
    ensures { result ≡ position (λ t. leaves settings.now (moved by t)) tris.now }
{
    tris.iter().position(|t| leaves(settings, *t, by))
}

// How far a coordinate, moved, lies under 0.
fn under_start(from: i32, by: i64) -> i64
    requires { unsigned_abs by < 2 ^ 33 }
    ensures { result ≡ pos 0 -ℤ (from +ℤ by) }
{
    0 - moved_by(from, by)
}

// How far a coordinate, moved, lies over a size.
fn over_end(size: u32, from: i32, by: i64) -> i64
    requires { unsigned_abs by < 2 ^ 33 }
    ensures { result ≡ (from +ℤ by) -ℤ pos size }
{
    moved_by(from, by) - i64::from(size)
}

fn further(p: Excess, q: Excess) -> Excess
    ensures { result ≡ further p q }
{
    if q.by <= p.by { p } else { q }
}

// How far an extent, moved, reaches out on a side.
fn reach(settings: &Settings, extent: Extent, by: Shift, side: Side) -> i64
    requires { IsShorter by (2 ^ 33) }
    ensures { result ≡ reach settings.now (shifted by extent) side }
{
    match side {
        Side::Left => under_start(extent.low.x, by.x),
        Side::Right => over_end(settings.machine_width, extent.high.x, by.x),
        Side::Front => under_start(extent.low.y, by.y),
        Side::Back => over_end(settings.machine_depth, extent.high.y, by.y),
        Side::Below => under_start(extent.low.z, by.z),
        Side::Above => over_end(settings.machine_height, extent.high.z, by.z),
    }
}

fn excess_on(settings: &Settings, extent: Extent, by: Shift, side: Side) -> Excess
    requires { IsShorter by (2 ^ 33) }
    ensures { result ≡ excess_on settings.now (shifted by extent) side }
{
    Excess {
        side,
        by: reach(settings, extent, by, side),
    }
}

// Where an extent, moved, reaches out furthest.
fn excess_of(settings: &Settings, extent: Extent, by: Shift) -> Excess
    requires { IsShorter by (2 ^ 33) }
    ensures { result ≡ excess_of settings.now (shifted by extent) }
{
    let left = excess_on(settings, extent, by, Side::Left);
    let right = excess_on(settings, extent, by, Side::Right);
    let front = excess_on(settings, extent, by, Side::Front);
    let back = excess_on(settings, extent, by, Side::Back);
    let below = excess_on(settings, extent, by, Side::Below);
    let above = excess_on(settings, extent, by, Side::Above);
    let aside = further(left, right);
    let level = further(further(aside, front), back);
    further(further(level, below), above)
}

// A coordinate, moved, of a corner in the volume.
fn moved_within(from: i32, by: i64) -> i32
    requires short { unsigned_abs by < 2 ^ 33 }
    requires low { pos 0 ≤ℤ (from +ℤ by) }
    requires high { (from +ℤ by) ≤ℤ pos 1000000 }
    ensures { result ≡ from +ℤ by }
{
    moved_by(from, by) as i32
}

fn moved_corner(p: Pt3, by: Shift) -> Pt3
    requires short { IsShorter by (2 ^ 33) }
    requires inside { IsMovedInside by p }
    ensures { result ≡ moved_corner by p }
{
    Pt3 {
        x: moved_within(p.x, by.x),
        y: moved_within(p.y, by.y),
        z: moved_within(p.z, by.z),
    }
}

fn moved(t: Tri, by: Shift) -> Tri
    requires short { IsShorter by (2 ^ 33) }
    requires inside { AreMovedInside by t }
    ensures { result ≡ moved by t }
{
    Tri {
        a: moved_corner(t.a, by),
        b: moved_corner(t.b, by),
        c: moved_corner(t.c, by),
    }
}

fn move_all(tris: &mut [Tri], by: Shift)
    requires short { IsShorter by (2 ^ 33) }
    requires inside { All (AreMovedInside by) tris.old }
    ensures { tris.new ≡ map (moved by) tris.old }
{
    for t in tris.iter_mut() {
        *t = moved(*t, by);
    }
}

fn mesh_settings(settings: &Settings, mesh: u8) -> MeshSettings
    requires { mesh < length settings.now.meshes }
    ensures { slice_get settings.now.meshes mesh ≡ Some result }
{
    settings.meshes.items()[mesh as usize]
}

/// Moves a mesh to its place: with `center_object` into the middle of the bed and down onto it, and then
/// by its position. `mesh` is its number in the settings, from 0. It has to lie in the volume then, ends
/// included: where a corner doesn't, all triangles stay as they were. A mesh without triangles stays too.
pub fn put_in_place(tris: &mut [Tri], settings: &Settings, mesh: u8) -> Result<(), OutsideVolume>
    requires known { mesh < length settings.now.meshes }
    requires counted { length tris.old < 2 ^ 32 }
    ensures outside { let ts = placed settings.now mesh tris.old in (n : ℕ) (e : Excess)
        → (result ≡ Err (record { triangle = n; excess = e }))
        ↔ ((first_outside settings.now ts ≡ Some n) × (e ≡ excess_of settings.now (extent_of ts))) }
    ensures moved { OnOk result (tris.new ≡ placed settings.now mesh tris.old) }
    ensures inside { OnOk result (first_outside settings.now (placed settings.now mesh tris.old) ≡ None) }

    // What that says of each corner.
    ensures on_bed { OnOk result (All (TriIn (bed_of settings.now)) tris.new) }
    ensures over_bed { OnOk result (All (TriOver (pos 0)) tris.new) }
    ensures under_top { OnOk result (All (TriUnder (pos settings.now.machine_height)) tris.new) }
    ensures unmoved { OnErr result (tris.new ≡ tris.old) }
{
    // Read so that the bounds of the settings are known here.
    let _bounded = settings.machine_width;
    let own = mesh_settings(settings, mesh);
    let by = shift_of(settings, &own, tris);
    match first_leaving(settings, tris, by) {
        Some(triangle) => Err(OutsideVolume {
            triangle: triangle as u32,
            excess: excess_of(settings, extent_of(tris), by),
        }),
        None => {
            move_all(tris, by);
            Ok(())
        }
    }
}
