// The facets of a column, as text.

ghost use Rattle.std.specs.Prelude.{◌≡◌, ◌<◌, ◌≤◌, ◌++◌, ◌*◌, pos, length, decimal, OnOk, IfOk};
ghost use Rattle.sample_meshes.specs.Meshes.{sign_of, thousandths_text, vertex_text, facet_text, side_text, ring_text, bottom_text, top_text, column_text, texts};

use slice_base::{NoMemory, Pt};
use std::alloc::Global;

// A corner of the column: a point of its outline, at the lower side of a ring.
#[derive(Clone, Copy)]
pub(crate) struct Corner {
    pub(crate) point: usize,
    pub(crate) ring: u32,
}

// µm along one axis.
#[derive(Clone, Copy)]
struct Coordinate {
    microns: i32,
}

fn append(text: &mut Vec<u8>, bytes: &[u8]) -> Result<(), NoMemory>
    ensures { OnOk result (text.new.items ≡ text.old.items ++ bytes.now) }
{
    text.extend_from_slice(bytes)?;
    Ok(())
}

fn sign(at: Coordinate) -> &'static [u8]
    ensures { result.now ≡ sign_of at.microns }
{
    if at.microns < 0 { b"-" } else { b"" }
}

fn append_decimal(text: &mut Vec<u8>, n: u32) -> Result<(), NoMemory>
    ensures { OnOk result (text.new.items ≡ text.old.items ++ decimal n) }
{
    let mut digits = itoa::Buffer::new();
    append(text, digits.format(n).as_bytes())
}

fn append_thousandths(text: &mut Vec<u8>, at: Coordinate) -> Result<(), NoMemory>
    ensures { OnOk result (text.new.items ≡ text.old.items ++ thousandths_text at.microns) }
{
    append(text, b" ")?;
    append(text, sign(at))?;
    append_decimal(text, at.microns.unsigned_abs())?;
    append(text, b"e-3")
}

fn across(p: Pt) -> Coordinate
    ensures { result.microns ≡ p.x }
{
    Coordinate { microns: p.x }
}

fn along(p: Pt) -> Coordinate
    ensures { result.microns ≡ p.y }
{
    Coordinate { microns: p.y }
}

fn height(ring: u32) -> Coordinate
    requires { ring ≤ 400 }
    ensures { result.microns ≡ pos (150 * ring) }
{
    Coordinate {
        microns: (150 * ring) as i32,
    }
}

#[tactic(auto, unfolding(crate::specs::Meshes::vertex_at))]
fn append_vertex(text: &mut Vec<u8>, outline: &[Pt], corner: Corner) -> Result<(), NoMemory>
    requires point { corner.point < length outline.now }
    requires ring { corner.ring ≤ 400 }
    ensures { OnOk result (text.new.items ≡ text.old.items ++ vertex_text outline.now corner) }
{
    let p = outline[corner.point];
    append(text, b"vertex")?;
    append_thousandths(text, across(p))?;
    append_thousandths(text, along(p))?;
    append_thousandths(text, height(corner.ring))?;
    append(text, b"\n")
}

#[tactic(auto, unfolding(crate::specs::Meshes::facet_text))]
fn append_facet(
    text: &mut Vec<u8>,
    outline: &[Pt],
    a: Corner,
    b: Corner,
    c: Corner,
) -> Result<(), NoMemory>
    requires points { (a.point < length outline.now) × (b.point < length outline.now) × (c.point < length outline.now) }
    requires rings { (a.ring ≤ 400) × (b.ring ≤ 400) × (c.ring ≤ 400) }
    ensures { OnOk result (text.new.items ≡ text.old.items ++ facet_text outline.now a b c) }
{
    append(text, b"facet normal 0 0 0\nouter loop\n")?;
    append_vertex(text, outline, a)?;
    append_vertex(text, outline, b)?;
    append_vertex(text, outline, c)?;
    append(text, b"endloop\nendfacet\n")
}

fn corner_at(point: usize, ring: u32) -> Corner
    ensures { result ≡ record { point = point; ring = ring } }
{
    Corner { point, ring }
}

// The two facets of side j of ring k.
fn append_side(text: &mut Vec<u8>, outline: &[Pt], k: u32, j: usize) -> Result<(), NoMemory>
    requires points { length outline.now ≡ 64 }
    requires ring { k < 400 }
    requires side { j < 64 }
    ensures { OnOk result (text.new.items ≡ text.old.items ++ side_text outline.now k j) }
{
    let next = (j + 1) % 64;
    append_facet(
        text,
        outline,
        corner_at(j, k),
        corner_at(next, k),
        corner_at(next, k + 1),
    )?;
    append_facet(
        text,
        outline,
        corner_at(j, k),
        corner_at(next, k + 1),
        corner_at(j, k + 1),
    )
}

#[tactic(auto, using(crate::proofs::Texts::texts_none, crate::proofs::Texts::texts_more))]
fn append_ring(text: &mut Vec<u8>, outline: &[Pt], k: u32) -> Result<(), NoMemory>
    requires points { length outline.now ≡ 64 }
    requires ring { k < 400 }
    ensures { OnOk result (text.new.items ≡ text.old.items ++ ring_text outline.now k) }
{
    'sides: for j in 0..64 {
        append_side(text, outline, k, j)?;
    }
    Ok(())
}

#[tactic(auto, using(crate::proofs::Texts::texts_none, crate::proofs::Texts::texts_more))]
fn append_rings(text: &mut Vec<u8>, outline: &[Pt]) -> Result<(), NoMemory>
    requires points { length outline.now ≡ 64 }
    ensures { OnOk result (text.new.items ≡ text.old.items ++ texts (ring_text outline.now) 400) }
{
    'rings: for k in 0..400 {
        append_ring(text, outline, k)?;
    }
    Ok(())
}

#[tactic(auto, using(crate::proofs::Texts::texts_none, crate::proofs::Texts::texts_more))]
fn append_bottom(text: &mut Vec<u8>, outline: &[Pt]) -> Result<(), NoMemory>
    requires points { length outline.now ≡ 64 }
    ensures { OnOk result (text.new.items ≡ text.old.items ++ texts (bottom_text outline.now) 62) }
{
    'facets: for j in 0..62 {
        append_facet(
            text,
            outline,
            corner_at(0, 0),
            corner_at(j + 2, 0),
            corner_at(j + 1, 0),
        )?;
    }
    Ok(())
}

#[tactic(auto, using(crate::proofs::Texts::texts_none, crate::proofs::Texts::texts_more))]
fn append_top(text: &mut Vec<u8>, outline: &[Pt]) -> Result<(), NoMemory>
    requires points { length outline.now ≡ 64 }
    ensures { OnOk result (text.new.items ≡ text.old.items ++ texts (top_text outline.now) 62) }
{
    'facets: for j in 0..62 {
        append_facet(
            text,
            outline,
            corner_at(0, 400),
            corner_at(j + 1, 400),
            corner_at(j + 2, 400),
        )?;
    }
    Ok(())
}

// The text of the column over an outline.
pub(crate) fn column(alloc: Global, outline: &[Pt]) -> Result<Vec<u8>, NoMemory>
    requires points { length outline.now ≡ 64 }
    ensures { IfOk result (λ text. text.items ≡ column_text outline.now) }
{
    let mut text = Vec::new(alloc);
    append(&mut text, b"solid sample\n")?;
    append_rings(&mut text, outline)?;
    append_bottom(&mut text, outline)?;
    append_top(&mut text, outline)?;
    append(&mut text, b"endsolid sample\n")?;
    Ok(text)
}
