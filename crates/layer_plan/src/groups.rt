// The groups that an extruder prints on a layer.

ghost use Rattle.std.specs.Prelude.{◌≡◌, ◌<◌, ◌≤◌, take, drop, IfOk};
ghost use Rattle.std.specs.List.{All};
ghost use Rattle.plan_types.specs.Areas.{IsLoop};
ghost use Rattle.layer_plan.specs.Groups.{skin_angle, fill_angle, pen_of, inner_walls, outer_wall, skin_lines, fill_lines, skirt_group};
ghost use Rattle.layer_plan.specs.Inner.Sound.{IsSheet, IsGroup, IsPen};

use crate::pieces::{lines_of, loops_of_all, push_loops};
use infill_lines::{Angle, fill};
use path_order::Piece;
use plan_types::{Kind, MeshAreas};
use settings_core::{MeshSettings, Seam};
use slice_base::{Items, NoMemory, Region};
use std::alloc::Global;

/// What a path prints, and how: the width and the height of its line in µm, its speed in µm/s.
#[derive(Clone, Copy)]
pub(crate) struct Pen {
    pub(crate) kind: Kind,
    pub(crate) width: i32,
    pub(crate) thickness: i32,
    pub(crate) speed: u32,
}

/// Pieces that are visited in one order.
#[derive(Drop)]
pub(crate) struct Group {
    pub(crate) pieces: Items<Piece>,
    pub(crate) seam: Seam,
    pub(crate) pen: Pen,
}

/// The number and the height of a layer, the height in µm.
#[derive(Clone, Copy)]
pub(crate) struct Sheet {
    pub(crate) number: u32,
    pub(crate) thickness: i32,
}

fn pen_of(sheet: Sheet, m: &MeshSettings, kind: Kind, speed: u32) -> Pen
    requires sheet { IsSheet sheet }
    requires some { 1 ≤ speed }
    requires not_fast { speed ≤ 1000000 }
    ensures exact { result ≡ pen_of sheet m.now kind speed }
    ensures pen { IsPen result }
{
    Pen {
        kind,
        width: m.wall_line_width as i32,
        thickness: sheet.thickness,
        speed,
    }
}

fn behind_first(walls: &[Region]) -> &[Region]
    ensures { result.now ≡ drop 1 walls.now }
{
    match walls {
        [] => walls,
        [_, rest @ ..] => rest,
    }
}

fn first_alone(walls: &[Region]) -> &[Region]
    ensures { result.now ≡ take 1 walls.now }
{
    if walls.is_empty() { walls } else { &walls[..1] }
}

fn skin_angle(sheet: Sheet) -> Angle
    ensures { result ≡ skin_angle sheet }
{
    if sheet.number % 2 == 0 {
        Angle::A0
    } else {
        Angle::A90
    }
}

fn fill_angle(sheet: Sheet) -> Angle
    ensures { result ≡ fill_angle sheet }
{
    if sheet.number % 2 == 0 {
        Angle::A45
    } else {
        Angle::A135
    }
}

/// The loops of walls 1 and up.
pub(crate) fn inner_walls(
    alloc: Global,
    sheet: Sheet,
    m: &MeshSettings,
    areas: &MeshAreas,
) -> Result<Group, NoMemory>
    requires sheet { IsSheet sheet }
    ensures exact { IfOk result (λ g. g ≡ inner_walls sheet m.now areas.now) }
    ensures group { IfOk result IsGroup }
{
    Ok(Group {
        pieces: loops_of_all(alloc, behind_first(areas.walls.items()))?,
        seam: m.z_seam_type,
        pen: pen_of(sheet, m, Kind::WallInner, m.speed_wall_x),
    })
}

/// The loops of wall 0.
pub(crate) fn outer_wall(
    alloc: Global,
    sheet: Sheet,
    m: &MeshSettings,
    areas: &MeshAreas,
) -> Result<Group, NoMemory>
    requires sheet { IsSheet sheet }
    ensures exact { IfOk result (λ g. g ≡ outer_wall sheet m.now areas.now) }
    ensures group { IfOk result IsGroup }
{
    Ok(Group {
        pieces: loops_of_all(alloc, first_alone(areas.walls.items()))?,
        seam: m.z_seam_type,
        pen: pen_of(sheet, m, Kind::WallOuter, m.speed_wall_0),
    })
}

/// The lines of skin.
pub(crate) fn skin_lines(
    alloc: Global,
    sheet: Sheet,
    m: &MeshSettings,
    areas: &MeshAreas,
) -> Result<Group, NoMemory>
    requires sheet { IsSheet sheet }
    ensures exact { IfOk result (λ g. g ≡ skin_lines sheet m.now areas.now) }
    ensures group { IfOk result IsGroup }
{
    let angle = skin_angle(sheet);
    let lines = fill(alloc, &areas.skin, angle, m.wall_line_width as i32, 0)?;
    Ok(Group {
        pieces: lines_of(alloc, lines.as_slice())?,
        seam: m.z_seam_type,
        pen: pen_of(sheet, m, Kind::Skin, m.speed_topbottom),
    })
}

/// The lines of infill.
pub(crate) fn fill_lines(
    alloc: Global,
    sheet: Sheet,
    m: &MeshSettings,
    areas: &MeshAreas,
) -> Result<Group, NoMemory>
    requires sheet { IsSheet sheet }
    requires some { 0 < m.now.infill_line_distance }
    ensures exact { IfOk result (λ g. g ≡ fill_lines sheet m.now areas.now) }
    ensures group { IfOk result IsGroup }
{
    let angle = fill_angle(sheet);
    let lines = fill(alloc, &areas.fill, angle, m.infill_line_distance as i32, 0)?;
    Ok(Group {
        pieces: lines_of(alloc, lines.as_slice())?,
        seam: m.z_seam_type,
        pen: pen_of(sheet, m, Kind::Fill, m.speed_infill),
    })
}

/// The loops of the skirt.
pub(crate) fn skirt_group(
    alloc: Global,
    sheet: Sheet,
    m: &MeshSettings,
    skirt: &Region,
) -> Result<Group, NoMemory>
    requires sheet { IsSheet sheet }
    requires loops { All (IsLoop 1600000) skirt.now }
    ensures exact { IfOk result (λ g. g ≡ skirt_group sheet m.now skirt.now) }
    ensures group { IfOk result IsGroup }
{
    let mut pieces = Items::new(alloc);
    push_loops(alloc, &mut pieces, skirt)?;
    Ok(Group {
        pieces,
        seam: Seam::Shortest,
        pen: pen_of(sheet, m, Kind::Skirt, m.speed_wall_x),
    })
}
