// The plan of a layer.

ghost use Rattle.std.specs.Prelude.{◌≡◌, ◌<◌, ◌≤◌, ◌==◌, ◌&&◌, [], cond, length, unsigned_abs, IfOk, OnOk, true};
ghost use Rattle.std.specs.List.{All};
ghost use Rattle.slice_base.specs.Plane.{InSquare};
ghost use Rattle.plan_types.specs.Extruders.{extruder_of};
ghost use Rattle.plan_types.specs.Plans.{EachOnce};
ghost use Rattle.plan_types.specs.Jobs.{IsLayer, Names};
ghost use Rattle.layer_plan.specs.Groups.{mesh_groups, groups_of_meshes, skirt_groups};
ghost use Rattle.layer_plan.specs.Drawing.{with_groups};
ghost use Rattle.layer_plan.specs.Plan.{drawn, drawn_plans, drawn_layer, plan_of};
ghost use Rattle.layer_plan.specs.Inner.Sound.{IsSheet, IsDrawing, AreDrawn};

use crate::counting::{MOVES, count_moves};
use crate::drawing::{Drawing, draw_group};
use crate::groups::{Sheet, fill_lines, inner_walls, outer_wall, skin_lines, skirt_group};
use plan_types::{ExtruderPlan, Inserts, Job, LayerAreas, LayerPlan, MeshAreas};
use settings_core::{ExtruderSettings, MeshSettings, Settings};
use slice_base::{Items, NoMemory, Pt, Region};
use std::alloc::Global;
use time_cool::{fan, slow_down};

fn extruder_of(settings: &Settings, number: u8) -> &ExtruderSettings
    requires { number < length settings.now.extruders }
    ensures { result.now ≡ extruder_of settings.now.extruders number }
{
    &settings.extruders.items()[number as usize]
}

fn draw_mesh(
    alloc: Global,
    e: &ExtruderSettings,
    sheet: Sheet,
    m: &MeshSettings,
    areas: &MeshAreas,
    drawing: &mut Drawing,
) -> Result<(), NoMemory>
    requires sheet { IsSheet sheet }
    requires drawing { IsDrawing drawing.old }
    ensures exact { OnOk result (drawing.new ≡ with_groups e.now drawing.old (mesh_groups sheet m.now areas.now)) }
    ensures drawing { IsDrawing drawing.new }
{
    draw_group(alloc, e, &inner_walls(alloc, sheet, m, areas)?, drawing)?;
    draw_group(alloc, e, &outer_wall(alloc, sheet, m, areas)?, drawing)?;
    draw_group(alloc, e, &skin_lines(alloc, sheet, m, areas)?, drawing)?;
    if m.infill_line_distance > 0 {
        draw_group(alloc, e, &fill_lines(alloc, sheet, m, areas)?, drawing)?;
    }
    Ok(())
}

fn draw_mesh_if(
    alloc: Global,
    e: &ExtruderSettings,
    number: u8,
    sheet: Sheet,
    m: &MeshSettings,
    areas: &MeshAreas,
    drawing: &mut Drawing,
) -> Result<(), NoMemory>
    requires sheet { IsSheet sheet }
    requires drawing { IsDrawing drawing.old }
    ensures exact { OnOk result (drawing.new ≡ with_groups e.now drawing.old
        (cond (m.now.extruder_nr == number) (mesh_groups sheet m.now areas.now) [])) }
    ensures drawing { IsDrawing drawing.new }
{
    if m.extruder_nr == u32::from(number) {
        draw_mesh(alloc, e, sheet, m, areas, drawing)
    } else {
        Ok(())
    }
}

fn draw_meshes(
    alloc: Global,
    e: &ExtruderSettings,
    number: u8,
    sheet: Sheet,
    meshes: &[MeshSettings],
    areas: &[MeshAreas],
    drawing: &mut Drawing,
) -> Result<(), NoMemory>
    requires sheet { IsSheet sheet }
    requires same { length areas.now ≡ length meshes.now }
    requires drawing { IsDrawing drawing.old }
    ensures exact { OnOk result (drawing.new ≡ with_groups e.now drawing.old
        (groups_of_meshes sheet number meshes.now areas.now)) }
    ensures drawing { IsDrawing drawing.new }
{
    for i in 0..meshes.len() {
        draw_mesh_if(alloc, e, number, sheet, &meshes[i], &areas[i], drawing)?;
    }
    Ok(())
}

fn draw_skirt(
    alloc: Global,
    e: &ExtruderSettings,
    sheet: Sheet,
    job: &Job,
    drawing: &mut Drawing,
) -> Result<(), NoMemory>
    requires sheet { IsSheet sheet }
    requires drawing { IsDrawing drawing.old }
    ensures exact { OnOk result (drawing.new ≡ with_groups e.now drawing.old
        (skirt_groups sheet job.now.settings.meshes job.now.skirt)) }
    ensures drawing { IsDrawing drawing.new }
{
    match job.settings.meshes.items() {
        [] => Ok(()),
        [m, ..] => draw_group(
            alloc,
            e,
            &skirt_group(alloc, sheet, m, &job.skirt)?,
            drawing,
        ),
    }
}

fn draw_skirt_if(
    alloc: Global,
    e: &ExtruderSettings,
    sheet: Sheet,
    is_first: bool,
    job: &Job,
    drawing: &mut Drawing,
) -> Result<(), NoMemory>
    requires sheet { IsSheet sheet }
    requires drawing { IsDrawing drawing.old }
    ensures exact { OnOk result (drawing.new ≡ with_groups e.now drawing.old
        (cond (sheet.number == 0 && is_first) (skirt_groups sheet job.now.settings.meshes job.now.skirt) [])) }
    ensures drawing { IsDrawing drawing.new }
{
    if sheet.number == 0 && is_first {
        draw_skirt(alloc, e, sheet, job, drawing)
    } else {
        Ok(())
    }
}

fn draw_extruder(
    alloc: Global,
    job: &Job,
    sheet: Sheet,
    areas: &[MeshAreas],
    is_first: bool,
    at: Pt,
    number: u8,
) -> Result<Drawing, NoMemory>
    requires sheet { IsSheet sheet }
    requires same { length areas.now ≡ length job.now.settings.meshes }
    requires known { number < length job.now.settings.extruders }
    requires at_in { InSquare 1700000 at }
    ensures exact { IfOk result (λ d. d ≡ drawn job.now sheet areas.now is_first at number) }
    ensures drawing { IfOk result IsDrawing }
{
    let e = extruder_of(&job.settings, number);
    let mut drawing = Drawing {
        at,
        paths: Items::new(alloc),
    };
    draw_skirt_if(alloc, e, sheet, is_first, job, &mut drawing)?;
    draw_meshes(
        alloc,
        e,
        number,
        sheet,
        job.settings.meshes.items(),
        areas,
        &mut drawing,
    )?;
    Ok(drawing)
}

fn drawn_plans(
    alloc: Global,
    job: &Job,
    sheet: Sheet,
    areas: &[MeshAreas],
    start: Pt,
    extruders: &[u8],
) -> Result<Items<ExtruderPlan>, NoMemory>
    requires sheet { IsSheet sheet }
    requires same { length areas.now ≡ length job.now.settings.meshes }
    requires known { All (λ e. e < length job.now.settings.extruders) extruders.now }
    requires start_in { InSquare 1700000 start }
    ensures exact { IfOk result (λ plans. plans ≡ drawn_plans job.now sheet areas.now true start extruders.now) }
    ensures drawn { IfOk result AreDrawn }
{
    let mut plans = Items::new(alloc);
    let mut at = start;
    let mut is_first = true;
    for e in extruders {
        let drawing = draw_extruder(alloc, job, sheet, areas, is_first, at, *e)?;
        at = drawing.at;
        is_first = false;
        plans.push(ExtruderPlan {
            extruder: *e,
            paths: drawing.paths,
        })?;
    }
    Ok(plans)
}

fn start_of(settings: &Settings) -> Pt
    ensures exact { result ≡ record { x = settings.now.layer_start_x; y = settings.now.layer_start_y } }
    ensures inside { InSquare 1700000 result }
{
    Pt {
        x: settings.layer_start_x,
        y: settings.layer_start_y,
    }
}

fn drawn_layer(
    alloc: Global,
    job: &Job,
    layer: u32,
    areas: &LayerAreas,
) -> Result<LayerPlan, NoMemory>
    requires layer { IsLayer job.now.settings areas.now }
    ensures exact { IfOk result (λ plan. plan ≡ drawn_layer job.now layer areas.now) }
    ensures known { IfOk result (λ plan. All (Names job.now.settings) plan.plans) }
    ensures once { IfOk result (λ plan. EachOnce plan.plans) }
{
    let sheet = Sheet {
        number: layer,
        thickness: areas.thickness,
    };
    let start = start_of(&job.settings);
    let plans = drawn_plans(
        alloc,
        job,
        sheet,
        areas.meshes.items(),
        start,
        areas.order.extruders(),
    )?;
    if count_moves(plans.items()) >= MOVES {
        return Err(NoMemory);
    }
    Ok(LayerPlan {
        number: layer,
        z: areas.z,
        thickness: areas.thickness,
        fan: fan(&job.settings, layer),
        lead: 0,
        plans,
        inserts: Inserts::new(),
    })
}

/// The plan of a layer: the paths of its extruders in the order of printing, slowed down where the layer
/// takes too little time, each with its time. No preheat stands in it yet, `lead` and every `before` are 0.
/// A plan of 2^40 print moves or more, which no memory holds, is told as want of memory.
pub fn plan_layer(alloc: Global, job: &Job, layer: u32) -> Result<LayerPlan, NoMemory>
    requires { layer < length job.now.layers }
    ensures plan { IfOk result (λ plan. plan ≡ plan_of job.now layer) }
    ensures known { IfOk result (λ plan. All (Names job.now.settings) plan.plans) }
    ensures once { IfOk result (λ plan. EachOnce plan.plans) }
    ensures empty { IfOk result (λ plan. plan.inserts ≡ []) }
{
    let mut plan = drawn_layer(alloc, job, layer, &job.layers.items()[layer as usize])?;
    slow_down(&mut plan, &job.settings);
    Ok(plan)
}
