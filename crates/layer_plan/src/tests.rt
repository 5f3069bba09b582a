// Plans of small jobs.

ghost use Rattle.std.specs.Prelude.{◌≡◌, ◌<◌, ◌≤◌, true, length, unsigned_abs, IfOk};
ghost use Rattle.std.specs.List.{All};
ghost use Rattle.plan_types.specs.Areas.{IsLoop, IsArea};
ghost use Rattle.plan_types.specs.Jobs.{IsLayer};

use crate::plan_layer;
use plan_types::{
    Job, Kind, LayerAreas, LayerPlan, MeshAreas, Path, extruder_order, orders_have_each_once,
};
use settings_core::{Given, Pair, Scope, Settings, resolve};
use slice_base::{Items, Loop, NoMemory, Pt, Region, Text};
use std::alloc::Global;
use std::test::Fail;

fn pairs(alloc: Global, given: &[(&str, &str)]) -> Result<Vec<Pair>, NoMemory> {
    let mut pairs = Vec::new(alloc);
    for (key, value) in given {
        pairs.push(Pair {
            scope: Scope::Global,
            key: Text::of(alloc, (*key).as_bytes())?,
            value: Given::Words(Text::of(alloc, (*value).as_bytes())?),
        })?;
    }
    Ok(pairs)
}

// The square between two corners, counterclockwise from the lower left one.
fn square(alloc: Global, from: Pt, to: Pt) -> Result<Loop, NoMemory>
    requires from_in { (unsigned_abs from.x ≤ 1600000) × (unsigned_abs from.y ≤ 1600000) }
    requires to_in { (unsigned_abs to.x ≤ 1600000) × (unsigned_abs to.y ≤ 1600000) }
    ensures is { IfOk result (IsLoop 1600000) }
    ensures four { IfOk result (λ l. length l ≡ 4) }
{
    let points = [
        from,
        Pt { x: to.x, y: from.y },
        to,
        Pt { x: from.x, y: to.y },
    ];
    Loop::of(alloc, &points)
}

fn one(alloc: Global, outline: Loop) -> Result<Region, NoMemory>
    requires is { IsLoop 1600000 outline }
    requires four { length outline ≡ 4 }
    ensures { IfOk result IsArea }
{
    let mut region = Region::new(alloc);
    region.push(outline)?;
    Ok(region)
}

// A thousand squares of 1 mm, 3 mm apart.
fn islands(alloc: Global) -> Result<Region, NoMemory>
    ensures { IfOk result IsArea }
{
    let mut region = Region::new(alloc);
    for i in 0..1000u16 {
        let x = i32::from(i % 32) * 3000;
        let y = i32::from(i / 32) * 3000;
        let from = Pt { x, y };
        let to = Pt {
            x: x + 1000,
            y: y + 1000,
        };
        region.push(square(alloc, from, to)?)?;
    }
    Ok(region)
}

// The areas of a mesh with one wall.
fn walled(alloc: Global, wall: Region, fill: Region) -> Result<MeshAreas, NoMemory>
    requires wall { IsArea wall }
    requires fill { IsArea fill }
{
    let mut walls = Items::new(alloc);
    walls.push(wall)?;
    Ok(MeshAreas {
        walls,
        skin: Region::new(alloc),
        fill,
    })
}

// Whether there are extruders of all these numbers.
fn are_known(count: usize, order: &[u8]) -> bool
    ensures { result ≡ true → All (λ e. e < count) order.now }
{
    for e in order {
        if usize::from(*e) >= count {
            return false;
        }
    }
    true
}

fn height(number: u32) -> i32
    ensures { unsigned_abs result ≤ 2000 }
{
    if number == 0 { 300 } else { 200 }
}

fn top(number: u32) -> i32 {
    if number == 0 { 300 } else { 500 }
}

// A layer on which the extruders of these bits print.
fn layer(
    settings: &Settings,
    number: u32,
    wanted: u8,
    meshes: Items<MeshAreas>,
) -> Result<LayerAreas, NoMemory>
    ensures { IfOk result (IsLayer settings.now) }
{
    let order = extruder_order(0, wanted);
    orders_have_each_once();
    if meshes.len() != settings.meshes.len() {
        return Err(NoMemory);
    }
    if !are_known(settings.extruders.len(), order.extruders()) {
        return Err(NoMemory);
    }
    Ok(LayerAreas {
        number,
        z: top(number),
        thickness: height(number),
        order,
        meshes,
    })
}

// The plan of a layer of a job.
fn planned(
    alloc: Global,
    settings: Settings,
    layers: Items<LayerAreas>,
    skirt: Region,
    number: u32,
) -> Result<LayerPlan, NoMemory>
    requires layers { All (IsLayer settings) layers }
    requires few { length layers ≤ 2 }
    requires number { number < length layers }
    requires skirt { IsArea skirt }
    requires some { 0 < length settings.meshes }
{
    let job = Job {
        settings,
        layers,
        skirt,
        first: 0,
        used: 0,
        open_outlines: 0,
    };
    plan_layer(alloc, &job, number)
}

// The plan of the second of two layers that are alike, or of the first.
fn plated(
    alloc: Global,
    given: &[(&str, &str)],
    wall: Region,
    fill: Region,
    skirt: Region,
    number: u32,
) -> Result<LayerPlan, Fail>
    requires wall { IsArea wall }
    requires fill { IsArea fill }
    requires skirt { IsArea skirt }
    requires number { number < 2 }
{
    let settings = resolve(alloc, pairs(alloc, given)?.as_slice(), &[0])?;
    let mut layers = Items::new(alloc);
    let mut first = Items::new(alloc);
    first.push(walled(alloc, wall.copy(alloc)?, fill.copy(alloc)?)?)?;
    layers.push(layer(&settings, 0, 1, first)?)?;
    let mut second = Items::new(alloc);
    second.push(walled(alloc, wall, fill)?)?;
    layers.push(layer(&settings, 1, 1, second)?)?;
    Ok(planned(alloc, settings, layers, skirt, number)?)
}

fn plate(alloc: Global) -> Result<Region, NoMemory>
    ensures { IfOk result IsArea }
{
    one(
        alloc,
        square(
            alloc,
            Pt {
                x: 90_200,
                y: 90_200,
            },
            Pt {
                x: 109_800,
                y: 109_800,
            },
        )?,
    )
}

// The paths of all extruders, as kind, speed, retraction and first point.
fn told(alloc: Global, plan: &LayerPlan) -> Result<Vec<(Kind, u32, bool, Pt)>, NoMemory> {
    let mut told = Vec::new(alloc);
    for x in plan.plans.items() {
        for path in x.paths.items() {
            let at = match path.points.points() {
                [] => Pt { x: 0, y: 0 },
                [first, ..] => *first,
            };
            told.push((path.kind, path.speed, path.retract, at))?;
        }
    }
    Ok(told)
}

fn times(alloc: Global, plan: &LayerPlan) -> Result<Vec<u64>, NoMemory> {
    let mut times = Vec::new(alloc);
    for x in plan.plans.items() {
        for path in x.paths.items() {
            times.push(path.time)?;
        }
    }
    Ok(times)
}

// Whether every fill line rises.
fn rises(path: &Path) -> bool {
    match path.points.points() {
        [from, .., to] => (from.x < to.x) == (from.y < to.y),
        _ => false,
    }
}

#[test]
fn a_short_layer_is_slowed_down(rt: HostRuntime) -> Result<(), Fail> {
    let alloc = rt.alloc();
    let plan = plated(
        alloc,
        &[],
        plate(alloc)?,
        Region::new(alloc),
        Region::new(alloc),
        1,
    )?;
    assert_eq!(rt; plan.z, 500);
    assert_eq!(rt; plan.fan, 255);
    assert_eq!(rt; plan.lead, 0);
    let told = told(alloc, &plan)?;
    let corner = Pt {
        x: 90_200,
        y: 90_200,
    };
    assert_eq!(rt;
        told.as_slice(),
        [(Kind::WallOuter, 15_680, true, corner)].as_slice()
    );
    assert_eq!(rt; times(alloc, &plan)?.as_slice(), [5_520_000].as_slice());
    Ok(())
}

#[test]
fn a_tiny_layer_is_printed_at_the_least_speed(rt: HostRuntime) -> Result<(), Fail> {
    let alloc = rt.alloc();
    let wall = one(
        alloc,
        square(alloc, Pt { x: 0, y: 0 }, Pt { x: 1000, y: 1000 })?,
    )?;
    let plan = plated(alloc, &[], wall, Region::new(alloc), Region::new(alloc), 1)?;
    let told = told(alloc, &plan)?;
    assert_eq!(rt;
        told.as_slice(),
        [(Kind::WallOuter, 10_000, true, Pt { x: 0, y: 0 })].as_slice()
    );
    Ok(())
}

#[test]
fn the_skirt_comes_first_on_the_first_layer_alone(rt: HostRuntime) -> Result<(), Fail> {
    let alloc = rt.alloc();
    for number in 0..2u32 {
        let skirt = one(
            alloc,
            square(
                alloc,
                Pt {
                    x: 80_000,
                    y: 80_000,
                },
                Pt {
                    x: 120_000,
                    y: 120_000,
                },
            )?,
        )?;
        let plan = plated(alloc, &[], plate(alloc)?, Region::new(alloc), skirt, number)?;
        let told = told(alloc, &plan)?;
        if number == 0 {
            assert_eq!(rt; told.len(), 2);
            assert_eq!(rt;
                told[0],
                (
                    Kind::Skirt,
                    60_000,
                    true,
                    Pt {
                        x: 80_000,
                        y: 80_000
                    }
                )
            );
        } else {
            assert_eq!(rt; told.len(), 1);
        }
    }
    Ok(())
}

#[test]
fn fill_lines_turn_from_layer_to_layer(rt: HostRuntime) -> Result<(), Fail> {
    let alloc = rt.alloc();
    for number in 0..2u32 {
        let plan = plated(
            alloc,
            &[],
            Region::new(alloc),
            plate(alloc)?,
            Region::new(alloc),
            number,
        )?;
        let mut lines = 0u32;
        for x in plan.plans.items() {
            for path in x.paths.items() {
                lines = lines.saturating_add(1);
                assert_eq!(rt; path.kind, Kind::Fill);
                assert_eq!(rt; rises(path), number == 0);
            }
        }
        assert_eq!(rt; lines, 7);
    }
    Ok(())
}

#[test]
fn filament_is_pulled_back_at_the_least_travel(rt: HostRuntime) -> Result<(), Fail> {
    let alloc = rt.alloc();
    for (least, is) in [("1.8", true), ("1.801", false)] {
        let mut walls = Region::new(alloc);
        walls.push(square(alloc, Pt { x: 0, y: 0 }, Pt { x: 1000, y: 1000 })?)?;
        walls.push(square(alloc, Pt { x: 1800, y: 0 }, Pt { x: 2800, y: 1000 })?)?;
        let given = [("retraction_min_travel", least)];
        let plan = plated(
            alloc,
            &given,
            walls,
            Region::new(alloc),
            Region::new(alloc),
            0,
        )?;
        let told = told(alloc, &plan)?;
        assert_eq!(rt; told.len(), 2);
        assert_eq!(rt; told[0].2, true);
        assert_eq!(rt; told[1].2, is);
    }
    Ok(())
}

#[test]
fn the_second_extruder_begins_where_the_first_ended(rt: HostRuntime) -> Result<(), Fail> {
    let alloc = rt.alloc();
    let given = [
        ("machine_extruder_count", "2"),
        ("layer_start_x", "29"),
        ("layer_start_y", "30"),
    ];
    let settings = resolve(alloc, pairs(alloc, &given)?.as_slice(), &[0, 1])?;
    let left = one(
        alloc,
        square(
            alloc,
            Pt { x: 0, y: 0 },
            Pt {
                x: 10_000,
                y: 10_000,
            },
        )?,
    )?;
    let right = one(
        alloc,
        square(
            alloc,
            Pt { x: 20_000, y: 0 },
            Pt {
                x: 30_000,
                y: 10_000,
            },
        )?,
    )?;
    let mut meshes = Items::new(alloc);
    meshes.push(walled(alloc, left, Region::new(alloc))?)?;
    meshes.push(walled(alloc, right, Region::new(alloc))?)?;
    let mut layers = Items::new(alloc);
    layers.push(layer(&settings, 0, 3, meshes)?)?;
    let plan = planned(alloc, settings, layers, Region::new(alloc), 0)?;
    assert_eq!(rt; plan.plans.len(), 2);
    let told = told(alloc, &plan)?;
    assert_eq!(rt; told.len(), 2);
    assert_eq!(rt;
        told[0].3,
        Pt {
            x: 10_000,
            y: 10_000
        }
    );
    assert_eq!(rt;
        told[1].3,
        Pt {
            x: 20_000,
            y: 10_000
        }
    );
    Ok(())
}

#[test]
fn a_thousand_islands_are_each_printed_once(rt: HostRuntime) -> Result<(), Fail> {
    let alloc = rt.alloc();
    let plan = plated(
        alloc,
        &[],
        islands(alloc)?,
        Region::new(alloc),
        Region::new(alloc),
        1,
    )?;
    let told = told(alloc, &plan)?;
    assert_eq!(rt; told.len(), 1000);
    assert_eq!(rt; told[0], (Kind::WallOuter, 30_000, true, Pt { x: 0, y: 0 }));
    assert_eq!(rt;
        told[1],
        (Kind::WallOuter, 30_000, true, Pt { x: 3000, y: 0 })
    );
    Ok(())
}
