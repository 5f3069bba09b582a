// Jobs that were worked out by hand: boxes on the bed of the printer of the defaults.

ghost use Rattle.std.specs.Prelude.{◌≡◌, ◌<◌, ◌≤◌, pos, length, IfOk};
ghost use Rattle.std.specs.List.{All};
ghost use Rattle.slice_base.specs.Boxes.{TriIn, TriUnder};
ghost use Rattle.mesh_placing.specs.Volume.{bed_of};

use crate::{AreaFault, areas, areas_wide};
use cross_section::{Mesh, mesh_of};
use mesh_placing::put_in_place;
use plan_types::{Job, extruder_order};
use settings_core::{Given, Pair, Scope, Settings, resolve};
use slice_base::{NoMemory, Pt, Pt3, Region, Text, Tri};
use std::alloc::Global;
use std::test::Fail;

// The triangles of a box from one corner to another, counterclockwise from outside.
fn box_of(low: Pt3, high: Pt3) -> [Tri; 12] {
    let (x, y, z) = (high.x, high.y, high.z);
    let a = low;
    let b = Pt3 { x, ..low };
    let c = Pt3 { x, y, ..low };
    let d = Pt3 { y, ..low };
    let (e, f, g, h) = (
        Pt3 { z, ..a },
        Pt3 { z, ..b },
        Pt3 { z, ..c },
        Pt3 { z, ..d },
    );
    [
        Tri { a, b: c, c: b },
        Tri { a, b: d, c },
        Tri { a: e, b: f, c: g },
        Tri { a: e, b: g, c: h },
        Tri { a, b, c: f },
        Tri { a, b: f, c: e },
        Tri { a: b, b: c, c: g },
        Tri { a: b, b: g, c: f },
        Tri { a: c, b: d, c: h },
        Tri { a: c, b: h, c: g },
        Tri { a: d, b: a, c: e },
        Tri { a: d, b: e, c: h },
    ]
}

fn at(x: i32, y: i32, z: i32) -> Pt3 {
    Pt3 { x, y, z }
}

fn pairs(alloc: Global, given: &[(&str, &str)]) -> Result<Vec<Pair>, NoMemory> {
    let mut pairs = Vec::new(alloc);
    for (key, value) in given {
        pairs.push(Pair {
            scope: Scope::Global,
            key: Text::of(alloc, (*key).as_bytes())?,
            value: Given::Words(Text::of(alloc, (*value).as_bytes())?),
        })?;
    }
    Ok(pairs)
}

// A box as mesh `i`.
fn placed(alloc: Global, settings: &Settings, i: u8, low: Pt3, high: Pt3) -> Result<Mesh, Fail>
    requires { i < length settings.now.meshes }
    ensures some { IfOk result (λ m. 0 < length m) }
    ensures on_bed { IfOk result (λ m. All (TriIn (bed_of settings.now)) m) }
    ensures under_top { IfOk result (λ m. All (TriUnder (pos settings.now.machine_height)) m) }
{
    let mut tris = box_of(low, high);
    put_in_place(&mut tris, settings, i)?;
    let mesh = mesh_of(alloc, &tris)?;
    if mesh.count() == 0 {
        return Err(NoMemory)?;
    }
    Ok(mesh)
}

// The job of one box.
fn job_of_box(
    alloc: Global,
    given: &[(&str, &str)],
    low: Pt3,
    high: Pt3,
) -> Result<Result<Job, AreaFault>, Fail> {
    let settings = resolve(alloc, pairs(alloc, given)?.as_slice(), &[0])?;
    let meshes = [placed(alloc, &settings, 0, low, high)?];
    Ok(areas(alloc, settings, &meshes))
}

// The only loop of a region has these corners, from some one on.
fn is_square(region: &Region, low: Pt, high: Pt) -> bool {
    let corners = [
        low,
        Pt {
            x: high.x,
            y: low.y,
        },
        high,
        Pt {
            x: low.x,
            y: high.y,
        },
    ];
    let [points] = region.loops() else {
        return false;
    };
    let points = points.points();
    for start in 0..4usize {
        if points.len() == 4
            && points[start..] == corners[..4 - start]
            && points[..start] == corners[4 - start..]
        {
            return true;
        }
    }
    false
}

const PLATE: [(&str, &str); 6] = [
    ("wall_line_count", "1"),
    ("top_layers", "0"),
    ("bottom_layers", "0"),
    ("infill_line_distance", "0"),
    ("skirt_line_count", "0"),
    ("cool_min_layer_time", "0"),
];

fn is_plate(job: &Job) -> bool {
    let (low, high) = (
        Pt {
            x: 90_200,
            y: 90_200,
        },
        Pt {
            x: 109_800,
            y: 109_800,
        },
    );
    for layer in job.layers.items() {
        let [areas] = layer.meshes.items() else {
            return false;
        };
        let [wall] = areas.walls.items() else {
            return false;
        };
        if !is_square(wall, low, high) || layer.order.extruders() != [0].as_slice() {
            return false;
        }
    }
    job.layers.len() == 2 && job.first == 0 && job.used == 1 && job.open_outlines == 0
}

#[test]
fn a_plate_has_one_wall_on_each_of_two_layers(rt: HostRuntime) -> Result<(), Fail> {
    let alloc = rt.alloc();
    let (low, high) = (at(90_000, 90_000, 0), at(110_000, 110_000, 500));
    let job = job_of_box(alloc, &PLATE, low, high)??;
    assert!(rt; is_plate(&job));
    assert!(rt; job.skirt.loops().is_empty());
    let settings = resolve(alloc, pairs(alloc, &PLATE)?.as_slice(), &[0])?;
    let meshes = [placed(alloc, &settings, 0, low, high)?];
    assert!(rt; is_plate(&areas_wide(&rt, alloc, 4, settings, &meshes)?));
    Ok(())
}

#[test]
fn what_a_mesh_before_it_takes_is_not_printed_again(rt: HostRuntime) -> Result<(), Fail> {
    let alloc = rt.alloc();
    let given = [
        ("machine_extruder_count", "2"),
        ("skirt_line_count", "1"),
        ("infill_line_distance", "0"),
        ("top_layers", "0"),
        ("bottom_layers", "0"),
    ];
    let settings = resolve(alloc, pairs(alloc, &given)?.as_slice(), &[0, 1])?;
    let outer = placed(
        alloc,
        &settings,
        0,
        at(50_000, 50_000, 0),
        at(70_000, 70_000, 500),
    )?;
    let inner = placed(
        alloc,
        &settings,
        1,
        at(55_000, 55_000, 0),
        at(60_000, 60_000, 400),
    )?;
    let job = areas(alloc, settings, &[outer, inner])?;
    assert_eq!(rt; job.used, 1);
    assert_eq!(rt; job.layers.len(), 2);
    assert_eq!(rt; job.skirt.loops().len(), 1);
    for layer in job.layers.items() {
        let [_, second] = layer.meshes.items() else {
            return Err(NoMemory)?;
        };
        for wall in second.walls.items() {
            assert!(rt; wall.loops().is_empty());
        }
        assert!(rt; second.fill.loops().is_empty());
    }
    Ok(())
}

#[test]
fn flat_and_high_boxes_are_refused(rt: HostRuntime) -> Result<(), Fail> {
    let alloc = rt.alloc();
    let flat = job_of_box(alloc, &PLATE, at(0, 0, 0), at(1000, 1000, 150))?;
    assert_eq!(rt; flat.err(), Some(AreaFault::NoLayers));
    let high = job_of_box(
        alloc,
        &[("layer_height", "0.01"), ("machine_height", "600")],
        at(0, 0, 0),
        at(1000, 1000, 400_296),
    )?;
    assert_eq!(rt;
        high.err(),
        Some(AreaFault::TooManyLayers { count: 40_001 })
    );
    Ok(())
}

#[test]
fn the_extruder_that_printed_last_goes_on(rt: HostRuntime) -> Result<(), Fail> {
    assert_eq!(rt; extruder_order(1, 0b111).extruders(), [1, 0, 2].as_slice());
    assert_eq!(rt; extruder_order(3, 0b101).extruders(), [0, 2].as_slice());
    Ok(())
}
