// Files of plates of 20 mm, two layers high.

ghost use Rattle.std.specs.Prelude.{◌≡◌, ◌<◌, ◌≤◌, ◌^◌, [], ◌∷◌, length, IfOk};
ghost use Rattle.std.specs.List.{All};
ghost use Rattle.std.specs.Int.RustNames.{unsigned_abs};
ghost use Rattle.plan_types.specs.Jobs.{Names};
ghost use Rattle.slice_base.specs.Plane.{InSquare};
ghost use Rattle.plan_types.specs.Plans.{moves_of_plan, volume_of_plan, time_of_plan};

use crate::writer::Writer;
use arrayvec::ArrayVec;
use outside::{MemSink, Sink};
use plan_types::{
    ExtruderPlan, Insert, Inserts, Job, Kind, LayerAreas, LayerPlan, MeshAreas, Order, Path,
};
use settings_core::{Given, Pair, Scope, resolve};
use slice_base::{Items, Loop, NoMemory, Pt, Region, Text, length};
use std::alloc::Global;
use std::test::Fail;

// The areas of a layer with one mesh that has none.
fn layer_areas(alloc: Global, number: u32, z: i32) -> Result<LayerAreas, NoMemory>
    ensures meshes { IfOk result (λ l. length l.meshes ≡ 1) }
    ensures order { IfOk result (λ l. l.order ≡ []) }
    ensures thin { IfOk result (λ l. unsigned_abs l.thickness ≤ 2000) }
{
    let mut meshes = Items::new(alloc);
    meshes.push(MeshAreas {
        walls: Items::new(alloc),
        skin: Region::new(alloc),
        fill: Region::new(alloc),
    })?;
    Ok(LayerAreas {
        number,
        z,
        thickness: 300,
        order: Order::of(ArrayVec::new()),
        meshes,
    })
}

// The bits of the first extruders.
fn first_bits(extruders: u8) -> u8
    requires some { 1 ≤ extruders }
    requires few { extruders ≤ 2 }
    ensures { result < 2 ^ extruders }
{
    if extruders == 2 { 3 } else { 1 }
}

// A job of two layers with default settings, in which all of so many extruders are used.
fn job(alloc: Global, extruders: u8) -> Result<Job, Fail>
    requires some { 1 ≤ extruders }
    requires few { extruders ≤ 2 }
    ensures { IfOk result (λ j. length j.settings.extruders ≡ extruders) }
{
    let count: &[u8] = if extruders == 2 { b"2" } else { b"1" };
    let pair = Pair {
        scope: Scope::Global,
        key: Text::of(alloc, b"machine_extruder_count")?,
        value: Given::Words(Text::of(alloc, count)?),
    };
    let settings = resolve(alloc, &[pair], &[0])?;
    let known = settings.extruders.len();
    if known != usize::from(extruders) {
        return Err(Fail::new("extruders"));
    }
    let mut layers = Items::new(alloc);
    layers.push(layer_areas(alloc, 0, 300)?)?;
    layers.push(layer_areas(alloc, 1, 500)?)?;
    Ok(Job {
        settings,
        layers,
        skirt: Region::new(alloc),
        first: 0,
        used: first_bits(extruders),
        open_outlines: 0,
    })
}

// A wall round four points by an extruder.
fn wall(
    alloc: Global,
    extruder: u8,
    corners: (Pt, Pt, Pt, Pt),
    thickness: i32,
    time: u64,
) -> Result<ExtruderPlan, NoMemory>
    requires first { InSquare 1700000 corners.0 }
    requires second { InSquare 1700000 corners.1 }
    requires third { InSquare 1700000 corners.2 }
    requires fourth { InSquare 1700000 corners.3 }
    requires thin { unsigned_abs thickness ≤ 2000 }
    ensures extruder { IfOk result (λ x. x.extruder ≡ extruder) }
    ensures small { IfOk result (λ x. (moves_of_plan x ≤ 4) × (volume_of_plan x ≤ 2 ^ 60) × (time_of_plan x < 2 ^ 64)) }
{
    let (a, b, c, d) = corners;
    let _lengths = [length(a, b), length(b, c), length(c, d), length(d, a)];
    let mut paths = Items::new(alloc);
    paths.push(Path {
        kind: Kind::WallOuter,
        width: 400,
        thickness,
        speed: 30000,
        points: Loop::of(alloc, &[a, b, c, d, a])?,
        retract: true,
        time,
        before: 0,
    })?;
    Ok(ExtruderPlan { extruder, paths })
}

fn inserts(insert: Option<Insert>) -> Inserts {
    let mut inserts = Inserts::new();
    match insert {
        None => {}
        Some(insert) => inserts.put(insert),
    }
    inserts
}

// The plan of a layer with a wall by each of two extruders, and a preheat before its first path.
fn layer_of_two(
    alloc: Global,
    number: u32,
    lead: u64,
    insert: Insert,
    first: ExtruderPlan,
    second: ExtruderPlan,
) -> Result<LayerPlan, NoMemory>
    requires first { (moves_of_plan first ≤ 4) × (volume_of_plan first ≤ 2 ^ 60) × (time_of_plan first < 2 ^ 64) }
    requires second { (moves_of_plan second ≤ 4) × (volume_of_plan second ≤ 2 ^ 60) × (time_of_plan second < 2 ^ 64) }
    ensures { IfOk result (λ l. l.plans ≡ first ∷ second ∷ []) }
{
    let mut plans = Items::new(alloc);
    plans.push(first)?;
    plans.push(second)?;
    Ok(LayerPlan {
        number,
        z: if number == 0 { 300 } else { 500 },
        thickness: if number == 0 { 300 } else { 200 },
        fan: if number == 0 { 0 } else { 255 },
        lead,
        plans,
        inserts: inserts(Some(insert)),
    })
}

// The plan of a layer with a wall by one extruder.
fn layer_of_one(
    alloc: Global,
    number: u32,
    lead: u64,
    first: ExtruderPlan,
) -> Result<LayerPlan, NoMemory>
    requires { (moves_of_plan first ≤ 4) × (volume_of_plan first ≤ 2 ^ 60) × (time_of_plan first < 2 ^ 64) }
    ensures { IfOk result (λ l. l.plans ≡ first ∷ []) }
{
    let mut plans = Items::new(alloc);
    plans.push(first)?;
    Ok(LayerPlan {
        number,
        z: if number == 0 { 300 } else { 500 },
        thickness: if number == 0 { 300 } else { 200 },
        fan: if number == 0 { 0 } else { 255 },
        lead,
        plans,
        inserts: inserts(None),
    })
}

const A: Pt = Pt { x: 90200, y: 90200 };

const B: Pt = Pt {
    x: 109800,
    y: 90200,
};

const C: Pt = Pt {
    x: 109800,
    y: 109800,
};

const D: Pt = Pt {
    x: 90200,
    y: 109800,
};

const E: Pt = Pt {
    x: 120200,
    y: 90200,
};

const F: Pt = Pt {
    x: 139800,
    y: 90200,
};

const G: Pt = Pt {
    x: 139800,
    y: 109800,
};

const H: Pt = Pt {
    x: 120200,
    y: 109800,
};

// The plan of one layer of a plate.
fn plate_layer(alloc: Global, number: u32, lead: u64) -> Result<LayerPlan, NoMemory>
    ensures { IfOk result (λ l. All (λ x. x.extruder < 1) l.plans) }
{
    let thickness = if number == 0 { 300 } else { 200 };
    let round = wall(alloc, 0, (A, B, C, D), thickness, 3133336)?;
    layer_of_one(alloc, number, lead, round)
}

// Writes two layers and the footer.
fn write_on<'a>(
    writer: Writer<'a, MemSink>,
    first: &LayerPlan,
    second: &LayerPlan,
) -> (MemSink, u128)
    requires none { writer.layers ≡ 0 }
    requires first { All (Names writer.job.now.settings) first.now.plans }
    requires second { All (Names writer.job.now.settings) second.now.plans }
{
    let mut writer = writer;
    let _ = writer.layer(first);
    let _ = writer.layer(second);
    let _ = writer.finish();
    let bytes = writer.bytes();
    (writer.into_sink(), bytes)
}

// The sink behind the file of a plate, and how many bytes the writer put.
fn write_plate(alloc: Global, sink: MemSink, job: &Job) -> Result<(MemSink, u128), Fail>
    requires { length job.now.settings.extruders ≡ 1 }
{
    let first = plate_layer(alloc, 0, 1063017)?;
    let second = plate_layer(alloc, 1, 0)?;
    match Writer::begin(sink, job, Text::of(alloc, b"o")?) {
        Err(unbegun) => {
            let bytes = unbegun.sink.bytes().len() as u128;
            Ok((unbegun.sink, bytes))
        }
        Ok(writer) => Ok(write_on(writer, &first, &second)),
    }
}

const PLATE: &[u8] = b";FLAVOR:Marlin
;OPEN_OUTLINES:0
M140 S60
M104 T0 S210
M190 S60
M109 T0 S210
G28
G21
G90
M82
T0
G92 E0
M107
;LAYER_COUNT:2
;LAYER:0
G1 F1500.000 E-6.50000
G0 F7200.000 X90.200 Y90.200 Z0.300
G1 F1500.000 E0.00000
;TYPE:WALL-OUTER
G1 F1800.000 X109.800 Y90.200 E0.97785
G1 X109.800 Y109.800 E1.95570
G1 X90.200 Y109.800 E2.93354
G1 X90.200 Y90.200 E3.91139
;TIME_ELAPSED:4.196353
;LAYER:1
M106 S255
G1 F1500.000 E-2.58861
G0 F7200.000 X90.200 Y90.200 Z0.500
G1 F1500.000 E3.91139
;TYPE:WALL-OUTER
G1 F1800.000 X109.800 Y90.200 E4.56329
G1 X109.800 Y109.800 E5.21519
G1 X90.200 Y109.800 E5.86709
G1 X90.200 Y90.200 E6.51899
;TIME_ELAPSED:7.329689
M104 T0 S0
M140 S0
M107
M84
";

#[test]
fn a_plate_is_written_line_by_line(rt: HostRuntime) -> Result<(), Fail> {
    let alloc = rt.alloc();
    let job = job(alloc, 1)?;
    let sink = MemSink::of(alloc, 1000, 4000, Vec::new(alloc))?;
    let (sink, bytes) = write_plate(alloc, sink, &job)?;
    assert_eq!(rt; sink.bytes(), PLATE);
    assert_eq!(rt; bytes, 672);
    assert_eq!(rt; sink.held_at_end(), 672);
    let sink = MemSink::of(alloc, 1, 4000, Vec::new(alloc))?;
    let (sink, bytes) = write_plate(alloc, sink, &job)?;
    assert_eq!(rt; sink.bytes(), PLATE);
    assert_eq!(rt; bytes, 672);
    Ok(())
}

// The bytes of the first lines.
fn lines(text: &[u8], count: usize) -> &[u8] {
    let mut left = count;
    for at in 0..text.len() {
        if left == 0 {
            return &text[..at];
        }
        if text[at] == b'\n' {
            left -= 1;
        }
    }
    text
}

#[test]
fn a_call_that_fails_leaves_the_lines_before_it(rt: HostRuntime) -> Result<(), Fail> {
    let alloc = rt.alloc();
    let job = job(alloc, 1)?;
    for call in 1..42u32 {
        let mut failing = Vec::new(alloc);
        failing.push(call)?;
        let sink = MemSink::of(alloc, 1000, 4000, failing)?;
        let (sink, bytes) = write_plate(alloc, sink, &job)?;
        let whole = if call < 3 { 0 } else { call as usize - 2 };
        assert_eq!(rt; sink.bytes(), lines(PLATE, whole));
        assert_eq!(rt; bytes, sink.bytes().len() as u128);
        assert_eq!(rt; sink.faults(), 1);
    }
    Ok(())
}

// The plans of the layers of two plates.
fn two_first(alloc: Global) -> Result<LayerPlan, NoMemory>
    ensures { IfOk result (λ l. All (λ x. x.extruder < 2) l.plans) }
{
    let preheat = Insert {
        at: 0,
        extruder: 1,
        degrees: 210,
    };
    let left = wall(alloc, 0, (A, B, C, D), 300, 3133336)?;
    let right = wall(alloc, 1, (E, F, G, H), 300, 3383336)?;
    layer_of_two(alloc, 0, 1063017, preheat, left, right)
}

fn two_second(alloc: Global) -> Result<LayerPlan, NoMemory>
    ensures { IfOk result (λ l. All (λ x. x.extruder < 2) l.plans) }
{
    let preheat = Insert {
        at: 0,
        extruder: 0,
        degrees: 210,
    };
    let right = wall(alloc, 1, (E, F, G, H), 200, 3133336)?;
    let left = wall(alloc, 0, (B, C, D, A), 200, 3220003)?;
    layer_of_two(alloc, 1, 0, preheat, right, left)
}

const TWO: &[u8] = b";FLAVOR:Marlin
;OPEN_OUTLINES:0
M140 S60
M104 T0 S210
M104 T1 S150
M190 S60
M109 T0 S210
G28
G21
G90
M82
T0
G92 E0
M107
;LAYER_COUNT:2
;LAYER:0
M104 T1 S210
G1 F1500.000 E-6.50000
G0 F7200.000 X90.200 Y90.200 Z0.300
G1 F1500.000 E0.00000
;TYPE:WALL-OUTER
G1 F1800.000 X109.800 Y90.200 E0.97785
G1 X109.800 Y109.800 E1.95570
G1 X90.200 Y109.800 E2.93354
G1 X90.200 Y90.200 E3.91139
M104 T0 S150
T1
M109 T1 S210
G92 E0
G1 F1500.000 E-6.50000
G0 F7200.000 X120.200 Y90.200
G1 F1500.000 E0.00000
;TYPE:WALL-OUTER
G1 F1800.000 X139.800 Y90.200 E0.97785
G1 X139.800 Y109.800 E1.95570
G1 X120.200 Y109.800 E2.93354
G1 X120.200 Y90.200 E3.91139
;TIME_ELAPSED:7.579689
;LAYER:1
M106 S255
M104 T0 S210
G1 F1500.000 E-2.58861
G0 F7200.000 X120.200 Y90.200 Z0.500
G1 F1500.000 E3.91139
;TYPE:WALL-OUTER
G1 F1800.000 X139.800 Y90.200 E4.56329
G1 X139.800 Y109.800 E5.21519
G1 X120.200 Y109.800 E5.86709
G1 X120.200 Y90.200 E6.51899
M104 T1 S150
T0
M109 T0 S210
G92 E0
G1 F1500.000 E-6.50000
G0 F7200.000 X109.800 Y90.200
G1 F1500.000 E0.00000
;TYPE:WALL-OUTER
G1 F1800.000 X109.800 Y109.800 E0.65190
G1 X90.200 Y109.800 E1.30380
G1 X90.200 Y90.200 E1.95570
G1 X109.800 Y90.200 E2.60759
;TIME_ELAPSED:13.933028
M104 T0 S0
M104 T1 S0
M140 S0
M107
M84
";

#[test]
fn two_plates_are_written_by_two_extruders(rt: HostRuntime) -> Result<(), Fail> {
    let alloc = rt.alloc();
    let job = job(alloc, 2)?;
    let first = two_first(alloc)?;
    let second = two_second(alloc)?;
    let sink = MemSink::of(alloc, 1000, 4000, Vec::new(alloc))?;
    match Writer::begin(sink, &job, Text::of(alloc, b"o")?) {
        Err(_) => {
            assert!(rt; false);
            Ok(())
        }
        Ok(writer) => {
            let (sink, _) = write_on(writer, &first, &second);
            assert_eq!(rt; sink.bytes(), TWO);
            assert_eq!(rt; sink.faults(), 0);
            Ok(())
        }
    }
}
