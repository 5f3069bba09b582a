// The file of a plate of two layers with one wall, whole.

use crate::boxes::{OUTWARD, PLATE};
use crate::runs::{has, run, with_files};
use std::test::Fail;

// One wall, and nothing else.
pub(crate) const ONE_WALL: &str = "-s wall_line_count=1 -s top_layers=0 -s bottom_layers=0 \
    -s infill_line_distance=0 -s skirt_line_count=0 -s cool_min_layer_time=0";

const PLATE_FILE: &[u8] = b";FLAVOR:Marlin
;OPEN_OUTLINES:0
M140 S60
M104 T0 S210
M190 S60
M109 T0 S210
G28
G21
G90
M82
T0
G92 E0
M107
;LAYER_COUNT:2
;LAYER:0
G1 F1500.000 E-6.50000
G0 F7200.000 X90.200 Y90.200 Z0.300
G1 F1500.000 E0.00000
;TYPE:WALL-OUTER
G1 F1800.000 X109.800 Y90.200 E0.97785
G1 X109.800 Y109.800 E1.95570
G1 X90.200 Y109.800 E2.93354
G1 X90.200 Y90.200 E3.91139
;TIME_ELAPSED:4.196353
;LAYER:1
M106 S255
G1 F1500.000 E-2.58861
G0 F7200.000 X90.200 Y90.200 Z0.500
G1 F1500.000 E3.91139
;TYPE:WALL-OUTER
G1 F1800.000 X109.800 Y90.200 E4.56329
G1 X109.800 Y109.800 E5.21519
G1 X90.200 Y109.800 E5.86709
G1 X90.200 Y90.200 E6.51899
;TIME_ELAPSED:7.329689
M104 T0 S0
M140 S0
M107
M84
";

#[test]
fn a_plate_is_the_same_file_by_one_thread_or_many(rt: HostRuntime) -> Result<(), Fail> {
    let plate = PLATE.text(rt.alloc(), None, OUTWARD)?;
    for (command, events) in [
        ("serial", 0),
        ("slice -m1", 8),
        ("slice", 8),
        ("slice -m64", 8),
    ] {
        for most in [1, 1000] {
            let files = [("plate.stl", plate.as_bytes())];
            let mut outside = with_files(&files);
            outside.most = most;
            let lines = [command, "-o plate.gcode", ONE_WALL, "-l plate.stl"];
            let ended = run(&rt, rt.alloc(), &lines, outside)?;
            assert!(rt; ended.is_done(b"sliced 2 layers\n"), "{command}");
            assert!(rt; ended.sink.bytes() == PLATE_FILE, "{command}");
            assert!(rt; ended.sink.held_at_end() == 672 && ended.sink.ends() == 1);
            assert!(rt; ended.run.journal.len() == events, "{command}");
            let totals = ended.run.totals;
            assert!(rt; totals.time == 7_329_689, "{command}");
            assert!(rt;
                totals.filaments == [651_899, 0, 0, 0, 0, 0, 0, 0],
                "{command}"
            );
        }
    }
    Ok(())
}

#[test]
fn other_spellings_and_settings_without_effect_change_nothing(rt: HostRuntime) -> Result<(), Fail> {
    let plate = PLATE.text(rt.alloc(), None, OUTWARD)?;
    let files = [("plate.stl", plate.as_bytes())];
    let spelled = "-v -p -s adhesion_type=skirt -s retraction_enable=True -s speed_wall_0=30.0 \
        -s material_flow=100.0 -s layer_height=0.20000000000000001 -s z_seam_type=sharpest_corner";
    let lines = ["serial -o plate.gcode", ONE_WALL, spelled, "-l plate.stl"];
    let ended = run(&rt, rt.alloc(), &lines, with_files(&files))?;
    assert!(rt; ended.run.status == 0 && ended.sink.bytes() == PLATE_FILE);
    Ok(())
}

// A layer takes five seconds at least: its print moves get slower, its travel and retraction don't.
#[test]
fn a_small_layer_is_slowed_down(rt: HostRuntime) -> Result<(), Fail> {
    let plate = PLATE.text(rt.alloc(), None, OUTWARD)?;
    let files = [("plate.stl", plate.as_bytes())];
    let lines = [
        "serial -o plate.gcode",
        ONE_WALL,
        "-s cool_min_layer_time=5 -l plate.stl",
    ];
    let ended = run(&rt, rt.alloc(), &lines, with_files(&files))?;
    for part in [
        b"\nG1 F940.800 X109.800 Y90.200 E0.97785\n".as_slice(),
        b"\n;TIME_ELAPSED:6.583017\n",
        b"\nG1 F940.800 X109.800 Y90.200 E4.56329\n",
        b"\n;TIME_ELAPSED:12.103017\n",
    ] {
        assert!(rt; has(ended.sink.bytes(), part));
    }
    Ok(())
}

// The fan rises to its speed up to the fourth layer.
#[test]
fn the_fan_rises_layer_by_layer(rt: HostRuntime) -> Result<(), Fail> {
    let mut tower = PLATE;
    tower.high[2] = "0.9";
    let tower = tower.text(rt.alloc(), None, OUTWARD)?;
    let files = [("t", tower.as_bytes())];
    let lines = ["serial -o g", ONE_WALL, "-s cool_fan_full_layer=4 -l t"];
    let ended = run(&rt, rt.alloc(), &lines, with_files(&files))?;
    for part in [
        b"\n;LAYER:0\nG1 ".as_slice(),
        b"\n;LAYER:1\nM106 S85\nG1 ",
        b"\n;LAYER:2\nM106 S170\nG1 ",
        b"\n;LAYER:3\nM106 S255\nG1 ",
    ] {
        assert!(rt; has(ended.sink.bytes(), part));
    }
    Ok(())
}

// The first call begins the sink, each of the next puts a line, and the last ends it.
#[test]
fn each_write_that_fails_leaves_the_lines_before_it(rt: HostRuntime) -> Result<(), Fail> {
    let plate = PLATE.text(rt.alloc(), None, OUTWARD)?;
    let files = [("plate.stl", plate.as_bytes())];
    for command in ["serial", "slice -m2"] {
        let mut held = Vec::new(rt.alloc());
        for call in 1..42u32 {
            let mut outside = with_files(&files);
            outside.failing_write = Some(call);
            let lines = [command, "-o plate.gcode", ONE_WALL, "-l plate.stl"];
            let ended = run(&rt, rt.alloc(), &lines, outside)?;
            assert!(rt; ended.run.status == 5, "call {call}");
            assert!(rt;
                ended.console.bytes() == b"error: cannot write\n".as_slice(),
                "call {call}"
            );
            assert!(rt; ended.sink.bytes() == held.as_slice(), "call {call}");
            if call > 1 {
                let rest = &PLATE_FILE[held.len().min(PLATE_FILE.len())..];
                let line = rest.iter().position(|byte| *byte == b'\n');
                let end = line.map_or(0, |at| at.saturating_add(1));
                held.extend_from_slice(&rest[..end.min(rest.len())])?;
            }
        }
        assert!(rt; held.as_slice() == PLATE_FILE);
    }
    Ok(())
}

// A sink without room for the whole file takes what it has room for.
#[test]
fn a_sink_that_runs_full_holds_a_front(rt: HostRuntime) -> Result<(), Fail> {
    let plate = PLATE.text(rt.alloc(), None, OUTWARD)?;
    let files = [("plate.stl", plate.as_bytes())];
    for command in ["serial", "slice -m2"] {
        for part in 0..24usize {
            let mut outside = with_files(&files);
            outside.room = part * 28;
            let lines = [command, "-o plate.gcode", ONE_WALL, "-l plate.stl"];
            let ended = run(&rt, rt.alloc(), &lines, outside)?;
            let held = ended.sink.bytes();
            assert!(rt;
                held.len() == part * 28 && PLATE_FILE.starts_with(held),
                "{command} {part}"
            );
            assert!(rt;
                ended.run.status == 5 && ended.sink.ends() == 0,
                "{command}"
            );
            assert!(rt; ended.console.bytes() == b"error: cannot write\n".as_slice());
        }
    }
    Ok(())
}

#[test]
fn facets_that_face_inward_are_the_same_print(rt: HostRuntime) -> Result<(), Fail> {
    let inward = PLATE.text(rt.alloc(), None, [0, 2, 1])?;
    let files = [("plate.stl", inward.as_bytes())];
    let lines = ["serial -o plate.gcode", ONE_WALL, "-l plate.stl"];
    let ended = run(&rt, rt.alloc(), &lines, with_files(&files))?;
    assert!(rt; ended.sink.bytes() == PLATE_FILE);
    Ok(())
}

#[test]
fn a_mesh_in_two_solids_is_the_same_print(rt: HostRuntime) -> Result<(), Fail> {
    let plate = PLATE.text(rt.alloc(), None, OUTWARD)?;
    let mut solids = String::from_str(rt.alloc(), "\r\n SOLID of nothing\n\tEndSolid\n")?;
    solids.push_str(plate.as_str())?;
    let files = [("plate.stl", solids.as_bytes())];
    let lines = ["serial -o plate.gcode", ONE_WALL, "-l plate.stl"];
    let ended = run(&rt, rt.alloc(), &lines, with_files(&files))?;
    assert!(rt; ended.sink.bytes() == PLATE_FILE);
    Ok(())
}
