// Two plates, each of its own extruder: when an extruder is heated up again.

use crate::boxes::{Block, OUTWARD, PLATE};
use crate::file_tests::ONE_WALL;
use crate::runs::{has, joined, run, with_files};
use std::test::Fail;

// A plate 30 mm beside the other.
pub(crate) const BESIDE: Block<'static> = Block {
    low: ["120", "90", "0"],
    high: ["140", "110", "0.5"],
};

const HEADER: &[u8] = b";FLAVOR:Marlin
;OPEN_OUTLINES:0
M140 S60
M104 T0 S210
M104 T1 S150
M190 S60
M109 T0 S210
G28
G21
G90
M82
T0
G92 E0
M107
;LAYER_COUNT:2
";

const FIRST_PLATE: &[u8] = b";LAYER:0
M104 T1 S210
G1 F1500.000 E-6.50000
G0 F7200.000 X90.200 Y90.200 Z0.300
G1 F1500.000 E0.00000
;TYPE:WALL-OUTER
G1 F1800.000 X109.800 Y90.200 E0.97785
G1 X109.800 Y109.800 E1.95570
G1 X90.200 Y109.800 E2.93354
G1 X90.200 Y90.200 E3.91139
M104 T0 S150
";

const SECOND_PLATE: &[u8] = b"T1
M109 T1 S210
G92 E0
G1 F1500.000 E-6.50000
G0 F7200.000 X120.200 Y90.200
G1 F1500.000 E0.00000
;TYPE:WALL-OUTER
G1 F1800.000 X139.800 Y90.200 E0.97785
G1 X139.800 Y109.800 E1.95570
G1 X120.200 Y109.800 E2.93354
G1 X120.200 Y90.200 E3.91139
;TIME_ELAPSED:7.579689
;LAYER:1
M106 S255
";

const UPPER_LAYER: &[u8] = b"G1 F1500.000 E-2.58861
G0 F7200.000 X120.200 Y90.200 Z0.500
G1 F1500.000 E3.91139
;TYPE:WALL-OUTER
G1 F1800.000 X139.800 Y90.200 E4.56329
G1 X139.800 Y109.800 E5.21519
G1 X120.200 Y109.800 E5.86709
G1 X120.200 Y90.200 E6.51899
M104 T1 S150
T0
M109 T0 S210
G92 E0
G1 F1500.000 E-6.50000
G0 F7200.000 X109.800 Y90.200
G1 F1500.000 E0.00000
;TYPE:WALL-OUTER
G1 F1800.000 X109.800 Y109.800 E0.65190
G1 X90.200 Y109.800 E1.30380
G1 X90.200 Y90.200 E1.95570
G1 X109.800 Y90.200 E2.60759
;TIME_ELAPSED:13.933028
";

const FOOTER: &[u8] = b"M104 T0 S0
M104 T1 S0
M140 S0
M107
M84
";

// It is heated at the last boundary from which the time is enough; where none is, as soon as it was left.
#[test]
fn an_extruder_is_heated_as_late_as_its_rate_allows(rt: HostRuntime) -> Result<(), Fail> {
    let heat: &[u8] = b"M104 T0 S210\n";
    let plate = PLATE.text(rt.alloc(), None, OUTWARD)?;
    let beside = BESIDE.text(rt.alloc(), None, OUTWARD)?;
    let files = [
        ("plate.stl", plate.as_bytes()),
        ("plate2.stl", beside.as_bytes()),
    ];
    for (rate, soon, late) in [
        ("-s machine_nozzle_heat_up_speed=100", b"".as_slice(), heat),
        ("-s machine_nozzle_heat_up_speed=4", b"", heat),
        ("-s machine_nozzle_heat_up_speed=0.12", heat, b""),
    ] {
        let file = joined(
            rt.alloc(),
            &[
                HEADER,
                FIRST_PLATE,
                soon,
                SECOND_PLATE,
                late,
                UPPER_LAYER,
                FOOTER,
            ],
        )?;
        for command in ["serial", "slice -m3"] {
            let lines = [
                command,
                "-o two.gcode -s machine_extruder_count=2",
                ONE_WALL,
                rate,
                "-l plate.stl -e1 -l plate2.stl",
            ];
            let ended = run(&rt, rt.alloc(), &lines, with_files(&files))?;
            assert!(rt; ended.is_done(b"sliced 2 layers\n"), "{command} {rate}");
            assert!(rt; ended.sink.bytes() == file.as_slice(), "{command} {rate}");
        }
    }
    Ok(())
}

// A plate 2 mm above another: layers 2 to 9 are empty.
const STACKED: &str = "-l plate.stl -e1 -l plate.stl -s mesh_position_z=2";

#[test]
fn an_extruder_is_heated_within_the_window(rt: HostRuntime) -> Result<(), Fail> {
    let early: &[u8] = b"\n;LAYER:10\nM104 T0 S150\nT1\nM109 T1 S210\n";
    let at_its_turn: &[u8] = b"\n;LAYER:10\nM104 T0 S150\nM104 T1 S210\nT1\nM109 T1 S210\nG92 E0\n\
        G1 F1500.000 E-6.50000\nG0 F7200.000 X90.200 Y90.200 Z2.300\n";
    let plate = PLATE.text(rt.alloc(), None, OUTWARD)?;
    let files = [("plate.stl", plate.as_bytes())];
    for (setting, heated, turn) in [
        ("", at_its_turn, at_its_turn),
        ("-s preheat_window_layers=5", at_its_turn, at_its_turn),
        (
            "-s preheat_window_layers=9",
            b"\n;LAYER:1\nM106 S255\nM104 T1 S210\nG1 ".as_slice(),
            early,
        ),
        (
            "-s preheat_window_layers=12",
            b"\n;LAYER:0\nM104 T1 S210\nG1 ".as_slice(),
            early,
        ),
    ] {
        let lines = [
            "slice -o g -s machine_extruder_count=2",
            ONE_WALL,
            setting,
            STACKED,
        ];
        let ended = run(&rt, rt.alloc(), &lines, with_files(&files))?;
        assert!(rt; ended.is_done(b"sliced 12 layers\n"), "{setting}");
        let file = ended.sink.bytes();
        assert!(rt; has(file, heated) && has(file, turn), "{setting}");
        assert!(rt;
            has(
                file,
                b"\n;LAYER:8\n;TIME_ELAPSED:7.329689\n;LAYER:9\n;TIME_ELAPSED:7.329689\n;LAYER:10\n"
            )
        );
    }
    for setting in ["-s preheat_window_layers=0", "-s preheat_window_layers=17"] {
        let lines = [
            "slice -o g -s machine_extruder_count=2",
            ONE_WALL,
            setting,
            STACKED,
        ];
        let ended = run(&rt, rt.alloc(), &lines, with_files(&files))?;
        let told: &[u8] = b"error: out of range: global preheat_window_layers\n";
        assert!(rt; ended.run.status == 2 && ended.console.bytes() == told);
    }
    Ok(())
}
