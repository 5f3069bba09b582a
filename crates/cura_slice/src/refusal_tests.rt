// Each refusal as the person at the shell meets it, and devices that fail.

use crate::boxes::{Block, OUTWARD, PLATE};
use crate::file_tests::ONE_WALL;
use crate::runs::{Outside, run, with_files};
use std::test::Fail;

const SETTINGS: &[u8] = br#"{"version":1,"settings":{"layer_height":"0.1","wall_line_count":3},
"extruders":[{},{"material_flow":"95"}]}"#;

const NEW_SETTINGS: &[u8] = br#"{"version":2,"global":{"layer_height_0":"0.6"},
"meshes":[{"wall_line_count":"x"}]}"#;

const BAD_FACET: &[u8] = b"solid a
facet normal 0 0 1
outer loop
vertex 0 0 0
vertex 0 0
";

// A plate of 0.3 mm, which has one layer by default.
const THIN: Block<'static> = Block {
    low: ["90", "90", "0"],
    high: ["110", "110", "0.3"],
};

// Words, the status, and the line.
type Row = (&'static str, u8, &'static [u8]);

const WORD_ROWS: [Row; 16] = [
    ("", 1, b"error: bad word 1\n"),
    ("plan -l t", 1, b"error: bad word 1\n"),
    ("slice -m0 -l a -o b", 1, b"error: bad word 2\n"),
    ("slice -m65 -l a -o b", 1, b"error: bad word 2\n"),
    ("serial -l a -o", 1, b"error: bad word 4\n"),
    ("serial -s x -l a -o g", 1, b"error: bad word 3\n"),
    ("serial -l t -o o x", 1, b"error: bad word 6\n"),
    ("slice -o g", 1, b"error: no input\n"),
    ("serial -l t", 1, b"error: no output\n"),
    ("slice -l t", 1, b"error: no output\n"),
    ("gen", 1, b"error: bad word 2\n"),
    ("gen 7", 1, b"error: no output\n"),
    ("gen 4294967296 -o o", 1, b"error: bad word 2\n"),
    ("gen 7 -o o x", 1, b"error: bad word 5\n"),
    ("slice -l u -j v -o o", 4, b"error: cannot read u\n"),
    ("check -l t -l u", 4, b"error: cannot read u\n"),
];

const SETTING_ROWS: [Row; 9] = [
    (
        "serial -j list -l t -o o",
        2,
        b"error: not a settings file: list\n",
    ),
    (
        "slice -l bad -j half -o o",
        2,
        b"error: not a settings file: half\n",
    ),
    (
        "serial -o g -s layer_height=abc -l bad",
        2,
        b"error: bad value: global layer_height\n",
    ),
    (
        "slice -o g -s machine_width=0 -l bad",
        2,
        b"error: out of range: global machine_width\n",
    ),
    (
        "check -l t -e1 -s material_flow=0 -l t",
        2,
        b"error: out of range: extruder 1 material_flow\n",
    ),
    (
        "serial -o g -l t -l t -s wall_line_count=x",
        2,
        b"error: bad value: mesh 1 wall_line_count\n",
    ),
    (
        "check -l t -j new",
        2,
        b"error: bad value: mesh 0 wall_line_count\n",
    ),
    (
        "slice -e1 -l t -o g",
        2,
        b"error: unknown extruder: mesh 0\n",
    ),
    ("check -j s -l t", 0, b"checked 1 layers\n"),
];

const MESH_ROWS: [Row; 12] = [
    (
        "serial -o g -l t -l bad",
        3,
        b"error: bad STL: mesh 1 line 5\n",
    ),
    (
        "slice -o g -l empty -l bad",
        3,
        b"error: no triangles: mesh 0\n",
    ),
    ("check -l x", 3, b"error: no triangles: mesh 0\n"),
    ("slice -o g -l zero", 3, b"error: bad STL: mesh 0 line 1\n"),
    (
        "check -l t -l closed",
        3,
        b"error: bad STL: mesh 1 line 1\n",
    ),
    (
        "serial -o g -l t -s mesh_position_z=-0.001",
        3,
        b"error: outside the volume: mesh 0 triangle 0\n",
    ),
    (
        "slice -o g -s layer_height_0=0.6 -l t",
        3,
        b"error: no layers\n",
    ),
    (
        "check -l t -g -s layer_height_0=0.601",
        3,
        b"error: no layers\n",
    ),
    (
        "serial -o g -l t -s layer_height_0=0.6",
        0,
        b"sliced 1 layers\n",
    ),
    ("slice -j s -l t -o o", 0, b"sliced 1 layers\n"),
    (
        "serial -l t -v -p -m7 --journal -s adhesion_type=skirt -o o",
        0,
        b"sliced 1 layers\n",
    ),
    ("check -l t -o o", 0, b"checked 1 layers\n"),
];

#[test]
fn each_refusal_names_its_cause(rt: HostRuntime) -> Result<(), Fail> {
    let thin = THIN.text(rt.alloc(), None, OUTWARD)?;
    let files: [(&str, &[u8]); 10] = [
        ("t", thin.as_bytes()),
        ("bad", BAD_FACET),
        ("zero", b"\0solid a\n"),
        ("closed", b"endsolid a\n"),
        ("empty", b""),
        ("x", b"solid x"),
        ("s", SETTINGS),
        ("new", NEW_SETTINGS),
        ("list", b"[1]"),
        ("half", b"{"),
    ];
    for rows in [
        WORD_ROWS.as_slice(),
        SETTING_ROWS.as_slice(),
        MESH_ROWS.as_slice(),
    ] {
        for (line, status, told) in rows {
            let ended = run(&rt, rt.alloc(), &[line], with_files(&files))?;
            assert!(rt; ended.run.status == *status, "{line}");
            assert!(rt; ended.console.bytes() == *told, "{line}");
            let begins = u64::from(told.starts_with(b"sliced "));
            assert!(rt; ended.sink.begins() == begins, "{line}");
        }
    }
    Ok(())
}

// Files are read in the order of the words, and before any is looked into.
#[test]
fn a_failing_read_names_its_file(rt: HostRuntime) -> Result<(), Fail> {
    let plate = PLATE.text(rt.alloc(), None, OUTWARD)?;
    let files = [
        ("a", plate.as_bytes()),
        ("s", SETTINGS),
        ("b", plate.as_bytes()),
    ];
    for (call, told) in [
        (1, b"error: cannot read a\n".as_slice()),
        (2, b"error: cannot read s\n"),
        (3, b"error: cannot read b\n"),
    ] {
        for command in ["serial", "slice -m2", "check"] {
            let mut outside = with_files(&files);
            outside.failing_read = Some(call);
            let lines = [command, "-l a -j s -l b -o o"];
            let ended = run(&rt, rt.alloc(), &lines, outside)?;
            assert!(rt;
                ended.run.status == 4 && ended.console.bytes() == told,
                "{command} {call}"
            );
            assert!(rt; ended.sink.begins() == 0 && ended.sink.bytes().is_empty());
        }
    }
    Ok(())
}

#[test]
fn no_file_is_read_behind_a_missing_one(rt: HostRuntime) -> Result<(), Fail> {
    let plate = PLATE.text(rt.alloc(), None, OUTWARD)?;
    let files = [("a", plate.as_bytes()), ("s", SETTINGS)];
    for (words, told, reads) in [
        ("-l a -l u -j s", b"error: cannot read u\n", 2),
        ("-j v -l u -l a", b"error: cannot read v\n", 1),
        ("-l a -j s -l a -j v", b"error: cannot read v\n", 4),
    ] {
        for command in ["serial -o o", "slice -m2 -o o", "check"] {
            let ended = run(&rt, rt.alloc(), &[command, words], with_files(&files))?;
            assert!(rt;
                ended.run.status == 4 && ended.reads == reads,
                "{command} {words}"
            );
            assert!(rt;
                ended.console.bytes() == told.as_slice(),
                "{command} {words}"
            );
            assert!(rt; ended.sink.begins() == 0, "{command} {words}");
        }
    }
    Ok(())
}

// A console that fails is the answer only where all else was done; the file is whole.
#[test]
fn a_failing_console_is_told_only_where_all_else_was_done(rt: HostRuntime) -> Result<(), Fail> {
    let plate = PLATE.text(rt.alloc(), None, OUTWARD)?;
    let files = [("plate.stl", plate.as_bytes())];
    for (command, status, held) in [
        ("serial -o o", 7, 672),
        ("slice -o o", 7, 672),
        ("check", 7, 0),
        ("serial", 1, 0),
    ] {
        let outside = Outside {
            failing_line: Some(1),
            ..with_files(&files)
        };
        let ended = run(
            &rt,
            rt.alloc(),
            &[command, ONE_WALL, "-l plate.stl"],
            outside,
        )?;
        assert!(rt;
            ended.run.status == status && ended.console.bytes().is_empty(),
            "{command}"
        );
        assert!(rt; ended.sink.held_at_end() == held, "{command}");
    }
    Ok(())
}

// Each call of the console fails in turn, in the line of what was done and in those of the journal: it has got what
// was told before, and the file is whole.
#[test]
fn a_console_that_fails_later_has_got_what_was_told_before(rt: HostRuntime) -> Result<(), Fail> {
    let plate = PLATE.text(rt.alloc(), None, OUTWARD)?;
    let files = [("plate.stl", plate.as_bytes())];
    let lines = ["slice -m1 --journal -o o", ONE_WALL, "-l plate.stl"];
    let all = run(&rt, rt.alloc(), &lines, with_files(&files))?;
    let told = all.console.bytes();
    let mut failed = 0u32;
    for call in 1..50u32 {
        let mut outside = with_files(&files);
        outside.failing_line = Some(call);
        let ended = run(&rt, rt.alloc(), &lines, outside)?;
        let is_whole = ended.console.bytes() == told;
        assert!(rt; told.starts_with(ended.console.bytes()), "call {call}");
        let status = if is_whole { 0 } else { 7 };
        assert!(rt; ended.run.status == status, "call {call}");
        assert!(rt; ended.sink.held_at_end() == 672, "call {call}");
        failed = failed.saturating_add(u32::from(!is_whole));
    }
    // At least one call a line.
    assert!(rt; failed >= 9 && failed < 49);
    Ok(())
}
