// What standard error gets, beside what standard output gets.

use crate::boxes::{Block, OUTWARD, PLATE};
use crate::file_tests::ONE_WALL;
use crate::preheat_tests::BESIDE;
use crate::running::run;
use outside::{MemShelf, MemSink, NoGate};
use slice_base::Text;
use std::alloc::Global;
use std::sync::Wait;
use std::test::Fail;
use std::thread::Threads;

// A plate of two layers that is outside of the bed.
const OUT: Block<'static> = Block {
    low: ["190", "90", "0"],
    high: ["210", "110", "0.5"],
};

// A wide plate of two layers, of whose section each facet of a side has more than 10 mm.
const WIDE: Block<'static> = Block {
    low: ["70", "70", "0"],
    high: ["130", "130", "0.5"],
};

// A settings file with a key that is mistyped, one that stands in a wrong object, and one of another slicer.
const TYPED: &[u8] = br#"{"version":2,"global":{"support_enable":true,"layer_hieght":0.3},
"meshes":[{"layer_height":"0.3","layer_hieght":0.3}]}"#;

// What a run told: its status, and what the console and the notes got.
#[derive(Drop)]
struct Heard {
    status: u8,
    console: MemSink,
    notes: MemSink,
}

// Files of that name, in a shelf.
fn shelf_of(alloc: Global, files: &[(&str, &[u8])]) -> Result<MemShelf, Fail> {
    let mut held = Vec::new(alloc);
    for (name, bytes) in files {
        held.push((
            Text::of(alloc, name.as_bytes())?,
            Vec::from_slice(alloc, bytes)?,
        ))?;
    }
    Ok(MemShelf::of(held, Vec::new(alloc)))
}

// A run whose notes go to a sink, of which one call may fail.
fn run_with_notes<R: Threads + Wait + Sync>(
    rt: &R,
    alloc: Global,
    line: &str,
    files: &[(&str, &[u8])],
    failing: Option<u32>,
) -> Result<Heard, Fail> {
    let mut words = Vec::new(alloc);
    for word in line.split_whitespace() {
        words.push(String::from_str(alloc, word)?)?;
    }
    let mut calls = Vec::new(alloc);
    if let Some(call) = failing {
        calls.push(call)?;
    }
    let shelf = shelf_of(alloc, files)?;
    let sink = MemSink::of(alloc, 1000, 100_000, Vec::new(alloc))?;
    let mut console = MemSink::of(alloc, 1000, 10_000, Vec::new(alloc))?;
    let mut notes = MemSink::of(alloc, 7, 10_000, calls)?;
    let (status, _sink, _shelf) = run(
        rt,
        alloc,
        Ok(words),
        shelf,
        sink,
        &mut console,
        &mut notes,
        &NoGate,
    );
    Ok(Heard {
        status,
        console,
        notes,
    })
}

// Words, and all that standard error gets.
type Row = (&'static str, &'static str);

const WORD_ROWS: [Row; 12] = [
    (
        "plan -l t",
        "advice: 'plan' is no command: slice, serial, check, gen; see cura_slice --help\n",
    ),
    (
        "slice part.stl -o g",
        "advice: 'part.stl' is behind no -l, -o, -j or -s; see cura_slice --help\n",
    ),
    (
        "slice -m65 -l t -o g",
        "advice: '-m65' is no number of threads: -m1 to -m64; see cura_slice --help\n",
    ),
    (
        "slice -e8 -l t -o g",
        "advice: '-e8' is no extruder: -e0 to -e7; see cura_slice --help\n",
    ),
    (
        "slice --fast -l t -o g",
        "advice: '--fast' is no option; see cura_slice --help\n",
    ),
    (
        "slice -s x -l t -o g",
        "advice: 'x' is no pair: -s KEY=VALUE; see cura_slice --help\n",
    ),
    (
        "slice -l t -o",
        "advice: '-o' wants a word behind it; see cura_slice --help\n",
    ),
    (
        "slice -o -s x -l t",
        "advice: 'x' is behind no -l, -o, -j or -s; see cura_slice --help\n",
    ),
    (
        "gen",
        "advice: a number is wanted: cura_slice gen NUMBER -o FILE\n",
    ),
    (
        "gen 4294967296 -o g",
        "advice: '4294967296' fits nowhere: cura_slice gen NUMBER -o FILE, and the number is at most 4294967295; see cura_slice --help\n",
    ),
    ("slice -o g", "advice: name a mesh, as in: -l part.stl\n"),
    (
        "slice -l t",
        "advice: name the file to write, as in: -o part.gcode\n",
    ),
];

const JOB_ROWS: [Row; 18] = [
    (
        "check -l u",
        "advice: is there a file 'u' here, and may it be read?\n",
    ),
    (
        "check -l t -j bad",
        "advice: 'bad' has to be JSON with an object \"global\" (version 2) or \"settings\" (version 1)\n",
    ),
    (
        "check -s layer_height=0,1 -l t",
        "advice: layer_height takes 0.01 to 2 mm, and not '0,1'\n",
    ),
    (
        "check -s layer_height=3 -j set -l t",
        "advice: layer_height takes 0.01 to 2 mm\n",
    ),
    (
        "check -l t -s z_seam_type=left",
        "advice: z_seam_type takes shortest, back, sharpest_corner, random, and not 'left'\n",
    ),
    (
        "check -e1 -l t",
        "advice: set machine_extruder_count, or give t another extruder by -e before it\n",
    ),
    (
        "check -l t -l bad",
        "advice: where it is a binary STL, convert it: admesh --write-ascii-stl=ascii.stl bad\n",
    ),
    (
        "check -l cut",
        "advice: line 3 of cut is no line of an ASCII STL, or the file ends too early: export it anew\n",
    ),
    (
        "check -l empty",
        "advice: is empty an ASCII STL in mm? A binary one whose header begins with solid has no facet here\n",
    ),
    (
        "check -l out",
        "advice: out is outside by 10.000 mm on the right: move it by -s center_object=true or mesh_position_x behind it, or set machine_width\n",
    ),
    (
        "check -l t -s mesh_position_y=-100.02 -s mesh_position_z=-0.5",
        "advice: t is outside by 10.020 mm in front: move it by -s center_object=true or mesh_position_y behind it\n",
    ),
    (
        "check -l out -s machine_widht=300",
        "advice: out is outside by 10.000 mm on the right: move it by -s center_object=true or mesh_position_x behind it, or set machine_width
note: 'machine_widht' has no effect: is machine_width meant?\n",
    ),
    (
        "check -s layer_height_0=1.5 -l t",
        "advice: are the meshes in mm? None reaches above half of layer_height_0\n",
    ),
    (
        "check -s support_enable=true -l t -s support_enable=false -s layer_height=0.1 -e0 -s extruder_nr=0",
        "note: 'layer_height' has no effect there: it is of the whole print, so put it before -l and -e, or behind -g
note: 'extruder_nr' has no effect there: it is of a mesh, so put it behind its -l
note: 'support_enable' has no effect\n",
    ),
    (
        "check -s support_enable=true -j typed -l t",
        "note: 'layer_hieght' has no effect: is layer_height meant?
note: 'layer_height' has no effect in extruders and meshes: it is of the whole print
note: 'support_enable' has no effect\n",
    ),
    (
        "check -l t -j bad -s layer_hieght=1",
        "advice: 'bad' has to be JSON with an object \"global\" (version 2) or \"settings\" (version 1)
note: 'layer_hieght' has no effect: is layer_height meant?\n",
    ),
    (
        "check -l t -v",
        "totals: layers 2, of them empty 0, open outlines 0\n",
    ),
    ("check -l t -o -v", ""),
];

#[test]
fn each_refusal_has_a_line_of_advice(rt: HostRuntime) -> Result<(), Fail> {
    let plate = PLATE.text(rt.alloc(), None, OUTWARD)?;
    let out = OUT.text(rt.alloc(), None, OUTWARD)?;
    let files: [(&str, &[u8]); 7] = [
        ("t", plate.as_bytes()),
        ("out", out.as_bytes()),
        ("bad", b"\x01\x02"),
        ("cut", b"solid a\nfacet normal 0 0 1\nouter\n"),
        ("empty", b"solid x"),
        ("set", br#"{"version":2,"global":{}}"#),
        ("typed", TYPED),
    ];
    for rows in [WORD_ROWS.as_slice(), JOB_ROWS.as_slice()] {
        for (line, noted) in rows {
            let told = run_with_notes(&rt, rt.alloc(), line, &files, None)?;
            assert!(rt; told.notes.bytes() == noted.as_bytes(), "{line}");
            let is_refused = told.console.bytes().starts_with(b"error: ");
            assert!(rt; is_refused == noted.starts_with("advice: "), "{line}");
        }
    }
    Ok(())
}

#[test]
fn the_usage_is_told_where_help_is_wanted(rt: HostRuntime) -> Result<(), Fail> {
    for line in ["", "-h", "help"] {
        let told = run_with_notes(&rt, rt.alloc(), line, &[], None)?;
        assert!(rt;
            told.status == 1 && told.console.bytes() == b"error: bad word 1\n".as_slice(),
            "{line}"
        );
        assert!(rt;
            told.notes
                .bytes()
                .starts_with(b"cura_slice slices ASCII STL meshes"),
            "{line}"
        );
    }
    Ok(())
}

// A profile has many keys of another slicer: 20 notes are told, and how many there are more.
#[test]
fn of_many_keys_the_first_are_told(rt: HostRuntime) -> Result<(), Fail> {
    let plate = PLATE.text(rt.alloc(), None, OUTWARD)?;
    let mut profile = String::from_str(rt.alloc(), "{\"version\":2,\"global\":{")?;
    for i in 0..25u32 {
        profile.push_str(format!(in rt.alloc(); "\"unknown_key_{i:02}\":0,")?.as_str())?;
    }
    profile.push_str("\"layer_hieght\":0}}")?;
    let files = [("t", plate.as_bytes()), ("cura", profile.as_bytes())];
    let told = run_with_notes(&rt, rt.alloc(), "check -l t -j cura -j cura", &files, None)?;
    let mut noted = String::from_str(
        rt.alloc(),
        "note: 'layer_hieght' has no effect: is layer_height meant?\n",
    )?;
    for i in 0..19u32 {
        noted.push_str(format!(in rt.alloc();
            "note: 'unknown_key_{i:02}' has no effect\n"
        )?.as_str())?;
    }
    noted.push_str("note: and 6 more have no effect\n")?;
    assert!(rt; told.status == 0);
    assert!(rt; told.notes.bytes() == noted.as_bytes());
    Ok(())
}

// A plate with a hole in its side is sliced, and nothing of it is printed.
#[test]
fn an_empty_print_is_told(rt: HostRuntime) -> Result<(), Fail> {
    let open = WIDE.text(rt.alloc(), Some(6), OUTWARD)?;
    let files = [("open.stl", open.as_bytes())];
    let noted = b"warning: outlines that stayed open and were left out: 2; a mesh has holes, mend it
warning: layers on which nothing is printed: 2 of 2
"
        .as_slice();
    for command in ["slice", "slice -m1", "serial", "check"] {
        for (failing, held) in [(None, noted.len()), (Some(2), 7)] {
            let mut line = String::from_str(rt.alloc(), command)?;
            line.push_str(" -o g -l open.stl")?;
            let told = run_with_notes(&rt, rt.alloc(), line.as_str(), &files, failing)?;
            assert!(rt; told.status == 0, "{command}");
            assert!(rt; told.console.bytes().ends_with(b" 2 layers\n"), "{command}");
            assert!(rt; told.notes.bytes().len() == held, "{command}");
            assert!(rt; noted.starts_with(told.notes.bytes()), "{command}");
        }
    }
    Ok(())
}

// Words behind `slice`, and the time and the filament of its job.
const SPENT_ROWS: [Row; 3] = [
    (
        "-l t",
        "totals: time 0 h 0 min 7 s
totals: extruder 0, filament 6.519 mm
",
    ),
    (
        "-l wide -s speed_wall_0=0.1",
        "totals: time 1 h 19 min 30 s
totals: extruder 0, filament 19.823 mm
",
    ),
    (
        "-s machine_extruder_count=2 -l t -e1 -s material_flow=50 -l beside",
        "totals: time 0 h 0 min 14 s
totals: extruder 0, filament 6.519 mm
totals: extruder 1, filament 3.259 mm
",
    ),
];

// The times and E of a plate's file; of a wide one, at 0.1 mm/s; of two plates, by two extruders, one with half the flow.
#[test]
fn time_and_filament_are_told(rt: HostRuntime) -> Result<(), Fail> {
    let plate = PLATE.text(rt.alloc(), None, OUTWARD)?;
    let beside = BESIDE.text(rt.alloc(), None, OUTWARD)?;
    let wide = WIDE.text(rt.alloc(), None, OUTWARD)?;
    let files = [
        ("t", plate.as_bytes()),
        ("beside", beside.as_bytes()),
        ("wide", wide.as_bytes()),
    ];
    let all = b"totals: layers 2, of them empty 0, open outlines 0\n".as_slice();
    for command in ["slice -v -o g ", "slice -v -o g -m1 ", "serial -v -o g "] {
        for (words, spent) in SPENT_ROWS {
            let mut line = String::from_str(rt.alloc(), command)?;
            for part in [ONE_WALL, " ", words] {
                line.push_str(part)?;
            }
            let told = run_with_notes(&rt, rt.alloc(), line.as_str(), &files, None)?;
            let notes = told.notes.bytes();
            assert!(rt; notes.starts_with(all), "{line}");
            assert!(rt; notes.ends_with(spent.as_bytes()), "{line}");
            assert!(rt; notes.len() == all.len() + spent.len(), "{line}");
        }
    }
    Ok(())
}
