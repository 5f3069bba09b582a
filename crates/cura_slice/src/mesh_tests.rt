// Meshes as users bring them: at the edge of the volume, too low, too high, with holes.

use crate::boxes::{Block, OUTWARD};
use crate::file_tests::ONE_WALL;
use crate::runs::{has, run, with_files};
use std::test::Fail;

// A box, further words, and what is told.
struct Row {
    low: [&'static str; 3],
    high: [&'static str; 3],
    words: &'static str,
    told: &'static [u8],
}

const ROWS: [Row; 8] = [
    Row {
        low: ["0", "0", "0"],
        high: ["200.000", "5", "0.5"],
        words: "",
        told: b"checked 2 layers\n",
    },
    Row {
        low: ["0", "0", "0"],
        high: ["200.001", "5", "0.5"],
        words: "",
        told: b"error: outside the volume: mesh 0 triangle 0\n",
    },
    Row {
        low: ["0", "0", "-1"],
        high: ["9", "9", "1"],
        words: "",
        told: b"error: outside the volume: mesh 0 triangle 0\n",
    },
    Row {
        low: ["0", "0", "0"],
        high: ["20", "20", "20"],
        words: "",
        told: b"checked 99 layers\n",
    },
    Row {
        low: ["0", "0", "0"],
        high: ["9", "9", "0"],
        words: "",
        told: b"error: no layers\n",
    },
    Row {
        low: ["0", "0", "0"],
        high: ["1", "1", "0.150"],
        words: "",
        told: b"error: no layers\n",
    },
    Row {
        low: ["0", "0", "0"],
        high: ["1", "1", "10.290"],
        words: "-s layer_height=0.01",
        told: b"checked 1000 layers\n",
    },
    Row {
        low: ["0", "0", "0"],
        high: ["1", "1", "400.296"],
        words: "-s layer_height=0.01",
        told: b"error: too many layers: 40001\n",
    },
];

#[test]
fn the_volume_and_the_layers_have_their_ends(rt: HostRuntime) -> Result<(), Fail> {
    for row in &ROWS {
        let block = Block {
            low: row.low,
            high: row.high,
        };
        let mesh = block.text(rt.alloc(), None, OUTWARD)?;
        let files = [("m", mesh.as_bytes())];
        let words = if row.high[2].starts_with("20") {
            ""
        } else {
            ONE_WALL
        };
        let lines = ["check -s machine_height=600", words, row.words, "-l m"];
        let ended = run(&rt, rt.alloc(), &lines, with_files(&files))?;
        assert!(rt; ended.console.bytes() == row.told, "{}", row.high[2]);
        assert!(rt; ended.sink.begins() == 0);
    }
    Ok(())
}

// Without one half of a side the outline lacks one edge of 7 mm, whose gap is closed; of 30 mm it stays
// open, is told, and isn't printed.
#[test]
fn a_hole_in_a_mesh_is_closed_or_told(rt: HostRuntime) -> Result<(), Fail> {
    for (y, open, is_printed) in [
        ("7", b";FLAVOR:Marlin\n;OPEN_OUTLINES:0\n".as_slice(), true),
        ("60", b";FLAVOR:Marlin\n;OPEN_OUTLINES:1\n", false),
    ] {
        let block = Block {
            low: ["0", "0", "0"],
            high: ["60", y, "0.3"],
        };
        let mesh = block.text(rt.alloc(), Some(6), OUTWARD)?;
        let files = [("m", mesh.as_bytes())];
        let ended = run(&rt, rt.alloc(), &["slice -o o -l m"], with_files(&files))?;
        assert!(rt; ended.is_done(b"sliced 1 layers\n"));
        assert!(rt; ended.sink.bytes().starts_with(open));
        assert!(rt; has(ended.sink.bytes(), b"\n;TYPE:WALL-OUTER\n") == is_printed);
    }
    Ok(())
}
