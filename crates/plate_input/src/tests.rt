// Worked tasks over files in memory.

ghost use Rattle.std.specs.Prelude.{IfOk, IfSome};
ghost use Rattle.std.specs.List.{All};
ghost use Rattle.std.specs.Str.{IsUtf8};
ghost use Rattle.cli_words.specs.Command.{IsTask, item_names};

use crate::{Plate, PlateFault, read_plate};
use answers::{Refusal, put_refusal};
use cli_words::{Command, Task, read_words};
use outside::{MemShelf, MemSink};
use slice_base::Text;
use std::alloc::{AllocError, Global};
use std::test::Fail;

// One triangle, with corners at 0 0 0, 1 0 0 and 0 1 0 mm.
const TRIANGLE: &[u8] =
    b"solid a\nfacet normal 0 0 1\nouter loop\nvertex 0 0 0\nvertex 1 0 0\nvertex 0 1 0\nendloop\nendfacet\nendsolid a\n";

fn shelf(alloc: Global) -> Result<MemShelf, Fail> {
    let mut files = Vec::new(alloc);
    for (name, bytes) in [
        ("a", TRIANGLE),
        ("empty", b"".as_slice()),
        ("bad", b"solid x\nfacet\nfacet\n".as_slice()),
        ("list", b"[1]".as_slice()),
        (
            "thin",
            b"{\"settings\":{\"layer_height\":\"0.1\"}}".as_slice(),
        ),
    ] {
        files.push((
            Text::of(alloc, name.as_bytes())?,
            Vec::from_slice(alloc, bytes)?,
        ))?;
    }
    Ok(MemShelf::of(files, Vec::new(alloc)))
}

fn task(alloc: Global, line: &str) -> Result<Option<Task>, Fail>
    ensures sound { IfOk result (λ found. IfSome found IsTask) }
    ensures utf8 { IfOk result (λ found. IfSome found (λ t. All IsUtf8 (item_names t.items))) }
{
    let mut words = Vec::new(alloc);
    for word in line.split_whitespace() {
        words.push(String::from_str(alloc, word)?)?;
    }
    match read_words(alloc, words.as_slice()) {
        Ok(Command::Serial(task)) => Ok(Some(task)),
        _ => Ok(None),
    }
}

// The line of a fault, as the console gets it.
fn fault_text(alloc: Global, fault: PlateFault) -> Result<String, Fail> {
    let mut console = MemSink::of(alloc, 99, 99, Vec::new(alloc))?;
    put_refusal(&mut console, &Refusal::from(fault))?;
    Ok(String::from_str(alloc, str::from_utf8(console.bytes()).unwrap_or("?"))?)
}

// The layer height, and the x of each triangle's first corner.
fn plate_text(alloc: Global, plate: &Plate) -> Result<String, AllocError> {
    let height = plate.settings.layer_height;
    let mut text = format!(in alloc; "{height}")?;
    for mesh in plate.meshes.items() {
        for t in mesh.triangles() {
            let x = t.a.x;
            let more = format!(in alloc; " {x}")?;
            text.push_str(more.as_str())?;
        }
    }
    Ok(text)
}

// What the task of a command line gives, and how many files were read.
fn answer(alloc: Global, line: &str) -> Result<(String, u64), Fail> {
    let mut shelf = shelf(alloc)?;
    let Some(task) = task(alloc, line)? else {
        return Ok((format!(in alloc; "no task")?, 0));
    };
    let text = match read_plate(alloc, &task, &mut shelf) {
        Ok(plate) => plate_text(alloc, &plate)?,
        Err(fault) => fault_text(alloc, fault)?,
    };
    Ok((text, shelf.reads()))
}

#[test]
fn meshes_stand_in_their_places_with_the_settings_of_words_and_files(
    rt: HostRuntime,
) -> Result<(), Fail> {
    for (line, wanted) in [
        ("serial -o g -l a", "200 0"),
        ("serial -o g -l a -l a -s mesh_position_x=20", "200 0 20000"),
        ("serial -o g -j thin -l a", "100 0"),
        ("serial -o g -j thin -s layer_height=0.3 -l a", "300 0"),
        ("serial -o g -s layer_height=0.3 -j thin -l a", "100 0"),
    ] {
        let (text, _) = answer(rt.alloc(), line)?;
        assert_eq!(rt; text.as_str(), wanted, "at {line}");
    }
    Ok(())
}

#[test]
fn the_first_fault_is_named(rt: HostRuntime) -> Result<(), Fail> {
    for (line, wanted) in [
        (
            "serial -o g -s layer_height=abc -l bad",
            "error: bad value: global layer_height\n",
        ),
        (
            "serial -o g -l bad -s wall_line_width=9",
            "error: out of range: mesh 0 wall_line_width\n",
        ),
        (
            "serial -o g -s machine_width=0 -l a",
            "error: out of range: global machine_width\n",
        ),
        (
            "serial -o g -j list -l a",
            "error: not a settings file: list\n",
        ),
        ("serial -e1 -l a -o g", "error: unknown extruder: mesh 0\n"),
        ("serial -o g -l empty", "error: no triangles: mesh 0\n"),
        ("serial -o g -l a -l bad", "error: bad STL: mesh 1 line 3\n"),
        (
            "serial -o g -l a -s mesh_position_x=-1 -l bad",
            "error: outside the volume: mesh 0 triangle 0\n",
        ),
    ] {
        let (text, _) = answer(rt.alloc(), line)?;
        assert_eq!(rt; text.as_str(), wanted, "at {line}");
    }
    Ok(())
}

#[test]
fn a_missing_file_is_named_before_any_other_fault_of_files(rt: HostRuntime) -> Result<(), Fail> {
    let (text, reads) = answer(rt.alloc(), "serial -o g -j list -l bad -l u -l v")?;
    assert_eq!(rt; text.as_str(), "error: cannot read u\n");
    assert_eq!(rt; reads, 3);
    Ok(())
}
