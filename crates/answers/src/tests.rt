use super::*;
use mesh_placing::{Excess, Side};
use outside::MemSink;
use settings_core::Scope;
use slice_base::Text;
use std::alloc::Global;
use std::process::Abort;
use std::test::Fail;

// The console gets exactly this line of a refusal.
fn says<R: Abort>(rt: &R, alloc: Global, refusal: Refusal, line: &str) -> Result<(), Fail> {
    let mut console = MemSink::of(alloc, 9, 99, Vec::new(alloc))?;
    put_refusal(&mut console, &refusal)?;
    assert_eq!(rt; console.bytes(), line.as_bytes());
    Ok(())
}

#[test]
fn words_and_files_that_are_at_fault_are_named(rt: HostRuntime) -> Result<(), Fail> {
    let alloc = rt.alloc();
    let name = Text::of(alloc, b"a.stl")?;
    says(
        &rt,
        alloc,
        Refusal::BadWord { index: 3 },
        "error: bad word 3\n",
    )?;
    says(&rt, alloc, Refusal::NoInput, "error: no input\n")?;
    says(&rt, alloc, Refusal::NoOutput, "error: no output\n")?;
    let copy = name.copy(alloc)?;
    says(
        &rt,
        alloc,
        Refusal::ReadFault { name: copy },
        "error: cannot read a.stl\n",
    )?;
    says(
        &rt,
        alloc,
        Refusal::TooLong { name },
        "error: too long: a.stl\n",
    )?;
    says(&rt, alloc, Refusal::WriteFault, "error: cannot write\n")?;
    says(&rt, alloc, Refusal::NoMemory, "error: out of memory\n")
}

#[test]
fn settings_that_are_at_fault_are_named(rt: HostRuntime) -> Result<(), Fail> {
    let alloc = rt.alloc();
    let name = Text::of(alloc, b"s.json")?;
    says(
        &rt,
        alloc,
        Refusal::NotJson { name },
        "error: not a settings file: s.json\n",
    )?;
    let (scope, key) = (Scope::Global, Text::of(alloc, b"layer_height")?);
    says(
        &rt,
        alloc,
        Refusal::BadValue { scope, key },
        "error: bad value: global layer_height\n",
    )?;
    let (scope, key) = (Scope::Extruder(1), Text::of(alloc, b"speed_travel")?);
    says(
        &rt,
        alloc,
        Refusal::OutOfRange { scope, key },
        "error: out of range: extruder 1 speed_travel\n",
    )?;
    let (scope, key) = (Scope::Mesh(0), Text::of(alloc, b"infill_line_distance")?);
    says(
        &rt,
        alloc,
        Refusal::OutOfRange { scope, key },
        "error: out of range: mesh 0 infill_line_distance\n",
    )?;
    says(
        &rt,
        alloc,
        Refusal::UnknownExtruder { mesh: 2 },
        "error: unknown extruder: mesh 2\n",
    )
}

#[test]
fn meshes_that_are_at_fault_are_named(rt: HostRuntime) -> Result<(), Fail> {
    let alloc = rt.alloc();
    let (mesh, line, count, triangle) = (1, 12, 1000001, 7);
    says(
        &rt,
        alloc,
        Refusal::BadStl { mesh, line },
        "error: bad STL: mesh 1 line 12\n",
    )?;
    says(
        &rt,
        alloc,
        Refusal::NoTriangles { mesh },
        "error: no triangles: mesh 1\n",
    )?;
    says(
        &rt,
        alloc,
        Refusal::TooManyTriangles { mesh, count },
        "error: too many triangles: mesh 1 count 1000001\n",
    )?;
    says(
        &rt,
        alloc,
        Refusal::OutsideVolume {
            mesh,
            triangle,
            excess: Excess {
                side: Side::Back,
                by: 3,
            },
        },
        "error: outside the volume: mesh 1 triangle 7\n",
    )?;
    says(&rt, alloc, Refusal::NoLayers, "error: no layers\n")?;
    says(
        &rt,
        alloc,
        Refusal::TooManyLayers { count: 40001 },
        "error: too many layers: 40001\n",
    )?;
    let (layer, count) = (3, 5000000000);
    says(
        &rt,
        alloc,
        Refusal::TooTangled { mesh, layer, count },
        "error: too tangled: mesh 1 layer 3 count 5000000000\n",
    )
}

#[test]
fn what_was_done_is_told_in_lines(rt: HostRuntime) -> Result<(), Fail> {
    let alloc = rt.alloc();
    let mut console = MemSink::of(alloc, 9, 999, Vec::new(alloc))?;
    put_done(&mut console, 50)?;
    put_checked(&mut console, 2)?;
    put_step(&mut console, Step::Claim, 0, 11)?;
    put_step(&mut console, Step::Place, 1, 0)?;
    put_step(&mut console, Step::Take, 63, 0)?;
    put_step(&mut console, Step::Back, 63, 39999)?;
    let job = Generated {
        number: 4294967295,
        triangles: 24,
        layers: 10,
        uses: 3,
        preheats: 2,
        bytes: 18446744073709551616,
    };
    put_generated(&mut console, job)?;
    let lines = "\
sliced 50 layers
checked 2 layers
claim 0 11
place 1 0
take 63 0
back 63 39999
gen 4294967295: triangles 24, layers 10, uses 3, preheats 2, bytes 18446744073709551616
";
    assert_eq!(rt; console.bytes(), lines.as_bytes());
    Ok(())
}
