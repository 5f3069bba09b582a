// What the program says of itself.

use crate::help::{Topic, tell};
use outside::MemSink;
use std::alloc::Global;
use std::test::Fail;

// The status, and what the console got, whose calls in the list fail.
fn told(alloc: Global, topic: Topic, failing: &[u32]) -> Result<(u8, MemSink), Fail> {
    let mut console = MemSink::of(alloc, 1000, 100000, Vec::from_slice(alloc, failing)?)?;
    let status = tell(alloc, topic, &mut console);
    Ok((status, console))
}

fn has_line(text: &[u8], line: &str) -> bool {
    text.split(|byte| *byte == b'\n')
        .any(|it| it == line.as_bytes())
}

#[test]
fn the_table_has_a_setting_in_two_lines(rt: HostRuntime) -> Result<(), Fail> {
    let (status, console) = told(rt.alloc(), Topic::Settings, &[])?;
    assert!(rt; status == 0);
    for line in [
        "  infill_line_distance            mm    0, or 0.1 to 100     4",
        "  material_print_temperature      °C    0 to 400             210",
        "  center_object                   -     true, false          false",
        "      The extruder that prints the mesh, counted from 0.",
    ] {
        assert!(rt; has_line(console.bytes(), line));
    }
    Ok(())
}

#[test]
fn usage_messages_and_version_are_told(rt: HostRuntime) -> Result<(), Fail> {
    let (status, console) = told(rt.alloc(), Topic::Usage, &[])?;
    assert!(rt;
        status == 0 && has_line(console.bytes(), "  cura_slice --help [settings | messages]")
    );
    let (status, console) = told(rt.alloc(), Topic::Messages, &[])?;
    assert!(rt; status == 0 && has_line(console.bytes(), "error: too many layers: <n>"));
    let (status, console) = told(rt.alloc(), Topic::Version, &[])?;
    assert!(rt; status == 0 && has_line(console.bytes(), "cura_slice 0.1.0"));
    Ok(())
}

#[test]
fn a_console_that_fails_has_its_status(rt: HostRuntime) -> Result<(), Fail> {
    let (status, console) = told(rt.alloc(), Topic::Usage, &[1])?;
    assert!(rt; status == 7 && console.bytes().is_empty());
    Ok(())
}
