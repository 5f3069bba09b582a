// Plans on which nothing is printed, accepted one after another.

ghost use Rattle.std.specs.Prelude.{◌≡◌, ◌+◌, ◌≤◌, [], IfOk};

use crate::PlanBuffer;
use gcode_write::Writer;
use outside::MemSink;
use plan_types::{Inserts, Job, LayerPlan};
use settings_core::resolve;
use slice_base::{Items, Region, Text};
use std::alloc::Global;
use std::test::Fail;

// A job of default settings.
fn job(alloc: Global) -> Result<Job, Fail> {
    let settings = resolve(alloc, &[], &[0])?;
    if settings.meshes.is_empty() || settings.extruders.is_empty() {
        return Err(Fail::new("settings"));
    }
    Ok(Job {
        settings,
        layers: Items::new(alloc),
        skirt: Region::new(alloc),
        first: 0,
        used: 0,
        open_outlines: 0,
    })
}

fn empty_plan(alloc: Global, number: u32) -> LayerPlan
    ensures plans { result.plans ≡ [] }
    ensures inserts { result.inserts ≡ [] }
{
    LayerPlan {
        number,
        z: 300,
        thickness: 200,
        fan: 0,
        lead: 0,
        plans: Items::new(alloc),
        inserts: Inserts::new(),
    }
}

// Accepts that many plans.
fn accept_all(alloc: Global, buffer: &mut PlanBuffer<'_, MemSink>, count: u32)
    requires { buffer.old.window.taken + count ≤ 40000 }
{
    for number in 0..count {
        let _ = buffer.accept(empty_plan(alloc, number));
    }
}

// A buffer into a sink of 4,000 bytes.
fn buffer_of(alloc: Global, job: &Job) -> Result<PlanBuffer<'_, MemSink>, Fail>
    ensures { IfOk result (λ b. b.window.taken ≡ 0) }
{
    let sink = MemSink::of(alloc, 1000, 4000, Vec::new(alloc))?;
    match Writer::begin(sink, job, Text::of(alloc, b"o")?) {
        Ok(writer) => Ok(PlanBuffer::make(alloc, writer)),
        Err(_) => Err(Fail::new("begin")),
    }
}

const HEADER: &[u8] = b";FLAVOR:Marlin
;OPEN_OUTLINES:0
M140 S60
M104 T0 S210
M190 S60
M109 T0 S210
G28
G21
G90
M82
T0
G92 E0
M107
;LAYER_COUNT:0
";

const FOOTER: &[u8] = b"M104 T0 S0
M140 S0
M107
M84
";

// The header, and the texts of that many layers.
fn written(alloc: Global, layers: u8) -> Result<Vec<u8>, Fail>
    requires { layers ≤ 10 }
{
    let mut text = Vec::new(alloc);
    text.extend_from_slice(HEADER)?;
    for number in 0..layers {
        text.extend_from_slice(b";LAYER:")?;
        text.push(b'0' + number)?;
        text.extend_from_slice(b"\n;TIME_ELAPSED:0.000000\n")?;
    }
    Ok(text)
}

#[test]
fn plans_are_written_a_window_later(rt: HostRuntime) -> Result<(), Fail> {
    let alloc = rt.alloc();
    let job = job(alloc)?;
    // plans accepted, plans held then, layers written then
    let cases: [(u32, u32, u8); 4] = [(0, 0, 0), (5, 5, 0), (6, 5, 1), (7, 5, 2)];
    for (accepted, held, layers) in cases {
        let mut buffer = buffer_of(alloc, &job)?;
        accept_all(alloc, &mut buffer, accepted.min(10));
        assert_eq!(rt; buffer.held(), held);
        assert_eq!(rt; buffer.failed(), false);
        assert_eq!(rt; buffer.faults(), 0);
        let text = written(alloc, layers.min(10))?;
        assert_eq!(rt; buffer.bytes(), text.len() as u128);
        assert_eq!(rt; buffer.into_sink().bytes(), text.as_slice());
    }
    Ok(())
}

#[test]
fn all_plans_and_the_footer_are_written_in_the_end(rt: HostRuntime) -> Result<(), Fail> {
    let alloc = rt.alloc();
    let job = job(alloc)?;
    let mut buffer = buffer_of(alloc, &job)?;
    accept_all(alloc, &mut buffer, 7);
    assert_eq!(rt; buffer.flush().is_ok(), true);
    let mut text = written(alloc, 7)?;
    text.extend_from_slice(FOOTER)?;
    assert_eq!(rt; buffer.bytes(), text.len() as u128);
    let sink = buffer.into_sink();
    assert_eq!(rt; sink.bytes(), text.as_slice());
    assert_eq!(rt; sink.held_at_end(), text.len());
    Ok(())
}
