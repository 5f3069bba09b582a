// What stands before and after the layers.

ghost use Rattle.std.specs.Prelude.{◌≡◌, ◌<◌, ◌≤◌, true, length, ℕ};
ghost use Rattle.std.specs.List.{All};
ghost use Rattle.plan_types.specs.Extruders.{has_bit};
ghost use Rattle.outside.specs.Pens.{Wrote};
ghost use Rattle.gcode_write.specs.Ends.{is_used, is_waiting, print_degrees_of, standby_degrees_of, bed_heating_of, standby_of, standbys_of, heating_of, header_of, off_of, offs_of, bed_off_of, footer_of};

use crate::filament::extruder;
use crate::lines::{put_bed, put_blow, put_count, put_heat, put_plain, put_tool};
use gcode_text::{Counted, FixedLine};
use outside::{Pen, Sink, pens_add_up};
use plan_types::Job;

const ALL_EXTRUDERS: [u8; 8] = [0, 1, 2, 3, 4, 5, 6, 7];

fn has_bit(bits: u8, e: u8) -> bool
    requires { e < 8 }
    ensures { result ≡ has_bit bits e }
{
    bits / (1 << e) % 2 == 1
}

fn is_used(job: &Job, e: u8) -> bool
    requires { e < 8 }
    ensures used { result ≡ is_used job.now e }
    ensures known { result ≡ true → e < length job.now.settings.extruders }
{
    has_bit(job.used, e) || (job.used == 0 && job.first == e)
}

fn is_waiting(job: &Job, e: u8) -> bool
    requires { e < 8 }
    ensures waiting { result ≡ is_waiting job.now e }
    ensures known { result ≡ true → e < length job.now.settings.extruders }
{
    is_used(job, e) && e != job.first
}

// The extruder with which the job starts.
fn first(job: &Job) -> u8
    ensures first { result ≡ job.now.first }
    ensures known { result < length job.now.settings.extruders }
{
    job.first
}

fn bed_degrees(job: &Job) -> u32
    ensures degrees { result ≡ job.now.settings.material_bed_temperature }
    ensures small { result ≤ 200 }
{
    let settings = &job.settings;
    settings.material_bed_temperature
}

fn start_code(job: &Job) -> &[u8]
    ensures { result.now ≡ job.now.settings.machine_start_gcode }
{
    job.settings.machine_start_gcode.bytes()
}

fn end_code(job: &Job) -> &[u8]
    ensures { result.now ≡ job.now.settings.machine_end_gcode }
{
    job.settings.machine_end_gcode.bytes()
}

fn open_outlines(job: &Job) -> u64
    ensures { result ≡ job.now.open_outlines }
{
    job.open_outlines
}

fn layer_count(job: &Job) -> u64
    ensures { result ≡ length job.now.layers }
{
    job.layers.len() as u64
}

// The temperature at which an extruder of the job prints, °C.
fn print_degrees(job: &Job, e: u8) -> u16
    requires { e < length job.now.settings.extruders }
    ensures { result ≡ print_degrees_of job.now e }
{
    extruder(job.settings.extruders.items(), e).material_print_temperature as u16
}

// The temperature at which an extruder of the job waits, °C.
fn standby_degrees(job: &Job, e: u8) -> u16
    requires { e < length job.now.settings.extruders }
    ensures { result ≡ standby_degrees_of job.now e }
{
    extruder(job.settings.extruders.items(), e).material_standby_temperature as u16
}

fn put_bed_heating<S: Sink>(pen: &mut Pen<S>, wait: bool, degrees: u32)
    requires { degrees ≤ 200 }
    ensures { Wrote S.output pen.old (bed_heating_of wait degrees) pen.new }
{
    pens_add_up::<S>();
    if degrees == 0 {
        return;
    }
    put_bed(pen, wait, degrees as u16);
}

fn put_standby<S: Sink>(pen: &mut Pen<S>, job: &Job, e: u8)
    requires { e < 8 }
    ensures { Wrote S.output pen.old (standby_of job.now e) pen.new }
{
    pens_add_up::<S>();
    if !is_waiting(job, e) {
        return;
    }
    put_heat(pen, false, e, standby_degrees(job, e));
}

fn put_standbys<S: Sink>(pen: &mut Pen<S>, job: &Job, extruders: &[u8])
    requires { All (λ (e : ℕ). e < 8) extruders.now }
    ensures { Wrote S.output pen.old (standbys_of job.now extruders.now) pen.new }
{
    pens_add_up::<S>();
    for e in extruders {
        put_standby(pen, job, *e);
    }
}

fn put_heating<S: Sink>(pen: &mut Pen<S>, job: &Job)
    ensures { Wrote S.output pen.old (heating_of job.now) pen.new }
{
    pens_add_up::<S>();
    let first = first(job);
    let bed = bed_degrees(job);
    let print = print_degrees(job, first);
    put_bed_heating(pen, false, bed);
    put_heat(pen, false, first, print);
    put_standbys(pen, job, &ALL_EXTRUDERS);
    put_bed_heating(pen, true, bed);
    put_heat(pen, true, first, print);
}

// Puts what stands before the layers.
pub(crate) fn put_header<S: Sink>(pen: &mut Pen<S>, job: &Job)
    ensures { Wrote S.output pen.old (header_of job.now) pen.new }
{
    pens_add_up::<S>();
    put_plain(pen, FixedLine::Flavor);
    put_count(pen, Counted::OpenOutlines, open_outlines(job));
    put_heating(pen, job);
    pen.put(start_code(job));
    put_plain(pen, FixedLine::Millimetres);
    put_plain(pen, FixedLine::Absolute);
    put_plain(pen, FixedLine::AbsoluteE);
    put_tool(pen, first(job));
    put_plain(pen, FixedLine::ZeroE);
    put_blow(pen, 0);
    put_count(pen, Counted::LayerCount, layer_count(job));
}

fn put_off<S: Sink>(pen: &mut Pen<S>, job: &Job, e: u8)
    requires { e < 8 }
    ensures { Wrote S.output pen.old (off_of job.now e) pen.new }
{
    pens_add_up::<S>();
    if !is_used(job, e) {
        return;
    }
    put_heat(pen, false, e, 0);
}

fn put_offs<S: Sink>(pen: &mut Pen<S>, job: &Job, extruders: &[u8])
    requires { All (λ (e : ℕ). e < 8) extruders.now }
    ensures { Wrote S.output pen.old (offs_of job.now extruders.now) pen.new }
{
    pens_add_up::<S>();
    for e in extruders {
        put_off(pen, job, *e);
    }
}

fn put_bed_off<S: Sink>(pen: &mut Pen<S>, degrees: u32)
    ensures { Wrote S.output pen.old (bed_off_of degrees) pen.new }
{
    pens_add_up::<S>();
    if degrees == 0 {
        return;
    }
    put_bed(pen, false, 0);
}

// Puts what stands after the layers.
pub(crate) fn put_footer<S: Sink>(pen: &mut Pen<S>, job: &Job)
    ensures { Wrote S.output pen.old (footer_of job.now) pen.new }
{
    pens_add_up::<S>();
    put_offs(pen, job, &ALL_EXTRUDERS);
    put_bed_off(pen, bed_degrees(job));
    put_blow(pen, 0);
    pen.put(end_code(job));
}
