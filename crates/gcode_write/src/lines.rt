// Lines that a pen puts, one piece each.

ghost use Rattle.std.specs.Prelude.{◌≡◌};
ghost use Rattle.outside.specs.Pens.{Wrote};
ghost use Rattle.gcode_text.specs.Lines.{travel_of, extrude_of, filament_of, heat_of, bed_of, tool_of, blow_of, plain_of, count_of, kind_of, elapsed_of};

use gcode_text::{
    Counted, FixedLine, Line, bed, blow, count, elapsed, extrude, filament, heat, kind, plain,
    tool, travel,
};
use outside::{Pen, Sink};
use plan_types::Kind;
use slice_base::Pt;

pub(crate) fn put_travel<S: Sink>(pen: &mut Pen<S>, speed: u32, to: Pt, z: Option<i32>)
    ensures { Wrote S.output pen.old (travel_of speed to z) pen.new }
{
    let mut line = Line::new();
    travel(&mut line, speed, to, z);
    pen.put(line.as_slice());
}

pub(crate) fn put_extrude<S: Sink>(pen: &mut Pen<S>, speed: Option<u32>, to: Pt, e: i128)
    ensures { Wrote S.output pen.old (extrude_of speed to e) pen.new }
{
    let mut line = Line::new();
    extrude(&mut line, speed, to, e);
    pen.put(line.as_slice());
}

pub(crate) fn put_filament<S: Sink>(pen: &mut Pen<S>, speed: u32, e: i128)
    ensures { Wrote S.output pen.old (filament_of speed e) pen.new }
{
    let mut line = Line::new();
    filament(&mut line, speed, e);
    pen.put(line.as_slice());
}

pub(crate) fn put_heat<S: Sink>(pen: &mut Pen<S>, wait: bool, extruder: u8, degrees: u16)
    ensures { Wrote S.output pen.old (heat_of wait extruder degrees) pen.new }
{
    let mut line = Line::new();
    heat(&mut line, wait, extruder, degrees);
    pen.put(line.as_slice());
}

pub(crate) fn put_bed<S: Sink>(pen: &mut Pen<S>, wait: bool, degrees: u16)
    ensures { Wrote S.output pen.old (bed_of wait degrees) pen.new }
{
    let mut line = Line::new();
    bed(&mut line, wait, degrees);
    pen.put(line.as_slice());
}

pub(crate) fn put_tool<S: Sink>(pen: &mut Pen<S>, extruder: u8)
    ensures { Wrote S.output pen.old (tool_of extruder) pen.new }
{
    let mut line = Line::new();
    tool(&mut line, extruder);
    pen.put(line.as_slice());
}

pub(crate) fn put_blow<S: Sink>(pen: &mut Pen<S>, power: u8)
    ensures { Wrote S.output pen.old (blow_of power) pen.new }
{
    let mut line = Line::new();
    blow(&mut line, power);
    pen.put(line.as_slice());
}

pub(crate) fn put_plain<S: Sink>(pen: &mut Pen<S>, word: FixedLine)
    ensures { Wrote S.output pen.old (plain_of word) pen.new }
{
    let mut line = Line::new();
    plain(&mut line, word);
    pen.put(line.as_slice());
}

pub(crate) fn put_count<S: Sink>(pen: &mut Pen<S>, what: Counted, n: u64)
    ensures { Wrote S.output pen.old (count_of what n) pen.new }
{
    let mut line = Line::new();
    count(&mut line, what, n);
    pen.put(line.as_slice());
}

pub(crate) fn put_kind<S: Sink>(pen: &mut Pen<S>, of: Kind)
    ensures { Wrote S.output pen.old (kind_of of) pen.new }
{
    let mut line = Line::new();
    kind(&mut line, of);
    pen.put(line.as_slice());
}

pub(crate) fn put_elapsed<S: Sink>(pen: &mut Pen<S>, micros: u128)
    ensures { Wrote S.output pen.old (elapsed_of micros) pen.new }
{
    let mut line = Line::new();
    elapsed(&mut line, micros);
    pen.put(line.as_slice());
}
