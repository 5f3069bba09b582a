// What stands before a path: the extruder that is left, preheats, the extruder that follows.

ghost use Rattle.std.specs.Prelude.{◌≡◌, ◌<◌, ◌==◌, length};
ghost use Rattle.outside.specs.Pens.{Wrote};
ghost use Rattle.gcode_write.specs.Paths.{leave_of, insert_of, inserts_of, change_of, enter_of, boundary_of};

use crate::filament::extruder;
use crate::lines::{put_heat, put_plain, put_tool};
use gcode_text::FixedLine;
use outside::{Pen, Sink, pens_add_up};
use plan_types::Insert;
use settings_core::ExtruderSettings;

fn put_leave<S: Sink>(pen: &mut Pen<S>, extruders: &[ExtruderSettings], stays: bool, from: u8)
    requires { from < length extruders.now }
    ensures { Wrote S.output pen.old (leave_of extruders.now stays from) pen.new }
{
    pens_add_up::<S>();
    if stays {
        return;
    }
    let degrees = extruder(extruders, from).material_standby_temperature;
    put_heat(pen, false, from, degrees as u16);
}

fn put_insert<S: Sink>(pen: &mut Pen<S>, at: u64, insert: Insert)
    ensures { Wrote S.output pen.old (insert_of at insert) pen.new }
{
    pens_add_up::<S>();
    if insert.at != at {
        return;
    }
    put_heat(pen, false, insert.extruder, insert.degrees);
}

fn put_inserts<S: Sink>(pen: &mut Pen<S>, at: u64, inserts: &[Insert])
    ensures { Wrote S.output pen.old (inserts_of at inserts.now) pen.new }
{
    pens_add_up::<S>();
    for insert in inserts {
        put_insert(pen, at, *insert);
    }
}

fn put_change<S: Sink>(pen: &mut Pen<S>, e: u8, degrees: u16)
    ensures { Wrote S.output pen.old (change_of e degrees) pen.new }
{
    pens_add_up::<S>();
    put_tool(pen, e);
    put_heat(pen, true, e, degrees);
    put_plain(pen, FixedLine::ZeroE);
}

fn put_enter<S: Sink>(pen: &mut Pen<S>, extruders: &[ExtruderSettings], stays: bool, e: u8)
    requires { e < length extruders.now }
    ensures { Wrote S.output pen.old (enter_of extruders.now stays e) pen.new }
{
    pens_add_up::<S>();
    if stays {
        return;
    }
    let degrees = extruder(extruders, e).material_print_temperature;
    put_change(pen, e, degrees as u16);
}

pub(crate) fn put_boundary<S: Sink>(
    pen: &mut Pen<S>,
    extruders: &[ExtruderSettings],
    from: u8,
    e: u8,
    at: u64,
    inserts: &[Insert],
)
    requires from { from < length extruders.now }
    requires known { e < length extruders.now }
    ensures { Wrote S.output pen.old (boundary_of extruders.now from e at inserts.now) pen.new }
{
    pens_add_up::<S>();
    let stays = from == e;
    put_leave(pen, extruders, stays, from);
    put_inserts(pen, at, inserts);
    put_enter(pen, extruders, stays, e);
}
