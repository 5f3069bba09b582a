// The lines. Each call empties the line that it is given and writes one, with its line feed.

ghost use Rattle.std.specs.Prelude.{◌≡◌};
ghost use Rattle.gcode_text.specs.Lines.{travel_of, extrude_of, filament_of, heat_of, bed_of, tool_of, blow_of, plain_of, count_of, kind_of, elapsed_of};

use crate::append::{
    Line, Signed, append, append_decimal, append_extrusion, append_feed, append_feed_if_given,
    append_height_if_given, append_millionths, append_point,
};
use crate::labels::{
    Counted, FixedLine, bed_label, count_label, fixed_label, heat_label, kind_label,
};
use plan_types::Kind;
use slice_base::Pt;

/// `G0 F X Y`, and ` Z` where a height is given: a travel. Speed in µm/s, lengths in µm.
pub fn travel(line: &mut Line, speed: u32, to: Pt, z: Option<i32>)
    ensures { line.new.items ≡ travel_of speed to z }
{
    line.clear();
    append(line, b"G0");
    append_feed(line, speed);
    append_point(line, to);
    append_height_if_given(line, z);
    append(line, b"\n");
}

/// `G1 F X Y E`, or `G1 X Y E` where no speed is given: a print move. Speed in µm/s, the point in µm; `e` is
/// the filament since its last zero, in hundred-thousandths of a millimetre.
pub fn extrude(line: &mut Line, speed: Option<u32>, to: Pt, e: i128)
    ensures { line.new.items ≡ extrude_of speed to e }
{
    line.clear();
    append(line, b"G1");
    append_feed_if_given(line, speed);
    append_point(line, to);
    append_extrusion(line, Signed { value: e });
    append(line, b"\n");
}

/// `G1 F E`: a retraction or its end. Speed in µm/s; `e` as in `extrude`.
pub fn filament(line: &mut Line, speed: u32, e: i128)
    ensures { line.new.items ≡ filament_of speed e }
{
    line.clear();
    append(line, b"G1");
    append_feed(line, speed);
    append_extrusion(line, Signed { value: e });
    append(line, b"\n");
}

/// `M109 T S` with waiting, `M104 T S` without: an extruder's temperature in °C.
pub fn heat(line: &mut Line, wait: bool, extruder: u8, degrees: u16)
    ensures { line.new.items ≡ heat_of wait extruder degrees }
{
    line.clear();
    append(line, heat_label(wait));
    append_decimal(line, u64::from(extruder));
    append(line, b" S");
    append_decimal(line, u64::from(degrees));
    append(line, b"\n");
}

/// `M190 S` with waiting, `M140 S` without: the bed's temperature in °C.
pub fn bed(line: &mut Line, wait: bool, degrees: u16)
    ensures { line.new.items ≡ bed_of wait degrees }
{
    line.clear();
    append(line, bed_label(wait));
    append_decimal(line, u64::from(degrees));
    append(line, b"\n");
}

/// `T`: the extruder that prints from here on.
pub fn tool(line: &mut Line, extruder: u8)
    ensures { line.new.items ≡ tool_of extruder }
{
    line.clear();
    append(line, b"T");
    append_decimal(line, u64::from(extruder));
    append(line, b"\n");
}

/// `M106 S`, or `M107` for 0: the power of the fan, of 255 at most.
pub fn blow(line: &mut Line, power: u8)
    ensures { line.new.items ≡ blow_of power }
{
    line.clear();
    if power == 0 {
        append(line, b"M107\n");
        return;
    }
    append(line, b"M106 S");
    append_decimal(line, u64::from(power));
    append(line, b"\n");
}

/// A line that is always the same.
pub fn plain(line: &mut Line, word: FixedLine)
    ensures { line.new.items ≡ plain_of word }
{
    line.clear();
    append(line, fixed_label(word));
    append(line, b"\n");
}

/// A number of what is counted.
pub fn count(line: &mut Line, what: Counted, n: u64)
    ensures { line.new.items ≡ count_of what n }
{
    line.clear();
    append(line, count_label(what));
    append_decimal(line, n);
    append(line, b"\n");
}

/// `;TYPE:`: what the paths that follow are part of.
pub fn kind(line: &mut Line, kind: Kind)
    ensures { line.new.items ≡ kind_of kind }
{
    line.clear();
    append(line, b";TYPE:");
    append(line, kind_label(kind));
    append(line, b"\n");
}

/// `;TIME_ELAPSED:`: a time in µs since the beginning of the print, as seconds.
pub fn elapsed(line: &mut Line, micros: u128)
    ensures { line.new.items ≡ elapsed_of micros }
{
    line.clear();
    append(line, b";TIME_ELAPSED:");
    append_millionths(line, micros);
    append(line, b"\n");
}
