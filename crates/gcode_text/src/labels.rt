// The fixed parts of lines.

ghost use Rattle.std.specs.Prelude.{◌≡◌, ◌≤◌, length};
ghost use Rattle.gcode_text.specs.Lines.{heat_label_of, bed_label_of, fixed_label_of, count_label_of, kind_label_of};

use plan_types::Kind;

/// The lines that are always the same.
#[derive(Clone, Copy, PartialEq, Eq, Debug)]
pub enum FixedLine {
    /// `;FLAVOR:Marlin`: the firmware that the file is for.
    Flavor,
    /// `G21`: lengths are millimetres.
    Millimetres,
    /// `G90`: points are told from the origin, and not from the point before.
    Absolute,
    /// `M82`: filament is told from its last zero, and not from the line before.
    AbsoluteE,
    /// `G92 E0`: the filament is at zero here.
    ZeroE,
}

/// What a line counts.
#[derive(Clone, Copy, PartialEq, Eq, Debug)]
pub enum Counted {
    /// `;OPEN_OUTLINES:`: how many outlines stayed open and were left out.
    OpenOutlines,
    /// `;LAYER_COUNT:`: how many layers the file has.
    LayerCount,
    /// `;LAYER:`: the number of the layer that begins, from 0.
    Layer,
}

pub(crate) fn heat_label(wait: bool) -> &'static [u8]
    ensures label { result.now ≡ heat_label_of wait }
    ensures short { length result.now ≤ 6 }
{
    if wait { b"M109 T" } else { b"M104 T" }
}

pub(crate) fn bed_label(wait: bool) -> &'static [u8]
    ensures label { result.now ≡ bed_label_of wait }
    ensures short { length result.now ≤ 6 }
{
    if wait { b"M190 S" } else { b"M140 S" }
}

pub(crate) fn fixed_label(word: FixedLine) -> &'static [u8]
    ensures label { result.now ≡ fixed_label_of word }
    ensures short { length result.now ≤ 20 }
{
    match word {
        FixedLine::Flavor => b";FLAVOR:Marlin",
        FixedLine::Millimetres => b"G21",
        FixedLine::Absolute => b"G90",
        FixedLine::AbsoluteE => b"M82",
        FixedLine::ZeroE => b"G92 E0",
    }
}

pub(crate) fn count_label(what: Counted) -> &'static [u8]
    ensures label { result.now ≡ count_label_of what }
    ensures short { length result.now ≤ 20 }
{
    match what {
        Counted::OpenOutlines => b";OPEN_OUTLINES:",
        Counted::LayerCount => b";LAYER_COUNT:",
        Counted::Layer => b";LAYER:",
    }
}

pub(crate) fn kind_label(kind: Kind) -> &'static [u8]
    ensures label { result.now ≡ kind_label_of kind }
    ensures short { length result.now ≤ 10 }
{
    match kind {
        Kind::WallOuter => b"WALL-OUTER",
        Kind::WallInner => b"WALL-INNER",
        Kind::Skin => b"SKIN",
        Kind::Fill => b"FILL",
        Kind::Skirt => b"SKIRT",
        Kind::Support => b"SUPPORT",
    }
}
