// What the program says of itself: its words, the table of settings, what to do about refusals, its version.

ghost use Rattle.std.specs.Prelude.{◌≡◌, ◌⊎◌, map, string_bytes};
ghost use Rattle.outside.specs.Output.{Put, PutFront};
ghost use Rattle.cura_slice.specs.Help.{has_word, asked_of};
ghost use Rattle.cura_slice.specs.Telling.{Told};

use crate::listing::listing;
use outside::{Sink, put_all};
use slice_base::NoMemory;
use std::alloc::Global;

pub(crate) const USAGE: &str = "\
cura_slice slices ASCII STL meshes into one G-code file for Marlin.

Usage:
  cura_slice slice [WORDS] -l MESH -o FILE
  cura_slice serial [WORDS] -l MESH -o FILE
  cura_slice check [WORDS] -l MESH
  cura_slice gen NUMBER -o FILE
  cura_slice --help [settings | messages]
  cura_slice --version

Commands:
  slice           slices with several threads, and prints: sliced <layers> layers
  serial          the same with one thread; the file is the same
  check           does all but writing, and prints: checked <layers> layers
  gen             draws two meshes by the number, up to 4294967295, slices them with
                  one thread and prints what they are

Words behind slice, serial and check, in any order:
  -l MESH         a mesh, an ASCII STL file in mm; at most 16
  -o FILE         the file to write; the last one counts; check writes none
  -s KEY=VALUE    a setting, as in: cura_slice --help settings
  -j FILE         a settings file in JSON, whose settings stand here; at most 16
  -g              the -s behind it are for the whole print
  -eN             the -s behind it are for extruder N, 0 to 7, which prints the
                  meshes behind it
  -mN             threads, 1 to 64, in place of 4; without effect but in slice
  --journal       prints what each thread did with each layer, a line a step; without
                  effect but in slice
  -v              tells totals on standard error
  -p              shows on a terminal which layer is planned; without effect but in slice

The -s behind a -l are for that mesh, those before any -l, -e and -g for the
whole print. A mesh's own setting goes before its extruder's, and that before
the whole print's; of those in one place the last counts.

The file has walls, skin, infill and skirt of each layer, with travels, retractions,
speeds, fan and temperatures. An extruder is heated up again before its turn comes.
The line ;OPEN_OUTLINES:<n> tells how many outlines a mesh with holes left open; these
aren't printed, and a warning on standard error says so.

Statuses:
  0  done
  1  a word is at fault
  2  a setting is at fault
  3  the content of a file is at fault
  4  a file couldn't be read
  5  the output couldn't be written
  6  there was no memory
  7  standard output failed after all else was done
A job that isn't done prints one line, error: <what>: see cura_slice --help messages.
What to do about it is told on standard error.

Example:
  cura_slice slice -s layer_height=0.1 -l part.stl -s center_object=true -o part.gcode
";

// Each line of a refusal, in the order in which they are tested, and what to do about it.
const MESSAGES: &str = "\
What is printed where a job isn't done, and what to do. The first that holds is told.
Words and lines count from 1; meshes, triangles and layers count from 0.

error: bad word <n>
    That word behind the program's name fits nowhere. See: cura_slice --help.
error: no input
    Name a mesh: -l part.stl.
error: no output
    Name the file to write: -o part.gcode.
error: cannot read <file>
    It isn't there, or it is a folder, or it may not be read.
error: too long: <file>
    It has over 268435456 bytes. Export the mesh coarser, or in parts.
error: not a settings file: <file>
    It isn't JSON, or lacks the object \"global\" (version 2) or \"settings\" (version 1).
error: bad value: <scope> <key>
    The setting has no such value. See: cura_slice --help settings. In a settings file
    a number with a fraction stands between quotes, as \"0.2\".
error: out of range: <scope> <key>
    See: cura_slice --help settings.
error: unknown extruder: mesh <i>
    Set machine_extruder_count, or give the mesh another extruder by -e before it.
error: bad STL: mesh <i> line <n>
    The line is no line of an ASCII STL. At line 1 or 2 the file may be a binary STL:
    admesh --write-ascii-stl=part.stl binary.stl
error: too many triangles: mesh <i> count <n>
    It has over 1000000. Export it coarser, or in parts.
error: no triangles: mesh <i>
    The file is empty, or a binary STL whose header begins with solid (convert it as above),
    or its lines end with carriage returns alone; or the mesh isn't in mm.
error: outside the volume: mesh <i> triangle <n>
    Move the mesh (center_object, mesh_position_x, mesh_position_y, mesh_position_z), or set
    the volume (machine_width, machine_depth, machine_height).
error: no layers
    No mesh reaches above the middle of the first layer. Is it in mm? Lower layer_height_0.
error: too many layers: <n>
    There are over 40000. Set a greater layer_height.
error: too tangled: mesh <i> layer <n> count <n>
    The outlines of that layer, cut where they cross, have over 100000 edges. Mend the mesh,
    or make it coarser.
error: out of memory
    Where the file was begun it holds a front of what was to be written.
error: cannot write
    The folder isn't there, or the file may not be written, or the disk is full. What was
    written before that stays.

Where standard output fails no line is printed, and the status is 7: the file is whole.

On standard error:

advice: <what>
    What to do about the error above it.
note: <key> has no effect
    No setting has that key, or it was given for what it can't be given for, by a word or
    in a settings file. See: cura_slice --help settings.
note: and <n> more have no effect
    Of many keys 20 are told.
warning: outlines that stayed open and were left out: <n>
    A mesh has holes: outlines with gaps of over 10 mm aren't printed. Mend the mesh, or
    export it anew. The file's line ;OPEN_OUTLINES:<n> tells the same.
warning: layers on which nothing is printed: <n> of <n>
    No mesh has a wall, skin or fill there: it is open there, or thinner than a line is
    wide (wall_line_width), or doesn't reach there. Look at the file before it is printed.
totals: <what>
    Told with -v: layers and outlines, and of a file that was written the estimated time
    and the filament of each extruder. What the filament weighs isn't known.
";

// The second line is the toolchain's own name of itself, by which the program was proved.
const VERSION: &str = "\
cura_slice 0.1.0
rattle-kit-13f logic dac8208d650f15bf
";

/// What a command line may ask of the program itself.
#[derive(Clone, Copy, PartialEq, Eq, Debug)]
pub enum Topic {
    /// Its words and statuses.
    Usage,
    /// The table of settings.
    Settings,
    /// The lines of refusals, with what to do about each.
    Messages,
    /// Its version, and the toolchain's.
    Version,
}

// Whether there is a word at that index, and it is this text.
fn has_word(words: &[String], index: usize, text: &str) -> bool
    ensures { result ≡ has_word (map string_bytes words.now) index text.now }
{
    index < words.len() && words[index].as_bytes() == text.as_bytes()
}

/// What the words ask of the program itself, none where they are a job's.
pub fn asked(words: &[String]) -> Option<Topic>
    ensures { result ≡ asked_of (map string_bytes words.now) }
{
    if words.len() == 1 && has_word(words, 0, "--help") {
        return Some(Topic::Usage);
    }
    if words.len() == 1 && has_word(words, 0, "--version") {
        return Some(Topic::Version);
    }
    if words.len() == 2 && has_word(words, 0, "--help") && has_word(words, 1, "settings") {
        return Some(Topic::Settings);
    }
    if words.len() == 2 && has_word(words, 0, "--help") && has_word(words, 1, "messages") {
        return Some(Topic::Messages);
    }
    None
}

/// Puts the whole text of the topic on the console. The answer is the program's status: 0; or 7 where
/// the console failed, and has got a front of the text; or 6 where there was no memory for the table of
/// settings, and the console is as before.
pub fn tell<Co: Sink>(alloc: Global, topic: Topic, console: &mut Co) -> u8
    ensures { Told result topic (Co.output console.old) (Co.output console.new) }
{
    match topic {
        Topic::Usage => say(console, USAGE.as_bytes()),
        Topic::Settings => match listing(alloc) {
            Ok(text) => say(console, text.bytes()),
            Err(NoMemory) => 6,
        },
        Topic::Messages => say(console, MESSAGES.as_bytes()),
        Topic::Version => say(console, VERSION.as_bytes()),
    }
}

// Puts a text on the console. The answer is the program's status.
fn say<Co: Sink>(console: &mut Co, text: &[u8]) -> u8
    ensures { ((result ≡ 0) × Put (Co.output console.old) text.now (Co.output console.new))
        ⊎ ((result ≡ 7) × PutFront (Co.output console.old) text.now (Co.output console.new)) }
{
    match put_all(console, text) {
        Ok(()) => 0,
        Err(_) => 7,
    }
}
