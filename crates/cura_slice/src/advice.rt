// What to do about a refusal, in one line.

use crate::flags::is_taken;
use crate::help::USAGE;
use crate::texts::{push, push_number, push_word};
use answers::Refusal;
use cli_words::Item;
use mesh_placing::{Excess, Side};
use settings_core::{Given, Pair, Scope};
use settings_table::Setting;
use slice_base::{NoMemory, Text};
use std::alloc::Global;

// Puts a line of advice.
fn push_line(text: &mut Vec<u8>, line: &str) -> Result<(), NoMemory> {
    push(text, b"advice: ")?;
    push(text, line.as_bytes())?;
    push(text, b"\n")
}

// ---- words

// Whether the words ask for help as other programs have it.
fn wants_usage(words: &[String]) -> bool {
    match words {
        [] => true,
        [word, ..] => {
            let word = word.as_str();
            word == "-h" || word == "help" || word == "-help" || word == "-?" || word == "--usage"
        }
    }
}

// Whether the command is to draw a job.
fn is_gen(words: &[String]) -> bool {
    match words {
        [] => false,
        [word, ..] => word.as_str() == "gen",
    }
}

// What is wrong with the word at that index.
fn word_fault(words: &[String], index: usize, word: &str) -> &'static str {
    if index == 0 {
        return " is no command: slice, serial, check, gen";
    }
    if is_gen(words) {
        return " fits nowhere: cura_slice gen NUMBER -o FILE, and the number is at most 4294967295";
    }
    if is_taken(words, index) {
        return " is no pair: -s KEY=VALUE";
    }
    if word == "-o" || word == "-s" {
        return " wants a word behind it";
    }
    if word == "-l" || word == "-j" {
        return " wants a name behind it, and stands 16 times at most";
    }
    if word.starts_with("-m") {
        return " is no number of threads: -m1 to -m64";
    }
    if word.starts_with("-e") {
        return " is no extruder: -e0 to -e7";
    }
    if word.starts_with("-") {
        return " is no option";
    }
    " is behind no -l, -o, -j or -s"
}

fn push_word_advice(text: &mut Vec<u8>, words: &[String], index: u64) -> Result<(), NoMemory> {
    if wants_usage(words) {
        return push(text, USAGE.as_bytes());
    }
    let at = index.saturating_sub(1) as usize;
    if at >= words.len() {
        return push_line(text, "a number is wanted: cura_slice gen NUMBER -o FILE");
    }
    let word = words[at].as_str();
    push(text, b"advice: ")?;
    push_word(text, word.as_bytes())?;
    push(text, word_fault(words, at, word).as_bytes())?;
    push(text, b"; see cura_slice --help\n")
}

// ---- settings

fn is_same_scope(a: Scope, b: Scope) -> bool {
    match (a, b) {
        (Scope::Global, Scope::Global) => true,
        (Scope::Extruder(i), Scope::Extruder(k)) => i == k,
        (Scope::Mesh(i), Scope::Mesh(k)) => i == k,
        _ => false,
    }
}

// Whether an item is a pair of that key and scope.
fn is_of(item: &Item, scope: Scope, key: &[u8]) -> bool {
    match item {
        Item::Pair(pair) => is_same_scope(pair.scope, scope) && pair.key.bytes() == key,
        _ => false,
    }
}

// The index of the one pair of that key and scope; none where there are several, or a settings file might have one.
fn index_of_pair(items: &[Item], scope: Scope, key: &[u8]) -> Option<usize> {
    let mut found = None;
    for (i, item) in items.iter().enumerate() {
        if matches!(item, Item::Settings(_)) {
            return None;
        }
        if is_of(item, scope, key) {
            if found.is_some() {
                return None;
            }
            found = Some(i);
        }
    }
    found
}

// Puts the value that was given, where it is known which one it is.
fn push_given(
    text: &mut Vec<u8>,
    items: &[Item],
    scope: Scope,
    key: &[u8],
) -> Result<(), NoMemory> {
    let Some(index) = index_of_pair(items, scope, key) else {
        return Ok(());
    };
    match items.get(index) {
        Some(
            Item::Pair(
                Pair {
                    value: Given::Words(value),
                    ..
                },
            ),
        ) => {
            push(text, b", and not ")?;
            push_word(text, value.bytes())
        }
        _ => Ok(()),
    }
}

// Puts which values a setting takes.
fn push_range(alloc: Global, text: &mut Vec<u8>, setting: Setting) -> Result<(), NoMemory> {
    let row = setting.row(alloc)?;
    push(text, row.name.as_bytes())?;
    push(text, b" takes ")?;
    push(text, row.range.bytes())?;
    if !row.unit.is_empty() {
        push(text, b" ")?;
        push(text, row.unit.as_bytes())?;
    }
    Ok(())
}

fn push_value_advice(
    alloc: Global,
    text: &mut Vec<u8>,
    items: &[Item],
    scope: Scope,
    key: &Text,
) -> Result<(), NoMemory> {
    let Some(setting) = Setting::of_key(key.bytes()) else {
        return Ok(());
    };
    push(text, b"advice: ")?;
    push_range(alloc, text, setting)?;
    push_given(text, items, scope, key.bytes())?;
    push(text, b"\n")
}

// ---- meshes

// Puts the name of a mesh's file, or its number where the words don't name it.
fn push_mesh(text: &mut Vec<u8>, items: &[Item], mesh: u8) -> Result<(), NoMemory> {
    let mut before = 0u8;
    for item in items {
        if let Item::Mesh { name, .. } = item {
            if before == mesh {
                return push(text, name.bytes());
            }
            before = before.saturating_add(1);
        }
    }
    push(text, b"mesh ")?;
    push_number(text, u128::from(mesh))
}

// Puts a line of advice on a mesh: something, the name of its file, something more.
fn push_mesh_line(
    text: &mut Vec<u8>,
    items: &[Item],
    mesh: u8,
    before: &str,
    behind: &str,
) -> Result<(), NoMemory> {
    push(text, b"advice: ")?;
    push(text, before.as_bytes())?;
    push_mesh(text, items, mesh)?;
    push(text, behind.as_bytes())?;
    push(text, b"\n")
}

fn push_stl_advice(
    text: &mut Vec<u8>,
    items: &[Item],
    mesh: u8,
    line: u32,
) -> Result<(), NoMemory> {
    if line <= 2 {
        return push_mesh_line(
            text,
            items,
            mesh,
            "where it is a binary STL, convert it: admesh --write-ascii-stl=ascii.stl ",
            "",
        );
    }
    push(text, b"advice: line ")?;
    push_number(text, u128::from(line))?;
    push(text, b" of ")?;
    push_mesh(text, items, mesh)?;
    push(
        text,
        b" is no line of an ASCII STL, or the file ends too early: export it anew\n",
    )
}

// Puts µm as mm.
fn push_mm(text: &mut Vec<u8>, um: u64) -> Result<(), NoMemory> {
    let behind_point = um % 1000;
    push_number(text, u128::from(um / 1000))?;
    push(text, b".")?;
    if behind_point < 100 {
        push(text, b"0")?;
    }
    if behind_point < 10 {
        push(text, b"0")?;
    }
    push_number(text, u128::from(behind_point))
}

// The name of a side, the setting that moves a mesh away from it, and what else there is to do.
fn side_texts(side: Side) -> (&'static str, &'static str, &'static str) {
    match side {
        Side::Left => ("on the left", "mesh_position_x", ""),
        Side::Right => ("on the right", "mesh_position_x", ", or set machine_width"),
        Side::Front => ("in front", "mesh_position_y", ""),
        Side::Back => ("behind", "mesh_position_y", ", or set machine_depth"),
        Side::Below => ("below", "mesh_position_z", ""),
        Side::Above => ("above", "mesh_position_z", ", or set machine_height"),
    }
}

fn push_outside_advice(
    text: &mut Vec<u8>,
    items: &[Item],
    mesh: u8,
    excess: Excess,
) -> Result<(), NoMemory> {
    let (side, position, more) = side_texts(excess.side);
    push(text, b"advice: ")?;
    push_mesh(text, items, mesh)?;
    push(text, b" is outside by ")?;
    push_mm(text, excess.by.unsigned_abs())?;
    push(text, b" mm ")?;
    push(text, side.as_bytes())?;
    push(text, b": move it by -s center_object=true or ")?;
    push(text, position.as_bytes())?;
    push(text, b" behind it")?;
    push(text, more.as_bytes())?;
    push(text, b"\n")
}

// ---- all

// Puts a line of advice on a file.
fn push_file_line(
    text: &mut Vec<u8>,
    before: &str,
    name: &Text,
    behind: &str,
) -> Result<(), NoMemory> {
    push(text, b"advice: ")?;
    push(text, before.as_bytes())?;
    push_word(text, name.bytes())?;
    push(text, behind.as_bytes())?;
    push(text, b"\n")
}

/// Puts a line that says what to do about a refusal; where the words ask for help, the usage. Nothing where there was
/// no memory.
pub(crate) fn push_advice(
    alloc: Global,
    text: &mut Vec<u8>,
    refusal: &Refusal,
    words: &[String],
    items: &[Item],
) -> Result<(), NoMemory> {
    match refusal {
        Refusal::BadWord { index } => push_word_advice(text, words, *index),
        Refusal::NoInput => push_line(text, "name a mesh, as in: -l part.stl"),
        Refusal::NoOutput => push_line(text, "name the file to write, as in: -o part.gcode"),
        Refusal::ReadFault { name } => {
            push_file_line(text, "is there a file ", name, " here, and may it be read?")
        }
        Refusal::TooLong { name } => push_file_line(
            text,
            "export ",
            name,
            " coarser, or in parts: 268435456 bytes at most",
        ),
        Refusal::NotJson { name } => push_file_line(
            text,
            "",
            name,
            " has to be JSON with an object \"global\" (version 2) or \"settings\" (version 1)",
        ),
        Refusal::BadValue { scope, key } => push_value_advice(alloc, text, items, *scope, key),
        Refusal::OutOfRange { scope, key } => push_value_advice(alloc, text, items, *scope, key),
        Refusal::UnknownExtruder { mesh } => push_mesh_line(
            text,
            items,
            *mesh,
            "set machine_extruder_count, or give ",
            " another extruder by -e before it",
        ),
        Refusal::BadStl { mesh, line } => push_stl_advice(text, items, *mesh, *line),
        Refusal::TooManyTriangles { mesh, .. } => push_mesh_line(
            text,
            items,
            *mesh,
            "export ",
            " coarser, or in parts: 1000000 triangles at most",
        ),
        Refusal::NoTriangles { mesh } => push_mesh_line(
            text,
            items,
            *mesh,
            "is ",
            " an ASCII STL in mm? A binary one whose header begins with solid has no facet here",
        ),
        Refusal::OutsideVolume { mesh, excess, .. } => {
            push_outside_advice(text, items, *mesh, *excess)
        }
        Refusal::NoLayers => push_line(
            text,
            "are the meshes in mm? None reaches above half of layer_height_0",
        ),
        Refusal::TooManyLayers { .. } => {
            push_line(text, "set a greater layer_height: 40000 layers at most")
        }
        Refusal::TooTangled { mesh, .. } => {
            push_mesh_line(text, items, *mesh, "mend ", ", or make it coarser")
        }
        Refusal::NoMemory => Ok(()),
        Refusal::WriteFault => push_line(
            text,
            "is the folder of the file behind -o there, may the file be written, and has the disk room?",
        ),
        Refusal::ConsoleFault => push_line(
            text,
            "all was done, but standard output took no line: is it closed, or its disk full?",
        ),
    }
}

/// Puts a line that says why there are no words.
pub(crate) fn push_unread_advice(text: &mut Vec<u8>, refusal: &Refusal) -> Result<(), NoMemory> {
    match refusal {
        Refusal::BadWord { .. } => push_line(text, "that word isn't UTF-8"),
        _ => Ok(()),
    }
}
