// The table of settings as a text.

ghost use Rattle.std.specs.Prelude.{◌≡◌, ◌≤◌, ◌++◌, cond, IfOk, OnOk};
ghost use Rattle.std.specs.Fmt.{is_char_start, char_count};
ghost use Rattle.settings_table.specs.Rows.{texts_of};
ghost use Rattle.cura_slice.specs.Listing.{column, unit_or_dash, columns, entry, is_group, entry_in, entries, heading, group_text, listing_text};

use settings_table::{Group, Row, SETTINGS, Setting};
use slice_base::{NoMemory, Text};
use std::alloc::Global;

/// The table of settings: each in two lines, under the heading of its group. UTF-8.
pub(crate) fn listing(alloc: Global) -> Result<Text, NoMemory>
    ensures { IfOk result (λ t. t ≡ listing_text) }
{
    let mut text = Vec::from_slice(alloc, b"Name, unit, range and default of each setting.\n")?;
    push_group(alloc, &mut text, Group::Global)?;
    push_group(alloc, &mut text, Group::Extruder)?;
    push_group(alloc, &mut text, Group::Mesh)?;
    Ok(Text::from_vec(text))
}

// Puts the heading of a group, and the entries of its settings.
fn push_group(alloc: Global, text: &mut Vec<u8>, group: Group) -> Result<(), NoMemory>
    ensures { OnOk result (text.new.items ≡ text.old.items ++ group_text group) }
{
    text.extend_from_slice(heading(group))?;
    push_entries(alloc, text, group, &SETTINGS)
}

fn heading(group: Group) -> &'static [u8]
    ensures { result.now ≡ heading group }
{
    match group {
        Group::Global => b"\nglobal: of the whole print\n",
        Group::Extruder => b"\nextruder: of one extruder; given for the whole print, of all\n",
        Group::Mesh =>
            b"\nmesh: of one mesh; given for an extruder or the whole print, of all its meshes\n",
    }
}

// Puts the entries of those settings that are of the group.
fn push_entries(
    alloc: Global,
    text: &mut Vec<u8>,
    group: Group,
    settings: &[Setting],
) -> Result<(), NoMemory>
    ensures { OnOk result (text.new.items ≡ text.old.items ++ entries group settings.now) }
{
    for setting in settings {
        push_entry_in(alloc, text, group, *setting)?;
    }
    Ok(())
}

fn is_group(a: Group, b: Group) -> bool
    ensures { result ≡ is_group a b }
{
    matches!(
        (a, b),
        (Group::Global, Group::Global)
            | (Group::Extruder, Group::Extruder)
            | (Group::Mesh, Group::Mesh)
    )
}

// Puts the entry of a setting, where the setting is of the group.
fn push_entry_in(
    alloc: Global,
    text: &mut Vec<u8>,
    group: Group,
    setting: Setting,
) -> Result<(), NoMemory>
    ensures { OnOk result (text.new.items ≡ text.old.items ++ entry_in group setting) }
{
    if is_group(setting.group(), group) {
        push_entry(text, &setting.row(alloc)?)
    } else {
        Ok(())
    }
}

// Puts the two lines of a setting.
fn push_entry(text: &mut Vec<u8>, row: &Row) -> Result<(), NoMemory>
    ensures { OnOk result (text.new.items ≡ text.old.items ++ entry (texts_of row.now)) }
{
    push_columns(text, row)?;
    text.extend_from_slice(b"\n      ")?;
    text.extend_from_slice(row.meaning.as_bytes())?;
    text.push(b'\n')?;
    Ok(())
}

fn push_columns(text: &mut Vec<u8>, row: &Row) -> Result<(), NoMemory>
    ensures { OnOk result (text.new.items ≡ text.old.items ++ columns (texts_of row.now)) }
{
    text.extend_from_slice(b"  ")?;
    push_column(text, row.name.as_bytes(), 30)?;
    push_column(text, unit_or_dash(row.unit.as_bytes()), 4)?;
    push_column(text, row.range.bytes(), 19)?;
    text.extend_from_slice(row.default.bytes())?;
    Ok(())
}

fn unit_or_dash(unit: &[u8]) -> &[u8]
    ensures { result.now ≡ unit_or_dash unit.now }
{
    if unit.is_empty() { b"-" } else { unit }
}

// Puts a text, blanks behind it up to that many characters, and two blanks more.
fn push_column(text: &mut Vec<u8>, cell: &[u8], width: usize) -> Result<(), NoMemory>
    requires { width ≤ 100 }
    ensures { OnOk result (text.new.items ≡ text.old.items ++ column width cell.now) }
{
    let blanks = width.saturating_sub(characters(cell)) + 2;
    text.extend_from_slice(cell)?;
    text.resize(text.len() + blanks, b' ')?;
    Ok(())
}

// How many characters a text has.
fn characters(text: &[u8]) -> usize
    ensures { result ≡ char_count text.now }
{
    let mut count = 0;
    for byte in text {
        count += begun_by(*byte);
    }
    count
}

// How many characters begin with this byte.
fn begun_by(byte: u8) -> usize
    ensures value { result ≡ cond (is_char_start byte) 1 0 }
    ensures one { result ≤ 1 }
{
    if byte < 0x80 || byte >= 0xC0 { 1 } else { 0 }
}
