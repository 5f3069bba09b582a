// Writes a settings file anew in version 2.

ghost use Rattle.std.specs.Prelude.{◌≡◌, option_map, IfOk, OnOk};
ghost use Rattle.serde_json.specs.Data.{object, put};
ghost use Rattle.serde_json.specs.View.{view, items_view, members_view, number_view};
ghost use Rattle.serde_json.specs.Written.{compact_text};
ghost use Rattle.settings_core.specs.File.{contents_of, file_pairs, members_in, number_given, pairs_of, value_given};
ghost use Rattle.settings_core.specs.Inner.Contents.{AreFew, contents_view, put_listed};
ghost use Rattle.settings_core.specs.Migrate.{given_data, migrated_of, second_items, second_members, second_version};

use crate::contents::{Contents, contents_of};
use crate::file::{FileFault, document_of, truth_word};
use itoa::Buffer;
use serde_json::{Map, Number, Value};
use slice_base::{NoMemory, Text};
use std::alloc::Global;

fn number_data(alloc: Global, number: &Number) -> Result<Value, NoMemory>
    ensures { IfOk result (λ v. view v ≡ given_data (number_given (number_view number.now))) }
{
    if let Some(whole) = number.as_u64() {
        let mut buffer = Buffer::new();
        return Ok(Value::try_from_str(alloc, buffer.format(whole))?);
    }
    match number.as_i64() {
        Some(negative) => {
            let mut buffer = Buffer::new();
            Ok(Value::try_from_str(alloc, buffer.format(negative))?)
        }
        None => Ok(Value::Null),
    }
}

fn value_data(alloc: Global, value: &Value) -> Result<Value, NoMemory>
    ensures { IfOk result (λ v. view v ≡ given_data (value_given (view value.now))) }
{
    match value {
        Value::String(text) => Ok(Value::try_from_str(alloc, text.as_str())?),
        Value::Number(number) => number_data(alloc, number),
        Value::Bool(b) => Ok(Value::try_from_str(alloc, truth_word(*b))?),
        Value::Null | Value::Array(_) | Value::Object(_) => Ok(Value::Null),
    }
}

fn second_members(
    alloc: Global,
    members: &Map<String, Value>,
) -> Result<Map<String, Value>, NoMemory>
    ensures { IfOk result
        (λ m. members_view m.entries ≡ second_members (members_view members.now.entries)) }
{
    let mut written = Map::new(alloc);
    for (key, value) in members.iter() {
        let name = key.clone()?;
        drop(written.insert(name, value_data(alloc, value)?)?);
    }
    Ok(written)
}

fn second_object(alloc: Global, value: &Value) -> Result<Value, NoMemory>
    ensures { IfOk result (λ v. view v ≡ object (second_members (members_in (view value.now)))) }
{
    match value {
        Value::Object(members) => Ok(Value::Object(second_members(alloc, members)?)),
        _ => Ok(Value::Object(Map::new(alloc))),
    }
}

fn second_items(alloc: Global, items: &[Value]) -> Result<Vec<Value>, NoMemory>
    ensures { IfOk result (λ v. items_view v.items ≡ second_items (items_view items.now)) }
{
    let mut written = Vec::with_capacity(alloc, items.len())?;
    for item in items {
        written.push(second_object(alloc, item)?)?;
    }
    Ok(written)
}

// Puts a member into an object.
fn put(
    alloc: Global,
    members: &mut Map<String, Value>,
    key: &str,
    value: Value,
) -> Result<(), NoMemory>
    ensures { OnOk result (members_view members.new.entries
        ≡ put key.now (view value) (members_view members.old.entries)) }
{
    let name = String::from_str(alloc, key)?;
    drop(members.insert(name, value)?);
    Ok(())
}

// Puts objects into an object, where they are there.
fn put_listed(
    alloc: Global,
    members: &mut Map<String, Value>,
    key: &str,
    objects: Option<&[Value]>,
) -> Result<(), NoMemory>
    ensures { OnOk result (members_view members.new.entries
        ≡ put_listed key.now (option_map (λ vs. items_view vs.now) objects.entry)
        (members_view members.old.entries)) }
{
    match objects {
        Some(items) => put(
            alloc,
            members,
            key,
            Value::Array(second_items(alloc, items)?),
        ),
        None => Ok(()),
    }
}

fn second_version(alloc: Global, contents: Contents<'_>) -> Result<Value, NoMemory>
    ensures { IfOk result (λ v. view v ≡ second_version (contents_view contents.entry)) }
{
    let mut members = Map::new(alloc);
    put_listed(alloc, &mut members, "extruders", contents.extruders)?;
    put(
        alloc,
        &mut members,
        "global",
        Value::Object(second_members(alloc, contents.global)?),
    )?;
    put_listed(alloc, &mut members, "meshes", contents.meshes)?;
    put(alloc, &mut members, "version", Value::from(2u64))?;
    Ok(Value::Object(members))
}

fn text_of(alloc: Global, contents: Contents<'_>) -> Result<Text, NoMemory>
    requires { AreFew contents }
    ensures text { IfOk result (λ t. t ≡ compact_text (second_version (contents_view contents.entry))) }
    ensures same_pairs { IfOk result (λ t. file_pairs t ≡ Some (pairs_of (contents_view contents.entry))) }
{
    let document = second_version(alloc, contents)?;
    Ok(Text::from_vec(document.to_vec(alloc)?))
}

fn migrated_in(alloc: Global, document: &Value) -> Result<Text, FileFault>
    ensures text { IfOk result (λ t. option_map (λ c. compact_text (second_version c))
        (contents_of (view document.now)) ≡ Some t) }
    ensures same_pairs { IfOk result
        (λ t. file_pairs t ≡ option_map pairs_of (contents_of (view document.now))) }
    ensures not_json { result ≡ Err FileFault.NotJson → contents_of (view document.now) ≡ None }
{
    match contents_of(document) {
        Some(contents) => Ok(text_of(alloc, contents)?),
        None => Err(FileFault::NotJson),
    }
}

/// The text of a settings file of either version, written anew in version 2: the compact text of an object
/// with `extruders`, `global`, `meshes` and `version`, where `extruders` and `meshes` are there where the
/// file has them and its version may have them. Each value that gives a text is that text; any other is
/// `null`. The text gives the same pairs as the file.
pub fn migrate(alloc: Global, bytes: &[u8]) -> Result<Text, FileFault>
    ensures text { IfOk result (λ t. migrated_of bytes.now ≡ Some t) }
    ensures same_pairs { IfOk result (λ t. file_pairs t ≡ file_pairs bytes.now) }

    // Want of memory may come in its place.
    ensures not_json { result ≡ Err FileFault.NotJson → file_pairs bytes.now ≡ None }
{
    match document_of(alloc, bytes) {
        Ok(document) => migrated_in(alloc, &document),
        Err(fault) => Err(fault),
    }
}
