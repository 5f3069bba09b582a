// What a settings file holds.

ghost use Rattle.std.specs.Prelude.{◌≡◌, ◌≤◌, length, option_and_then, option_map, IfSome};
ghost use Rattle.serde_json.specs.Find.{as_array, as_object, get};
ghost use Rattle.serde_json.specs.View.{view, items_view, members_view};
ghost use Rattle.settings_core.specs.File.{are_objects, contents_in, contents_of, few_objects, global_key, meshes_in, objects_in, version_in, version_numbered};
ghost use Rattle.settings_core.specs.Inner.Contents.{AreFew, contents_view};

use serde_json::{Map, Value};

// The version of a settings file.
#[derive(Clone, Copy, PartialEq, Eq, Debug)]
pub(crate) enum Version {
    // The whole print under `settings`.
    First,
    // The whole print under `global`, and meshes.
    Second,
}

// Whose an object is.
#[derive(Clone, Copy, PartialEq, Eq, Debug)]
pub(crate) enum Owner {
    Extruders,
    Meshes,
}

// The members for the whole print, and the objects of extruders and of meshes where there are any.
#[derive(Clone, Copy)]
pub(crate) struct Contents<'a> {
    pub(crate) global: &'a Map<String, Value>,
    pub(crate) extruders: Option<&'a [Value]>,
    pub(crate) meshes: Option<&'a [Value]>,
}

fn version_numbered(number: u64) -> Option<Version>
    ensures { result ≡ version_numbered number }
{
    match number {
        1 => Some(Version::First),
        2 => Some(Version::Second),
        _ => None,
    }
}

fn version_in(found: Option<&Value>) -> Option<Version>
    ensures { result ≡ version_in (option_map (λ v. view v.now) found.entry) }
{
    match found {
        None => Some(Version::First),
        Some(value) => match value.as_u64() {
            Some(number) => version_numbered(number),
            None => None,
        },
    }
}

fn global_key(version: Version) -> &'static str
    ensures { result.now ≡ global_key version }
{
    match version {
        Version::First => "settings",
        Version::Second => "global",
    }
}

fn are_objects(items: &[Value]) -> bool
    ensures { result ≡ are_objects (items_view items.now) }
{
    for item in items {
        if !item.is_object() {
            return false;
        }
    }
    true
}

fn few_objects(items: &[Value], most: usize) -> Option<&[Value]>
    ensures list { option_map (λ vs. items_view vs.now) result ≡ few_objects most (items_view items.now) }
    ensures short { IfSome result (λ vs. length vs.now ≤ most) }
{
    if items.len() > most {
        return None;
    }
    if are_objects(items) {
        Some(items)
    } else {
        None
    }
}

fn array(value: &Value, most: usize) -> Option<&[Value]>
    ensures list { option_map (λ vs. items_view vs.now) result
        ≡ option_and_then (few_objects most) (as_array (view value.now)) }
    ensures short { IfSome result (λ vs. length vs.now ≤ most) }
{
    match value {
        Value::Array(items) => few_objects(items.as_slice(), most),
        _ => None,
    }
}

// The objects of a member that may be left out.
fn objects_in(found: Option<&Value>, most: usize) -> Option<Option<&[Value]>>
    ensures list { option_map (λ o. option_map (λ vs. items_view vs.now) o) result
        ≡ objects_in most (option_map (λ v. view v.now) found.entry) }
    ensures short { IfSome result (λ o. IfSome o (λ vs. length vs.now ≤ most)) }
{
    match found {
        None => Some(None),
        Some(value) => match array(value, most) {
            Some(items) => Some(Some(items)),
            None => None,
        },
    }
}

fn meshes_in(version: Version, found: Option<&Value>) -> Option<Option<&[Value]>>
    ensures list { option_map (λ o. option_map (λ vs. items_view vs.now) o) result
        ≡ meshes_in version (option_map (λ v. view v.now) found.entry) }
    ensures short { IfSome result (λ o. IfSome o (λ vs. length vs.now ≤ 16)) }
{
    match version {
        Version::First => Some(None),
        Version::Second => objects_in(found, 16),
    }
}

fn global_in(version: Version, document: &Value) -> Option<&Map<String, Value>>
    ensures { option_map (λ m. members_view m.now.entries) result
        ≡ option_and_then as_object (get (global_key version) (view document.now)) }
{
    match document.get(global_key(version)) {
        Some(value) => value.as_object(),
        None => None,
    }
}

fn contents_in(version: Version, document: &Value) -> Option<Contents<'_>>
    ensures held { option_map contents_view result ≡ contents_in version (view document.now) }
    ensures few { IfSome result AreFew }
{
    let Some(global) = global_in(version, document) else {
        return None;
    };
    let Some(extruders) = objects_in(document.get("extruders"), 8) else {
        return None;
    };
    let Some(meshes) = meshes_in(version, document.get("meshes")) else {
        return None;
    };
    Some(Contents {
        global,
        extruders,
        meshes,
    })
}

// What a document holds, where its version is 1 or 2.
pub(crate) fn contents_of(document: &Value) -> Option<Contents<'_>>
    ensures held { option_map contents_view result ≡ contents_of (view document.now) }
    ensures few { IfSome result AreFew }
{
    match version_in(document.get("version")) {
        Some(version) => contents_in(version, document),
        None => None,
    }
}
