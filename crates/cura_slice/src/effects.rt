// Settings that were given and have no effect.

use crate::texts::{push, push_number, push_word};
use cli_words::Item;
use settings_core::{FileFault, Pair, Scope, read_file};
use settings_table::{Group, SETTINGS, Setting};
use slice_base::{NoMemory, Text};
use std::alloc::{AllocError, Global};
use strsim::levenshtein;

// So many are told.
const MOST_NOTES: usize = 20;

// So many are kept, and the others counted.
const MOST_KEPT: usize = 500;

// A longer settings file isn't looked at.
const LONGEST_FILE: usize = 4_000_000;

// No setting has a longer name.
const LONGEST_NAME: usize = 40;

// Why a pair has no effect.
#[derive(Clone, Copy, PartialEq, Eq)]
enum Why {
    // No setting has that key.
    Unknown,
    // It is of the whole print, and was given elsewhere.
    OfAll,
    // It is of an extruder, and was given for a mesh.
    OfExtruder,
    // It is of a mesh alone, and was given elsewhere.
    OfMesh,
}

fn why_misplaced(setting: Setting, scope: Scope) -> Option<Why> {
    if setting == Setting::ExtruderNr {
        return match scope {
            Scope::Mesh(_) => None,
            _ => Some(Why::OfMesh),
        };
    }
    match (setting.group(), scope) {
        (Group::Global, Scope::Extruder(_) | Scope::Mesh(_)) => Some(Why::OfAll),
        (Group::Extruder, Scope::Mesh(_)) => Some(Why::OfExtruder),
        _ => None,
    }
}

// Why a pair has no effect, where it has none.
fn why_idle(pair: &Pair) -> Option<Why> {
    match Setting::of_key(pair.key.bytes()) {
        None => Some(Why::Unknown),
        Some(setting) => why_misplaced(setting, pair.scope),
    }
}

// How many mistypings are forgiven in a name of so many bytes.
fn forgiven(length: usize) -> usize {
    (length / 6).saturating_add(1)
}

// The setting whose name is nearest to a key, where it is near.
fn nearest(alloc: Global, key: &str) -> Result<Option<Setting>, AllocError> {
    if key.len() > LONGEST_NAME {
        return Ok(None);
    }
    let mut found = None;
    let mut least = forgiven(key.len());
    for setting in &SETTINGS {
        // Names that differ more in length differ more.
        if key.len().abs_diff(setting.name().len()) > least {
            continue;
        }
        let edits = levenshtein(alloc, key, setting.name())?;
        if edits <= least && (edits < least || found.is_none()) {
            least = edits;
            found = Some(*setting);
        }
    }
    Ok(found)
}

// A key that has no effect.
#[derive(Drop)]
struct IdleKey {
    key: Text,
    why: Why,
    // Whether it stands in a settings file.
    is_of_file: bool,
}

impl IdleKey {
    // The setting that may be meant by it.
    fn meant(&self, alloc: Global) -> Result<Option<Setting>, NoMemory> {
        if self.why != Why::Unknown {
            return Ok(None);
        }
        match str::from_utf8(self.key.bytes()) {
            Ok(name) => Ok(nearest(alloc, name)?),
            Err(_) => Ok(None),
        }
    }

    // What to do about one that stands in a scope that isn't its own.
    fn where_to(&self) -> &'static str {
        match (self.why, self.is_of_file) {
            (Why::Unknown, _) => "",
            (Why::OfAll, false) => {
                " there: it is of the whole print, so put it before -l and -e, or behind -g"
            }
            (Why::OfAll, true) => " in extruders and meshes: it is of the whole print",
            (Why::OfExtruder, false) => {
                " there: it is of an extruder, so put it behind -e and before -l, or behind -g"
            }
            (Why::OfExtruder, true) => " in meshes: it is of an extruder",
            (Why::OfMesh, false) => " there: it is of a mesh, so put it behind its -l",
            (Why::OfMesh, true) => " but in meshes: it is of a mesh",
        }
    }

    fn push_note(&self, text: &mut Vec<u8>, meant: Option<Setting>) -> Result<(), NoMemory> {
        push(text, b"note: ")?;
        push_word(text, self.key.bytes())?;
        push(text, b" has no effect")?;
        push(text, self.where_to().as_bytes())?;
        if let Some(setting) = meant {
            push(text, b": is ")?;
            push(text, setting.name().as_bytes())?;
            push(text, b" meant?")?;
        }
        push(text, b"\n")
    }
}

/// The keys that were given and have no effect, each once for a reason, in the order in which they were given.
#[derive(Drop)]
pub(crate) struct IdleKeys {
    kept: Vec<IdleKey>,
    // How many pairs without effect came when there was no room.
    more: u64,
}

impl IdleKeys {
    pub(crate) fn none(alloc: Global) -> Self {
        IdleKeys {
            kept: Vec::new(alloc),
            more: 0,
        }
    }

    fn has(&self, key: &[u8], why: Why) -> bool {
        self.kept
            .iter()
            .any(|it| it.why == why && it.key.bytes() == key)
    }

    fn take(&mut self, alloc: Global, pair: &Pair, is_of_file: bool) -> Result<(), NoMemory> {
        let Some(why) = why_idle(pair) else {
            return Ok(());
        };
        if self.has(pair.key.bytes(), why) {
            return Ok(());
        }
        if self.kept.len() >= MOST_KEPT {
            self.more = self.more.saturating_add(1);
            return Ok(());
        }
        let key = pair.key.copy(alloc)?;
        self.kept.push(IdleKey {
            key,
            why,
            is_of_file,
        })?;
        Ok(())
    }

    /// Takes those of the words.
    pub(crate) fn take_words(&mut self, alloc: Global, items: &[Item]) -> Result<(), NoMemory> {
        for item in items {
            if let Item::Pair(pair) = item {
                self.take(alloc, pair, false)?;
            }
        }
        Ok(())
    }

    /// Takes those of a settings file; none where it isn't one, or is very long.
    pub(crate) fn take_file(&mut self, alloc: Global, bytes: &[u8]) -> Result<(), NoMemory> {
        if bytes.len() > LONGEST_FILE {
            return Ok(());
        }
        match read_file(alloc, bytes) {
            Ok(pairs) => {
                for pair in pairs.items() {
                    self.take(alloc, pair, true)?;
                }
                Ok(())
            }
            Err(FileFault::NotJson) => Ok(()),
            Err(FileFault::NoMemory) => Err(NoMemory),
        }
    }

    // Puts notes on those for which something is to be done, or on the others, as long as there is room. Answers how
    // many.
    fn push_part(
        &self,
        text: &mut Vec<u8>,
        meant: &[Option<Setting>],
        is_mendable: bool,
        room: usize,
    ) -> Result<usize, NoMemory> {
        let mut told = 0usize;
        for (idle, meant) in self.kept.iter().zip(meant.iter()) {
            let can_be_mended = idle.why != Why::Unknown || meant.is_some();
            if can_be_mended == is_mendable && told < room {
                idle.push_note(text, *meant)?;
                told = told.saturating_add(1);
            }
        }
        Ok(told)
    }

    /// Puts a note on each; of many on the first alone, and how many more there are. Those stand in front that are
    /// nearly a setting's or stand in a wrong scope.
    pub(crate) fn push_notes(&self, alloc: Global, text: &mut Vec<u8>) -> Result<(), NoMemory> {
        let mut meant = Vec::new(alloc);
        for idle in &self.kept {
            meant.push(idle.meant(alloc)?)?;
        }
        let mended = self.push_part(text, meant.as_slice(), true, MOST_NOTES)?;
        let room = MOST_NOTES.saturating_sub(mended);
        let others = self.push_part(text, meant.as_slice(), false, room)?;
        let told = mended.saturating_add(others);
        let untold = self.kept.len().saturating_sub(told) as u64;
        let untold = untold.saturating_add(self.more);
        if untold == 0 {
            return Ok(());
        }
        push(text, b"note: and ")?;
        push_number(text, u128::from(untold))?;
        push(text, b" more have no effect\n")
    }
}
