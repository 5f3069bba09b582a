// A shelf that keeps which keys have no effect: those of settings files as the files pass, since each is read once.

ghost use Rattle.std.specs.Prelude.{◌≡◌};

use crate::effects::IdleKeys;
use crate::notes::items_in;
use cli_words::{Item, read_words};
use outside::{ReadNo, Shelf};
use slice_base::{NoMemory, Text};
use std::alloc::Global;

// What the words name: settings files, and keys without effect.
#[derive(Drop)]
struct Named {
    files: Vec<Text>,
    idle: IdleKeys,
}

fn named_in(alloc: Global, items: &[Item]) -> Result<Named, NoMemory> {
    let mut files = Vec::new(alloc);
    for item in items {
        if let Item::Settings(name) = item {
            files.push(name.copy(alloc)?)?;
        }
    }
    let mut idle = IdleKeys::none(alloc);
    idle.take_words(alloc, items)?;
    Ok(Named { files, idle })
}

// What the words name; nothing where they are no command, or memory runs out.
fn named_by(alloc: Global, words: &[String]) -> Named {
    if let Ok(command) = read_words(alloc, words) {
        if let Ok(named) = named_in(alloc, items_in(&command)) {
            return named;
        }
    }
    Named {
        files: Vec::new(alloc),
        idle: IdleKeys::none(alloc),
    }
}

/// The shelf of a run. What is kept for notes changes nothing.
pub(crate) struct NotingShelf<Sh: Shelf> {
    shelf: Sh,
    named: Named,
}

impl<Sh: Shelf> NotingShelf<Sh> {
    /// The shelf of a run by these words.
    pub(crate) fn of(alloc: Global, words: &[String], shelf: Sh) -> Self
        ensures { result.shelf ≡ shelf }
    {
        NotingShelf {
            shelf,
            named: named_by(alloc, words),
        }
    }

    fn is_settings(&self, name: &[u8]) -> bool {
        self.named.files.iter().any(|it| it.bytes() == name)
    }

    // Keeps what of a file has no effect, where it is a settings file.
    fn note(&mut self, alloc: Global, name: &str, answer: &Result<Vec<u8>, ReadNo>)
        ensures { self.new.shelf ≡ self.old.shelf }
    {
        if !self.is_settings(name.as_bytes()) {
            return;
        }
        if let Ok(bytes) = answer {
            let _ = self.named.idle.take_file(alloc, bytes.as_slice());
        }
    }

    /// The shelf that was given, and the keys without effect.
    pub(crate) fn into_parts(self) -> (Sh, IdleKeys)
        ensures { result.0 ≡ self.shelf }
    {
        let NotingShelf { shelf, named } = self;
        let Named { files: _, idle } = named;
        (shelf, idle)
    }
}

impl<Sh: Shelf> Shelf for NotingShelf<Sh> {
    ghost store = { λ a. Sh.store a.shelf };

    fn read(&mut self, alloc: Global, name: &str, limit: usize) -> Result<Vec<u8>, ReadNo> {
        let answer = self.shelf.read(alloc, name, limit);
        self.note(alloc, name, &answer);
        answer
    }

    fn faults(&self) -> u64 {
        self.shelf.faults()
    }
}
