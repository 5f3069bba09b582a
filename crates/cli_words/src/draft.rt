// Makes a task from its words.

ghost use Rattle.std.specs.Prelude.{◌≡◌, ◌<◌, ◌⊎◌, true, List, length, map, string_bytes, MatchResult, OnOk, Ok, Err, IsErr};
ghost use Rattle.cli_words.specs.Choices.{Chosen, is_mesh, choices_of};
ghost use Rattle.cli_words.specs.Command.{task_of};
ghost use Rattle.cli_words.specs.Inner.Seen.{seen};

use crate::choice::{Choice, choice_of, piece_at};
use crate::command::{Item, Task, WordFault};
use settings_core::{Given, Pair, Scope};
use slice_base::{Items, NoMemory, Text};
use std::alloc::Global;

/// A task as far as its words were read, and what later words belong to.
#[derive(Drop)]
pub struct Draft {
    workers: u8,
    journal: bool,
    out: Option<Text>,
    items: Items<Item>,
    scope: Scope,
    extruder: u8,
    files: usize,
    meshes: usize,
}

impl Draft {
    ghost use Rattle.cli_words.specs.Inner.Drafts.{Adds};

    fn add(&mut self, alloc: Global, choice: Choice<'_>) -> Result<(), NoMemory>
        requires meshes_few { is_mesh (seen choice) ≡ true → self.old.meshes < 16 }
        requires files_few { self.old.files < 18446744073709551615 }
        ensures { OnOk result (Adds self.old self.new (seen choice.entry)) }
    {
        match choice {
            Choice::Settings(name) => {
                self.items
                    .push(Item::Settings(Text::of(alloc, name.as_bytes())?))?;
                self.files += 1;
            }
            Choice::Mesh(name) => {
                self.items.push(Item::Mesh {
                    name: Text::of(alloc, name.as_bytes())?,
                    extruder: self.extruder,
                })?;
                self.scope = Scope::Mesh(self.meshes as u8);
                self.meshes += 1;
            }
            Choice::Extruder(number) => {
                self.scope = Scope::Extruder(number);
                self.extruder = number;
            }
            Choice::Everything => self.scope = Scope::Global,
            Choice::Pair { key, value } => {
                self.items.push(Item::Pair(Pair {
                    scope: self.scope,
                    key: Text::of(alloc, key)?,
                    value: Given::Words(Text::of(alloc, value)?),
                }))?;
            }
            Choice::Output(name) => self.out = Some(Text::of(alloc, name.as_bytes())?),
            Choice::Workers(count) => self.workers = count,
            Choice::Journal => self.journal = true,
            Choice::Nothing => {}
        }
        Ok(())
    }
}

/// The task that the words make. The first of them is word 2.
pub fn drafted(alloc: Global, words: &[String]) -> Result<Task, WordFault>
    ensures { let due = choices_of (map string_bytes words.now) in
        MatchResult result (λ t. (cs : List Chosen) × (due ≡ Ok cs) × (t ≡ task_of cs)) (λ e. (e ≡ WordFault.NoMemory) ⊎ IsErr due) }
{
    let mut draft = Draft {
        workers: 4,
        journal: false,
        out: None,
        items: Items::new(alloc),
        scope: Scope::Global,
        extruder: 0,
        files: 0,
        meshes: 0,
    };
    let mut at = 0;
    'words: while at < words.len() {
        let piece = piece_at(words, at);
        let choice = match choice_of(piece, at as u64 + 2, draft.files, draft.meshes) {
            Err(index) => return Err(WordFault::BadWord { index }),
            Ok(choice) => choice,
        };
        if draft.add(alloc, choice).is_err() {
            return Err(WordFault::NoMemory);
        }
        at += piece.words();
    }
    Ok(Task {
        workers: draft.workers,
        journal: draft.journal,
        out: draft.out,
        items: draft.items,
    })
}
