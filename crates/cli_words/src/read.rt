// Reads a list of words.

ghost use Rattle.std.specs.Prelude.{◌≡◌, map, string_bytes, IfOk, MatchResult, Ok};
ghost use Rattle.std.specs.List.{All};
ghost use Rattle.std.specs.Str.{IsUtf8};
ghost use Rattle.cli_words.specs.Choices.{choices_of};
ghost use Rattle.cli_words.specs.Command.{kind_of, task_command, needs_output, task_if, gen_file, gen_output, gen_of, command_of, names_of, IsSound};
ghost use Rattle.cli_words.specs.Faults.{IsWordFault};

use crate::choice::number_of;
use crate::command::{Command, Task, WordFault};
use crate::draft::drafted;
use crate::survey::look_over;
use slice_base::Text;
use std::alloc::Global;

/// The first word.
#[derive(Clone, Copy, PartialEq, Eq)]
pub enum Kind {
    Slice,
    Serial,
    Check,
    Gen,
}

fn kind_of(word: &str) -> Option<Kind>
    ensures { result ≡ kind_of word.now }
{
    if word == "slice" {
        Some(Kind::Slice)
    } else if word == "serial" {
        Some(Kind::Serial)
    } else if word == "check" {
        Some(Kind::Check)
    } else if word == "gen" {
        Some(Kind::Gen)
    } else {
        None
    }
}

fn needs_output(kind: Kind) -> bool
    ensures { result ≡ needs_output kind }
{
    match kind {
        Kind::Check => false,
        _ => true,
    }
}

fn task_command(kind: Kind, task: Task) -> Command
    ensures { result ≡ task_command kind task }
{
    match kind {
        Kind::Slice => Command::Slice(task),
        Kind::Serial => Command::Serial(task),
        _ => Command::Check(task),
    }
}

fn read_task(alloc: Global, kind: Kind, words: &[String]) -> Result<Command, WordFault>
    ensures { let due = task_if kind (choices_of (map string_bytes words.now)) in
        MatchResult result (λ c. due ≡ Ok c) (IsWordFault due) }
{
    let found = match look_over(words) {
        Err(index) => return Err(WordFault::BadWord { index }),
        Ok(found) => found,
    };
    if found.meshes == 0 {
        return Err(WordFault::NoInput);
    }
    if needs_output(kind) && found.lacks_output {
        return Err(WordFault::NoOutput);
    }
    match drafted(alloc, words) {
        Err(fault) => Err(fault),
        Ok(task) => Ok(task_command(kind, task)),
    }
}

fn read_gen_file(alloc: Global, number: u32, words: &[String]) -> Result<Command, WordFault>
    ensures { let due = gen_file number (map string_bytes words.now) in
        MatchResult result (λ c. due ≡ Ok c) (IsWordFault due) }
{
    match words {
        [] => Err(WordFault::BadWord { index: 3 }),
        [name] => match Text::of(alloc, name.as_str().as_bytes()) {
            Err(_) => Err(WordFault::NoMemory),
            Ok(out) => Ok(Command::Gen { number, out }),
        },
        [_, _, ..] => Err(WordFault::BadWord { index: 5 }),
    }
}

fn read_gen_output(alloc: Global, number: u32, words: &[String]) -> Result<Command, WordFault>
    ensures { let due = gen_output number (map string_bytes words.now) in
        MatchResult result (λ c. due ≡ Ok c) (IsWordFault due) }
{
    match words {
        [] => Err(WordFault::NoOutput),
        [word, rest @ ..] => {
            if word.as_str() == "-o" {
                read_gen_file(alloc, number, rest)
            } else {
                Err(WordFault::BadWord { index: 3 })
            }
        }
    }
}

fn read_gen(alloc: Global, words: &[String]) -> Result<Command, WordFault>
    ensures { let due = gen_of (map string_bytes words.now) in
        MatchResult result (λ c. due ≡ Ok c) (IsWordFault due) }
{
    match words {
        [] => Err(WordFault::BadWord { index: 2 }),
        [word, rest @ ..] => {
            match number_of(word.as_str().as_bytes(), 10, 0, 4_294_967_295) {
                None => Err(WordFault::BadWord { index: 2 }),
                Some(number) => read_gen_output(alloc, number as u32, rest),
            }
        }
    }
}

#[tactic(auto, unfolding(crate::specs::Command::command_of))]
fn read_command(alloc: Global, words: &[String]) -> Result<Command, WordFault>
    ensures { let due = command_of (map string_bytes words.now) in
        MatchResult result (λ c. due ≡ Ok c) (IsWordFault due) }
{
    match words {
        [] => Err(WordFault::BadWord { index: 1 }),
        [word, rest @ ..] => match kind_of(word.as_str()) {
            None => Err(WordFault::BadWord { index: 1 }),
            Some(Kind::Gen) => read_gen(alloc, rest),
            Some(kind) => read_task(alloc, kind, rest),
        },
    }
}

/// The command that the words behind a program's name give.
///
/// A fault is the first of: the first word at fault, a task without a mesh, a command that writes
/// without a file to write. Want of memory comes only where there is no other fault.
pub fn read_words(alloc: Global, words: &[String]) -> Result<Command, WordFault>
    ensures command { let due = command_of (map string_bytes words.now) in
        MatchResult result (λ c. due ≡ Ok c) (IsWordFault due) }
    ensures names { IfOk result (λ c. All IsUtf8 (names_of c)) }
    ensures sound { IfOk result IsSound }
{
    read_command(alloc, words)
}
