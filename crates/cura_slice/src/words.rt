// The words of the command line.

ghost use Rattle.std.specs.Prelude.{◌≡◌, ◌⊎◌, ◌≤◌, ℕ, List, Option, map, string_bytes, IfOk, IfErr};
ghost use Rattle.outside.specs.Output.{Put, PutFront};
ghost use Rattle.answers.specs.Lines.{refusal_line};
ghost use Rattle.answers.specs.Statuses.{status_in};
ghost use Rattle.cura_slice.specs.Words.{IsWord, AreWords, WhyNoWords};

use answers::{Refusal, put_refusal, status};
use outside::Sink;
use slice_base::{NoMemory, Text};
use std::alloc::Global;
use std::env::{Env, FillError};

/// Tells the console why there is no job. The answer is the program's status, whatever becomes of the
/// console.
pub fn refuse<Co: Sink>(refusal: Refusal, console: &mut Co) -> u8
    ensures status { result ≡ status_in refusal }
    ensures told { Put (Co.output console.old) (refusal_line refusal) (Co.output console.new)
        ⊎ PutFront (Co.output console.old) (refusal_line refusal) (Co.output console.new) }
{
    let _ = put_refusal(console, &refusal);
    status(&Some(refusal))
}

/// A command line.
pub trait CommandLine {
    /// Its words, that of the program's name first, where it tells them.
    ghost words: { Self → Option (List (List ℕ)) };

    /// The word at that index, 0 that of the program's name; none behind the last.
    fn word(&self, alloc: Global, index: u64) -> Result<Option<Text>, NoMemory>
        ensures { IfOk result (IsWord (words self.now) index) };
}

/// The words behind the program's name; `BadWord` with the number of the first word, from 1, that isn't
/// UTF-8, or `NoMemory`.
pub fn given<L: CommandLine>(alloc: Global, line: &L) -> Result<Vec<String>, Refusal>
    ensures words { IfOk result (λ words. AreWords (L.words line.now) (map string_bytes words.items)) }
    ensures refused { IfErr result (λ r. WhyNoWords r (L.words line.now)) }
{
    let mut words = Vec::new(alloc);
    for index in 1..u64::MAX {
        match line.word(alloc, index) {
            Ok(Some(bytes)) => {
                let Some(text) = bytes.as_str() else {
                    return Err(Refusal::BadWord { index });
                };
                let word = match String::from_str(alloc, text) {
                    Ok(word) => word,
                    Err(_) => return Err(Refusal::NoMemory),
                };
                match words.push(word) {
                    Ok(()) => {}
                    Err(_) => return Err(Refusal::NoMemory),
                }
            }
            Ok(None) => return Ok(words),
            Err(NoMemory) => return Err(Refusal::NoMemory),
        }
    }
    Err(Refusal::NoMemory)
}

// Most words are shorter, in bytes.
const MANY_BYTES: usize = 256;

// The system takes no longer word.
const MOST_BYTES: usize = 131_072;

/// The command line of this run. It doesn't tell its words: which they are is the system's.
#[derive(Drop)]
pub struct SystemLine<E: Env> {
    env: E,
}

impl<E: Env> SystemLine<E> {
    /// The command line of this run.
    pub fn of(env: E) -> Self
        ensures { result ≡ record { env = env } }
    {
        SystemLine { env }
    }

    // A word that may be long.
    fn long_word(&self, alloc: Global, index: u64) -> Result<Option<Text>, NoMemory> {
        let mut room = vec![in alloc; 0u8; MOST_BYTES]?;
        match self.env.arg(index as usize, room.as_mut_slice()) {
            Ok(length) => Ok(Some(Text::of(alloc, &room[..length])?)),
            Err(FillError::NotPresent) => Ok(None),
            Err(FillError::TooLong) => Err(NoMemory),
        }
    }
}

impl<E: Env> CommandLine for SystemLine<E> {
    ghost use Rattle.std.specs.Prelude.{None};

    ghost words = { λ _. None };

    fn word(&self, alloc: Global, index: u64) -> Result<Option<Text>, NoMemory> {
        let mut room = [0u8; MANY_BYTES];
        match self.env.arg(index as usize, &mut room) {
            Ok(length) => Ok(Some(Text::of(alloc, &room[..length])?)),
            Err(FillError::NotPresent) => Ok(None),
            Err(FillError::TooLong) => self.long_word(alloc, index),
        }
    }
}
