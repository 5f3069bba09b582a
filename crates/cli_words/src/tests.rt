// Command lines, as a user writes them. The word '' stands for an empty one.

use crate::{Command, Item, Task, WordFault, read_words};
use settings_core::{Given, Pair, Scope};
use slice_base::Text;
use std::alloc::{AllocError, Global};
use std::test::Fail;

fn words_of(alloc: Global, line: &str) -> Result<Vec<String>, AllocError> {
    let mut words = Vec::new(alloc);
    for word in line.split_whitespace() {
        let text = if word == "''" { "" } else { word };
        words.push(String::from_str(alloc, text)?)?;
    }
    Ok(words)
}

fn fault_of(alloc: Global, line: &str) -> Result<Option<WordFault>, AllocError> {
    let words = words_of(alloc, line)?;
    match read_words(alloc, words.as_slice()) {
        Ok(_) => Ok(None),
        Err(fault) => Ok(Some(fault)),
    }
}

fn text_of(text: &Text) -> &str {
    text.as_str().unwrap_or("?")
}

fn scope_text(alloc: Global, scope: Scope) -> Result<String, AllocError> {
    match scope {
        Scope::Global => format!(in alloc; "global"),
        Scope::Extruder(n) => format!(in alloc; "extruder {n}"),
        Scope::Mesh(n) => format!(in alloc; "mesh {n}"),
    }
}

fn pair_text(alloc: Global, pair: &Pair) -> Result<String, AllocError> {
    let scope = scope_text(alloc, pair.scope)?;
    let key = text_of(&pair.key);
    match &pair.value {
        Given::Words(value) => {
            let value = text_of(value);
            format!(in alloc; "{scope} {key}={value}")
        }
        Given::Other => format!(in alloc; "{scope} {key}?"),
    }
}

fn item_text(alloc: Global, item: &Item) -> Result<String, AllocError> {
    match item {
        Item::Pair(pair) => pair_text(alloc, pair),
        Item::Settings(name) => {
            let name = text_of(name);
            format!(in alloc; "settings {name}")
        }
        Item::Mesh { name, extruder } => {
            let name = text_of(name);
            let number = *extruder;
            format!(in alloc; "{name} by {number}")
        }
    }
}

fn task_text(alloc: Global, task: &Task) -> Result<String, AllocError> {
    let out = match &task.out {
        None => "nothing",
        Some(name) => text_of(name),
    };
    let workers = task.workers;
    let journal = task.journal;
    let mut text = format!(in alloc; "{workers} {journal} to {out}")?;
    for item in task.items.items() {
        text.push_str("; ")?;
        text.push_str(item_text(alloc, item)?.as_str())?;
    }
    Ok(text)
}

fn command_text(alloc: Global, command: &Command) -> Result<String, AllocError> {
    match command {
        Command::Slice(task) => {
            let text = task_text(alloc, task)?;
            format!(in alloc; "slice {text}")
        }
        Command::Serial(task) => {
            let text = task_text(alloc, task)?;
            format!(in alloc; "serial {text}")
        }
        Command::Check(task) => {
            let text = task_text(alloc, task)?;
            format!(in alloc; "check {text}")
        }
        Command::Gen { number, out } => {
            let n = *number;
            let name = text_of(out);
            format!(in alloc; "gen {n} to {name}")
        }
    }
}

#[test]
fn commands_as_they_are_read(rt: HostRuntime) -> Result<(), Fail> {
    for (line, want) in [
        ("serial -l a -o b", "serial 4 false to b; a by 0"),
        (
            "slice -m01 -l a -o b -m9 -o c --journal",
            "slice 9 true to c; a by 0",
        ),
        (
            "check -v -p --journal -m64 -l a",
            "check 64 true to nothing; a by 0",
        ),
        ("serial -o -l -l -o", "serial 4 false to -l; -o by 0"),
        ("serial -l '' -o ''", "serial 4 false to ;  by 0"),
        (
            "serial -s a=1 -e1 -s b=2 -l m -s c=3 -g -s d=4 -l n -s e== -s =v -j f -o g",
            "serial 4 false to g; global a=1; extruder 1 b=2; m by 1; mesh 0 c=3; global d=4; n by 1; mesh 1 e==; mesh 1 =v; settings f",
        ),
        ("gen 0007 -o f", "gen 7 to f"),
        ("gen 4294967295 -o f", "gen 4294967295 to f"),
    ] {
        let words = words_of(rt.alloc(), line)?;
        let command = read_words(rt.alloc(), words.as_slice())?;
        let text = command_text(rt.alloc(), &command)?;
        assert_eq!(rt; text.as_str(), want, "at {line}");
    }
    Ok(())
}

#[test]
fn words_at_fault(rt: HostRuntime) -> Result<(), Fail> {
    for (line, index) in [
        ("", 1),
        ("judge a", 1),
        ("Slice -l a -o b", 1),
        ("slice -m0 -l a -o b", 2),
        ("slice -m65 -l a -o b", 2),
        ("check -m65 -l a", 2),
        ("slice -m -l a -o b", 2),
        ("slice -m001 -l a -o b", 2),
        ("slice -m+1 -l a -o b", 2),
        ("slice -e8 -l a -o b", 2),
        ("slice -e -l a -o b", 2),
        ("slice -e07 -l a -o b", 2),
        ("slice '' -l a -o b", 2),
        ("serial -l a -o", 4),
        ("serial -l a -o b x", 6),
        ("serial -l a -o b -gg", 6),
        ("serial -s x -l a -o g", 3),
        ("serial -l a -s", 4),
        ("gen", 2),
        ("gen x", 2),
        ("gen 4294967296 -o f", 2),
        ("gen 00000000007 -o f", 2),
        ("gen 7 x", 3),
        ("gen 7 -o", 3),
        ("gen 7 -o f x", 5),
    ] {
        let fault = fault_of(rt.alloc(), line)?;
        assert_eq!(rt; fault, Some(WordFault::BadWord { index }), "at {line}");
    }
    Ok(())
}

#[test]
fn what_is_lacking(rt: HostRuntime) -> Result<(), Fail> {
    for (line, want) in [
        ("serial", WordFault::NoInput),
        ("check -o b", WordFault::NoInput),
        ("serial -l a", WordFault::NoOutput),
        ("slice -l a -m2", WordFault::NoOutput),
        ("gen 7", WordFault::NoOutput),
    ] {
        assert_eq!(rt; fault_of(rt.alloc(), line)?, Some(want), "at {line}");
    }
    Ok(())
}

#[test]
fn sixteen_meshes_and_sixteen_settings_files(rt: HostRuntime) -> Result<(), Fail> {
    for (word, good) in [("-l", "slice -o b"), ("-j", "slice -l a -o b")] {
        let mut line = String::from_str(rt.alloc(), good)?;
        for _ in 0..16 {
            line.push_str(" ")?;
            line.push_str(word)?;
            line.push_str(" x")?;
        }
        let count = words_of(rt.alloc(), line.as_str())?.len();
        assert_eq!(rt; fault_of(rt.alloc(), line.as_str())?, None);
        line.push_str(" ")?;
        line.push_str(word)?;
        line.push_str(" y")?;
        let index = count as u64 + 1;
        assert!(rt; count < 100);
        assert_eq!(rt;
            fault_of(rt.alloc(), line.as_str())?,
            Some(WordFault::BadWord { index })
        );
    }
    Ok(())
}
