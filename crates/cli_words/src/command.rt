// Commands, and the faults of words.

use settings_core::Pair;
use slice_base::{Items, Text};

/// What a task is made from, in the order of the words.
#[derive(Drop)]
pub enum Item {
    /// A setting.
    Pair(Pair),
    /// The name of a settings file, whose pairs stand here.
    Settings(Text),
    /// The name of a mesh file, and the number of the extruder that prints the mesh.
    Mesh { name: Text, extruder: u8 },
}

/// What to slice, and how.
#[derive(Drop)]
pub struct Task {
    /// Threads that plan layers, 1 to 64.
    pub workers: u8,
    /// Whether the events of the planning are printed.
    pub journal: bool,
    /// The name of the file to write.
    pub out: Option<Text>,
    pub items: Items<Item>,
}

/// What the words ask for.
#[derive(Drop)]
pub enum Command {
    /// Slice by several threads.
    Slice(Task),
    /// Slice by one thread.
    Serial(Task),
    /// Do all but write.
    Check(Task),
    /// Generate the job of this number and slice it into a file of this name.
    Gen { number: u32, out: Text },
}

/// Why words give no command.
#[derive(Clone, Copy, PartialEq, Eq, Debug)]
pub enum WordFault {
    /// The first word at fault, counted from 1.
    BadWord { index: u64 },
    /// A task has no mesh.
    NoInput,
    /// There is no file to write.
    NoOutput,
    /// The words have no fault, but there was no memory for the command.
    NoMemory,
}
