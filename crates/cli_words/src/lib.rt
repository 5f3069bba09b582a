// The words of a command line. What goes in is a list of words; what comes out is the command that
// they give, or the first fault, as `command_of` in `specs/` says.
#![tactic(auto)]

mod choice;
mod command;
mod draft;
mod read;
mod survey;
#[cfg(test)]
mod tests;

pub use command::{Command, Item, Task, WordFault};
pub use read::read_words;
