// Which pieces are gone.

ghost use Rattle.std.specs.Prelude.{◌≡◌, ◌<◌, length, true, false, IfOk, replicate, slice_set};
ghost use Rattle.path_order.specs.Inner.Remaining.{is_gone};

use slice_base::NoMemory;
use std::alloc::Global;
use std::marker::Model;

/// A mark for each piece, seen as the list of marks.
#[derive(Drop)]
pub(crate) struct Marks {
    marks: Vec<bool>,
}

impl Model for Marks {
    ghost use Rattle.std.specs.Prelude.{List, Bool};

    ghost Value = { List Bool };

    ghost view = { λ m. m.marks.items };
}

impl Marks {
    pub(crate) fn none(alloc: Global, count: usize) -> Result<Self, NoMemory>
        ensures { IfOk result (λ m. m ≡ replicate count false) }
    {
        let marks = vec![in alloc; false; count]?;
        Ok(Marks { marks })
    }

    pub(crate) fn is_gone(&self, piece: u64) -> bool
        ensures { result ≡ is_gone self.now piece }
    {
        match self.marks.get(piece as usize) {
            Some(is) => *is,
            None => false,
        }
    }

    pub(crate) fn mark(&mut self, piece: u64)
        requires { piece < length self.old }
        ensures { self.new ≡ slice_set self.old piece true }
    {
        self.marks[piece as usize] = true;
    }
}
