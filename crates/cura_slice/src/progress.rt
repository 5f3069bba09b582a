// How far a run is.

use outside::Gate;
use std::alloc::Global;
use std::io::{Stderr, Write};

/// A gate that shows on standard error which layer is planned, each in the place of the last; nothing where it isn't
/// wanted. The line that tells how the run ended covers it.
#[derive(Clone, Copy)]
pub(crate) struct Progress {
    alloc: Global,
    err: Stderr,
    is_shown: bool,
}

impl Progress {
    /// A gate that shows layers where that is wanted.
    pub(crate) fn of(alloc: Global, err: Stderr, is_shown: bool) -> Self {
        Progress {
            alloc,
            err,
            is_shown,
        }
    }
}

impl Gate for Progress {
    fn before_plan(&self, _worker: u32, layer: u32) {
        if !self.is_shown {
            return;
        }
        let alloc = self.alloc;
        if let Ok(line) = format!(in alloc; "layer {layer}\r") {
            let mut err = self.err;
            let _ = err.write(line.as_bytes());
        }
    }
}
