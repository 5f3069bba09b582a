// The net counts of bundles.

ghost use Rattle.std.specs.Prelude.{◌≡◌, ◌≤◌, length, IfOk};
ghost use Rattle.clip_core.specs.Bundled.{AreDistinct};
ghost use Rattle.clip_core.specs.Inner.Found.{AreFound, HaveNets};

use crate::bundles::Bundle;
use crate::windings::{Windings, nones, plus, share};
use edge_cut::Marked;
use slice_base::NoMemory;
use std::alloc::Global;

/// The net counts of these bundles, of which each edge has the index of its own.
pub(crate) fn nets_of(
    alloc: Global,
    all: &[Marked],
    bundles: &[Bundle],
    indices: &[usize],
) -> Result<Vec<Windings>, NoMemory>
    requires few { length all.now ≤ 100000 }
    requires count { length indices.now ≡ length all.now }
    requires found { AreFound all.now bundles.now indices.now }
    requires distinct { AreDistinct bundles.now }
    ensures { IfOk result (λ nets. HaveNets all.now bundles.now nets.items) }
{
    let mut nets = nones(alloc, bundles.len())?;
    for i in 0..all.len() {
        let index = indices[i];
        nets[index] = plus(nets[index], share(all[i]));
    }
    Ok(nets)
}
