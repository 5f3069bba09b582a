// Whole files, read by name.

ghost use Rattle.std.specs.Prelude.{◌≡◌, IfOk, IfErr};
ghost use Rattle.std.specs.Str.{IsUtf8};
ghost use Rattle.plate_input.specs.Reads.{faults_after_reads, last_failed_after_reads};
ghost use Rattle.plate_input.specs.Inner.Gathering.{IsRead, FileRefusal};

use crate::faults::PlateFault;
use outside::{ReadNo, Shelf};
use slice_base::Text;
use std::alloc::Global;

/// The longest file, in bytes.
pub const MOST_BYTES: usize = 268_435_456;

/// The whole file of that name.
pub(crate) fn read_named<Sh: Shelf>(
    alloc: Global,
    name: &Text,
    shelf: &mut Sh,
) -> Result<Text, PlateFault>
    requires { IsUtf8 name.now }
    ensures read { IfOk result (IsRead name.now (Sh.store shelf.old) (Sh.store shelf.new)) }
    ensures refused { IfErr result (λ r. FileRefusal r name.now (Sh.store shelf.old) (Sh.store shelf.new)) }
    ensures files { (Sh.store shelf.new).files ≡ (Sh.store shelf.old).files }
    ensures faults { (Sh.store shelf.new).faults ≡ faults_after_reads result (Sh.store shelf.old).faults }
    ensures last_failed { (Sh.store shelf.new).last_failed ≡ last_failed_after_reads result
        (Sh.store shelf.old).last_failed }
{
    let Some(word) = name.as_str() else {
        unreachable!()
    };
    // Taken before the read, so that no answer to it waits for memory.
    let named = name.copy(alloc)?;
    match shelf.read(alloc, word, MOST_BYTES) {
        Ok(bytes) => Ok(Text::from_vec(bytes)),
        Err(ReadNo::Failed) => Err(PlateFault::ReadFault { name: named }),
        Err(ReadNo::TooLong) => Err(PlateFault::TooLong { name: named }),
        Err(ReadNo::NoMemory) => Err(PlateFault::NoMemory),
    }
}
