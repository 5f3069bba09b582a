// Reads what a task asks to slice.

ghost use Rattle.std.specs.Prelude.{◌≡◌, ◌<◌, ℕ, List, length, Some, Result, IfOk};
ghost use Rattle.std.specs.List.{All};
ghost use Rattle.std.specs.Str.{IsUtf8};
ghost use Rattle.outside.specs.Files.{Files};
ghost use Rattle.cli_words.specs.Command.{IsTask, item_names};
ghost use Rattle.plate_input.specs.declared.faults.PlateFault.{PlateFault};
ghost use Rattle.plate_input.specs.declared.plates.Plate.{Plate};
ghost use Rattle.plate_input.specs.Plate.{PlateGives};
ghost use Rattle.plate_input.specs.Reads.{ReadsFiles, SaysPlate, IsUnlessFailed, faults_after_reads, last_failed_after_reads};

use crate::faults::PlateFault;
use crate::gathered::gather;
use crate::laws::one_plate;
use crate::plates::Plate;
use crate::settled::finish;
use cli_words::Task;
use outside::Shelf;
use std::alloc::Global;

/// The plate that a task and the files of the shelf define, or the first fault.
///
/// All files are read, in the order of the words, before any fault of their content is told. Then come the
/// settings files, the settings, and the meshes one by one. A fault of the shelf or want of memory may
/// come in place of any other answer. No file behind one that failed or is too long is read, and the
/// files of the shelf stay as they are. A read that failed is always told as `ReadFault`.
pub fn read_plate<Sh: Shelf>(
    alloc: Global,
    task: &Task,
    shelf: &mut Sh,
) -> Result<Plate, PlateFault>
    requires task { IsTask task.now }
    requires utf8 { All IsUtf8 (item_names task.now.items) }
    ensures says { SaysPlate result task.now.items (Sh.store shelf.old) (Sh.store shelf.new) }

    // What told files define is the answer, unless a read failed or memory ran out.
    ensures one { (files : Files) (a : Result Plate PlateFault)
        → (Sh.store shelf.old).files ≡ Some files
        → PlateGives task.now.items (Some files) a → IsUnlessFailed a result }

    ensures reads { ReadsFiles result task.now.items (Sh.store shelf.old) (Sh.store shelf.new) }
    ensures files { (Sh.store shelf.new).files ≡ (Sh.store shelf.old).files }
    ensures faults { (Sh.store shelf.new).faults ≡ faults_after_reads result (Sh.store shelf.old).faults }
    ensures last_failed { (Sh.store shelf.new).last_failed ≡ last_failed_after_reads result
        (Sh.store shelf.old).last_failed }
{
    one_plate();
    let gathered = gather(alloc, task.items.items(), shelf)?;
    finish(alloc, gathered)
}
