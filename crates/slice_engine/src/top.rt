// The top calls.

ghost use Rattle.std.specs.Prelude.{ℕ, ◌≡◌, ◌⊎◌, ◌↔◌, [], List, Option, Some, None, Result, Ok, Err, map, string_bytes};
ghost use Rattle.slice_base.specs.Causes.{Rose};
ghost use Rattle.outside.specs.Files.{Files};
ghost use Rattle.answers.specs.declared.refusal.Refusal.{Refusal};
ghost use Rattle.answers.specs.declared.refusal.Refusal.TheVariants as refusal;
ghost use Rattle.answers.specs.Statuses.{status_of};
ghost use Rattle.cli_words.specs.declared.command.WordFault.{WordFault};
ghost use Rattle.cli_words.specs.declared.command.WordFault.TheVariants as fault;
ghost use Rattle.cli_words.specs.Command.{command_of};
ghost use Rattle.plan_types.specs.Jobs.{JobValue};
ghost use Rattle.slice_engine.specs.declared.done.Done.{Done};
ghost use Rattle.slice_engine.specs.Jobs.{JobGives, word_refusal};
ghost use Rattle.slice_engine.specs.Reads.{WordsRead, read_faults};
ghost use Rattle.slice_engine.specs.Totals.{RunTotals};
ghost use Rattle.slice_engine.specs.Inner.Answered.{refusal_in};
ghost use Rattle.slice_engine.specs.Answers.{SaysEnd, SaysWide, Says, SaysAll, WriteFaultsWide, asks_journal, write_faults};

use crate::done::{Done, totals_in};
use crate::laws::one_job;
use crate::runs::Run;
use crate::still::do_still;
use crate::telling::tell;
use crate::wide::{WideEnd, do_wide};
use answers::Refusal;
use cli_words::{WordFault, read_words};
use outside::{Gate, Shelf, Sink};
use slice_base::Items;
use std::alloc::Global;
use std::sync::Wait;
use std::thread::Threads;

// The refusal of words at fault.
fn word_refusal(fault: WordFault) -> Refusal
    ensures { result ≡ word_refusal fault }
{
    match fault {
        WordFault::BadWord { index } => Refusal::BadWord { index },
        WordFault::NoInput => Refusal::NoInput,
        WordFault::NoOutput => Refusal::NoOutput,
        WordFault::NoMemory => Refusal::NoMemory,
    }
}

// Does what words ask, in one thread.
fn run_still<Sh: Shelf, Si: Sink>(
    alloc: Global,
    words: &[String],
    shelf: &mut Sh,
    sink: Si,
) -> (Result<Done, Refusal>, Si)
    ensures says { SaysEnd result.0 (command_of (map string_bytes words.now)) (Sh.store shelf.old) (Sh.store shelf.new)
        (Si.output sink) (Si.output result.1) }
    ensures word { (f : WordFault) → command_of (map string_bytes words.now) ≡ Err f
        → result.0 ≡ Err (word_refusal f) }
    ensures reads { WordsRead (map string_bytes words.now) (refusal_in result.0) (Sh.store shelf.old)
        (Sh.store shelf.new) }
    ensures read_faults { (Sh.store shelf.new).faults ≡ read_faults (refusal_in result.0) (Sh.store shelf.old).faults }
    ensures write_faults { (Si.output result.1).faults ≡ write_faults (refusal_in result.0) (Si.output sink).faults }
{
    match read_words(alloc, words) {
        Ok(command) => do_still(alloc, command, shelf, sink),
        Err(fault) => (Err(word_refusal(fault)), sink),
    }
}

/// Does what the words and the files of the shelf define, in one thread: reads the words, then all files in the order
/// of the words, resolves the settings, puts the meshes in place, works out all areas, writes the file to the sink,
/// which is handed back, layers planned and written one after another, and tells the console how it ended.
///
/// A refusal is the first that holds, in the order that `Refusal` tells. With every refusal but `WriteFault`,
/// `ConsoleFault` and `NoMemory` the sink is as before; with `NoMemory` it is as before or holds what was written.
pub fn still_top<Sh: Shelf, Si: Sink, Co: Sink>(
    alloc: Global,
    words: &[String],
    shelf: &mut Sh,
    sink: Si,
    console: &mut Co,
) -> (Run, Si)
    ensures status { result.0.status ≡ status_of result.0.refusal }

    // What the answer says of the words, the shelf, the sink and the console.
    ensures says { Says result.0.refusal (map string_bytes words.now) (Sh.store shelf.old) (Sh.store shelf.new)
        (Si.output sink) (Si.output result.1) (Co.output console.old) (Co.output console.new) }
    ensures journal { result.0.journal ≡ [] }

    // Words at fault are the answer, always and nowhere else.
    ensures bad_word { (n : ℕ) → (result.0.refusal ≡ Some (refusal.BadWord n))
        ↔ (command_of (map string_bytes words.now) ≡ Err (fault.BadWord n)) }
    ensures no_input { (result.0.refusal ≡ Some refusal.NoInput)
        ↔ (command_of (map string_bytes words.now) ≡ Err fault.NoInput) }
    ensures no_output { (result.0.refusal ≡ Some refusal.NoOutput)
        ↔ (command_of (map string_bytes words.now) ≡ Err fault.NoOutput) }

    // Where told files define a job and nothing failed, all was done, unless memory ran out.
    ensures complete { (files : Files) (job : JobValue) → (Sh.store shelf.old).files ≡ Some files
        → JobGives (map string_bytes words.now) (Some files) (Ok job)
        → ¬ (Rose (Sh.store shelf.old).faults (Sh.store shelf.new).faults)
        → ¬ (Rose (Si.output sink).faults (Si.output result.1).faults)
        → ¬ (Rose (Co.output console.old).faults (Co.output console.new).faults)
        → (result.0.refusal ≡ None) ⊎ (result.0.refusal ≡ Some refusal.NoMemory) }

    // Where they define a refusal and no read failed, that is the answer, unless memory ran out.
    ensures refused { (files : Files) (r : Refusal) → (Sh.store shelf.old).files ≡ Some files
        → JobGives (map string_bytes words.now) (Some files) (Err r)
        → ¬ (Rose (Sh.store shelf.old).faults (Sh.store shelf.new).faults)
        → (result.0.refusal ≡ Some r) ⊎ (result.0.refusal ≡ Some refusal.NoMemory) }

    // Words and told files define one job, or one refusal, at most.
    ensures only { (files : Files) (a b : Result JobValue Refusal)
        → JobGives (map string_bytes words.now) (Some files) a → JobGives (map string_bytes words.now) (Some files) b
        → a ≡ b }

    // The shelf failed once where the answer is a failed read, the sink where it is a failed write; else
    // neither did.
    ensures read_faults { (Sh.store shelf.new).faults ≡ read_faults result.0.refusal (Sh.store shelf.old).faults }
    ensures write_faults { (Si.output result.1).faults ≡ write_faults result.0.refusal (Si.output sink).faults }

    // No file is changed. Each file that the words name is read once for each time that it is named, up to one
    // whose read failed or that is too long; none where the words are at fault.
    ensures reads { WordsRead (map string_bytes words.now) result.0.refusal (Sh.store shelf.old) (Sh.store shelf.new) }

    // The totals are those of the job where it was done, and none where it was refused.
    ensures totals { RunTotals result.0.refusal (command_of (map string_bytes words.now)) (Sh.store shelf.old).files
        result.0.totals }
{
    one_job();
    let (ended, sink) = run_still(alloc, words, shelf, sink);
    let totals = totals_in(&ended);
    let refusal = tell(console, ended, false, &[]);
    (Run::of(refusal, Items::new(alloc), totals), sink)
}

// Does what words ask, a slice by many workers.
fn run_wide<Sh: Shelf, Si: Sink + Send, G: Gate + Sync, R: Threads + Wait + Sync>(
    rt: &R,
    alloc: Global,
    words: &[String],
    shelf: &mut Sh,
    sink: Si,
    gate: &G,
) -> WideEnd<Si>
    ensures says { SaysWide result.ended (command_of (map string_bytes words.now)) result.journal.items
        (Sh.store shelf.old) (Sh.store shelf.new) (Si.output sink) (Si.output result.sink) }
    ensures asked { (done : Done) → result.ended ≡ Ok done
        → result.is_asked ≡ asks_journal (command_of (map string_bytes words.now)) }
    ensures word { (f : WordFault) → command_of (map string_bytes words.now) ≡ Err f
        → result.ended ≡ Err (word_refusal f) }
    ensures reads { WordsRead (map string_bytes words.now) (refusal_in result.ended) (Sh.store shelf.old)
        (Sh.store shelf.new) }
    ensures read_faults { (Sh.store shelf.new).faults ≡ read_faults (refusal_in result.ended)
        (Sh.store shelf.old).faults }
    ensures write_faults { WriteFaultsWide (refusal_in result.ended) (Si.output sink).faults
        (Si.output result.sink).faults }
{
    match read_words(alloc, words) {
        Ok(command) => do_wide(rt, alloc, command, shelf, sink, gate),
        Err(fault) => WideEnd {
            ended: Err(word_refusal(fault)),
            is_asked: false,
            journal: Vec::new(alloc),
            sink,
        },
    }
}

/// Does what the words and the files of the shelf define, the same as `still_top` but that a slice's layers are
/// planned by as many workers as the words say: each layer is claimed once, in rising order, waits with at most eight
/// a worker, and is written in order, so that the file is the one that planning the layers one after another defines,
/// for every schedule. Before a worker plans a layer it passes the gate. The run holds the journal of what the workers
/// did; where the words ask for it, its lines are told behind that of what was done.
///
/// A refusal is the first that holds, in the order that `Refusal` tells. With every refusal but `WriteFault`,
/// `ConsoleFault` and `NoMemory` the sink is as before; with `NoMemory` it is as before or holds what was written.
pub fn slice_top<Sh: Shelf, Si: Sink + Send, Co: Sink, G: Gate + Sync, R: Threads + Wait + Sync>(
    rt: &R,
    alloc: Global,
    words: &[String],
    shelf: &mut Sh,
    sink: Si,
    console: &mut Co,
    gate: &G,
) -> (Run, Si)
    ensures status { result.0.status ≡ status_of result.0.refusal }

    // What the answer says of the words, the shelf, the sink, the console and the journal.
    ensures says { SaysAll result.0.refusal (map string_bytes words.now) result.0.journal (Sh.store shelf.old)
        (Sh.store shelf.new) (Si.output sink) (Si.output result.1) (Co.output console.old) (Co.output console.new) }

    // Words at fault are the answer, always and nowhere else.
    ensures bad_word { (n : ℕ) → (result.0.refusal ≡ Some (refusal.BadWord n))
        ↔ (command_of (map string_bytes words.now) ≡ Err (fault.BadWord n)) }
    ensures no_input { (result.0.refusal ≡ Some refusal.NoInput)
        ↔ (command_of (map string_bytes words.now) ≡ Err fault.NoInput) }
    ensures no_output { (result.0.refusal ≡ Some refusal.NoOutput)
        ↔ (command_of (map string_bytes words.now) ≡ Err fault.NoOutput) }

    // Where told files define a job and nothing failed, all was done, unless memory ran out.
    ensures complete { (files : Files) (job : JobValue) → (Sh.store shelf.old).files ≡ Some files
        → JobGives (map string_bytes words.now) (Some files) (Ok job)
        → ¬ (Rose (Sh.store shelf.old).faults (Sh.store shelf.new).faults)
        → ¬ (Rose (Si.output sink).faults (Si.output result.1).faults)
        → ¬ (Rose (Co.output console.old).faults (Co.output console.new).faults)
        → (result.0.refusal ≡ None) ⊎ (result.0.refusal ≡ Some refusal.NoMemory) }

    // Where they define a refusal and no read failed, that is the answer, unless memory ran out.
    ensures refused { (files : Files) (r : Refusal) → (Sh.store shelf.old).files ≡ Some files
        → JobGives (map string_bytes words.now) (Some files) (Err r)
        → ¬ (Rose (Sh.store shelf.old).faults (Sh.store shelf.new).faults)
        → (result.0.refusal ≡ Some r) ⊎ (result.0.refusal ≡ Some refusal.NoMemory) }

    // Words and told files define one job, or one refusal, at most.
    ensures only { (files : Files) (a b : Result JobValue Refusal)
        → JobGives (map string_bytes words.now) (Some files) a → JobGives (map string_bytes words.now) (Some files) b
        → a ≡ b }

    // The shelf failed once where the answer is a failed read; the sink once where it is a failed write, and once at
    // most where a slice's memory ran out; else neither did.
    ensures read_faults { (Sh.store shelf.new).faults ≡ read_faults result.0.refusal (Sh.store shelf.old).faults }
    ensures write_faults { WriteFaultsWide result.0.refusal (Si.output sink).faults (Si.output result.1).faults }

    // No file is changed. Each file that the words name is read once for each time that it is named, up to one
    // whose read failed or that is too long; none where the words are at fault.
    ensures reads { WordsRead (map string_bytes words.now) result.0.refusal (Sh.store shelf.old) (Sh.store shelf.new) }

    // The totals are those of the job where it was done, and none where it was refused.
    ensures totals { RunTotals result.0.refusal (command_of (map string_bytes words.now)) (Sh.store shelf.old).files
        result.0.totals }
{
    one_job();
    let WideEnd {
        ended,
        is_asked,
        journal,
        sink,
    } = run_wide(rt, alloc, words, shelf, sink, gate);
    let totals = totals_in(&ended);
    let refusal = tell(console, ended, is_asked, &journal);
    (Run::of(refusal, Items::of(journal), totals), sink)
}
