// Works out the job that a task and its files define, or that a number draws.

ghost use Rattle.std.specs.Prelude.{◌≡◌, ◌≤◌, ◌<◌, ◌⊎◌, ◌∷◌, [], ℕ, Ok, Err, IfOk, IfErr, length};
ghost use Rattle.std.specs.List.{All, sum_by};
ghost use Rattle.std.specs.Str.{IsUtf8};
ghost use Rattle.answers.specs.declared.refusal.Refusal.TheVariants as refusal;
ghost use Rattle.cli_words.specs.Command.{IsTask, item_names};
ghost use Rattle.plate_input.specs.Plate.{PlateGives};
ghost use Rattle.sample_meshes.specs.Meshes.{mesh_text};
ghost use Rattle.area_stage.specs.Areas.{AreasGive};
ghost use Rattle.slice_engine.specs.Jobs.{area_refusal, HasNoPlate, SamplePlate, SampleGives, sample_pairs, sample_texts};
ghost use Rattle.slice_engine.specs.Reads.{TaskReads, read_faults};
ghost use Rattle.slice_engine.specs.Inner.Answered.{SaysTask, refusal_in};
ghost use Rattle.slice_engine.specs.Inner.Plates.{LacksAreas, IsSample};

use answers::Refusal;
use area_stage::{AreaFault, areas, areas_wide};
use cli_words::Task;
use cross_section::Mesh;
use outside::Shelf;
use plan_types::Job;
use plate_input::{MOST_BYTES, Plate, make_plate, read_plate};
use sample_meshes::{SampleMesh, sample_mesh};
use settings_core::{Given, Pair, Scope};
use slice_base::{Items, NoMemory, Text};
use std::alloc::Global;
use std::thread::Threads;

fn area_refusal(fault: AreaFault) -> Refusal
    ensures { result ≡ area_refusal fault }
{
    match fault {
        AreaFault::NoLayers => Refusal::NoLayers,
        AreaFault::TooManyLayers { count } => Refusal::TooManyLayers { count },
        AreaFault::TooTangled { mesh, layer, count } => Refusal::TooTangled { mesh, layer, count },
        AreaFault::NoMemory => Refusal::NoMemory,
    }
}

// The job of a plate, its layers worked out one after another.
fn job_of_plate(alloc: Global, plate: Plate) -> Result<Job, Refusal>
    ensures job { IfOk result (λ job. AreasGive plate.settings plate.meshes (Ok job)) }
    ensures refused { IfErr result (λ r. (r ≡ refusal.NoMemory) ⊎ LacksAreas plate r) }
{
    let Plate { settings, meshes } = plate;
    match areas(alloc, settings, meshes.items()) {
        Ok(job) => Ok(job),
        Err(fault) => Err(area_refusal(fault)),
    }
}

// The same, by so many threads.
fn wide_job_of_plate<R: Threads + Sync>(
    rt: &R,
    alloc: Global,
    threads: u32,
    plate: Plate,
) -> Result<Job, Refusal>
    requires threads { 0 < threads }
    ensures job { IfOk result (λ job. AreasGive plate.settings plate.meshes (Ok job)) }
    ensures refused { IfErr result (λ r. (r ≡ refusal.NoMemory) ⊎ LacksAreas plate r) }
{
    let Plate { settings, meshes } = plate;
    match areas_wide(rt, alloc, threads, settings, meshes.items()) {
        Ok(job) => Ok(job),
        Err(fault) => Err(area_refusal(fault)),
    }
}

// The plate of a task and its files.
fn plate_of_task<Sh: Shelf>(alloc: Global, task: &Task, shelf: &mut Sh) -> Result<Plate, Refusal>
    requires task { IsTask task.now }
    requires names { All IsUtf8 (item_names task.now.items) }
    ensures plate { IfOk result (λ plate. PlateGives task.now.items (Sh.store shelf.old).files (Ok plate)) }
    ensures refused { IfErr result (λ r. SaysTask (Err r) task.now.items (Sh.store shelf.old) (Sh.store shelf.new)) }
    ensures reads { TaskReads (refusal_in result) task.now.items (Sh.store shelf.old) (Sh.store shelf.new) }
    ensures faults { (Sh.store shelf.new).faults ≡ read_faults (refusal_in result) (Sh.store shelf.old).faults }
{
    match read_plate(alloc, task, shelf) {
        Ok(plate) => Ok(plate),
        Err(fault) => Err(Refusal::from(fault)),
    }
}

/// The job that a task and the files of the shelf define, or the first refusal. All files are read, in the
/// order of the words; then the settings are resolved, each mesh is put in place, and the areas are worked
/// out, layer by layer.
pub(crate) fn plan_task<Sh: Shelf>(
    alloc: Global,
    task: &Task,
    shelf: &mut Sh,
) -> Result<Job, Refusal>
    requires task { IsTask task.now }
    requires names { All IsUtf8 (item_names task.now.items) }
    ensures says { SaysTask result task.now.items (Sh.store shelf.old) (Sh.store shelf.new) }
    ensures reads { TaskReads (refusal_in result) task.now.items (Sh.store shelf.old) (Sh.store shelf.new) }
    ensures faults { (Sh.store shelf.new).faults ≡ read_faults (refusal_in result) (Sh.store shelf.old).faults }
{
    let plate = plate_of_task(alloc, task, shelf)?;
    match job_of_plate(alloc, plate) {
        Ok(job) => Ok(job),
        Err(refusal) => Err(refusal),
    }
}

/// The same, areas worked out by many threads.
pub(crate) fn plan_task_wide<Sh: Shelf, R: Threads + Sync>(
    rt: &R,
    alloc: Global,
    task: &Task,
    shelf: &mut Sh,
) -> Result<Job, Refusal>
    requires task { IsTask task.now }
    requires names { All IsUtf8 (item_names task.now.items) }
    ensures says { SaysTask result task.now.items (Sh.store shelf.old) (Sh.store shelf.new) }
    ensures reads { TaskReads (refusal_in result) task.now.items (Sh.store shelf.old) (Sh.store shelf.new) }
    ensures faults { (Sh.store shelf.new).faults ≡ read_faults (refusal_in result) (Sh.store shelf.old).faults }
{
    let plate = plate_of_task(alloc, task, shelf)?;
    match wide_job_of_plate(rt, alloc, u32::from(task.workers), plate) {
        Ok(job) => Ok(job),
        Err(refusal) => Err(refusal),
    }
}

// The text of a mesh that a number draws. It is far below the longest file; that it is tested here spares a
// proof, and no text is refused.
fn sample_text(alloc: Global, number: u32, mesh: SampleMesh) -> Result<Text, NoMemory>
    ensures text { IfOk result (λ text. text ≡ mesh_text number mesh) }
    ensures short { IfOk result (λ text. length text ≤ MOST_BYTES) }
{
    let text = sample_mesh(alloc, number, mesh)?;
    if text.bytes().len() > MOST_BYTES {
        return Err(NoMemory);
    }
    Ok(text)
}

// The texts of both meshes that a number draws.
fn sample_texts(alloc: Global, number: u32) -> Result<Items<Text>, NoMemory>
    ensures texts { IfOk result (λ texts. texts ≡ sample_texts number) }
    ensures short { IfOk result (λ texts. All (λ text. length text ≤ MOST_BYTES) texts) }
{
    let mut texts = Items::new(alloc);
    texts.push(sample_text(alloc, number, SampleMesh::First)?)?;
    texts.push(sample_text(alloc, number, SampleMesh::Second)?)?;
    Ok(texts)
}

// The settings of a generated job.
fn sample_pair(alloc: Global) -> Result<Pair, NoMemory>
    ensures { IfOk result (λ pair. pair ∷ [] ≡ sample_pairs) }
{
    Ok(Pair {
        scope: Scope::Global,
        key: Text::of(alloc, b"machine_extruder_count")?,
        value: Given::Words(Text::of(alloc, b"2")?),
    })
}

// The plate of a generated job.
fn sample_plate(alloc: Global, number: u32) -> Result<Plate, Refusal>
    ensures plate { IfOk result (λ plate. SamplePlate number (Ok plate)) }
    ensures refused { IfErr result (λ r. (r ≡ refusal.NoMemory) ⊎ HasNoPlate (SamplePlate number) r) }
{
    let texts = sample_texts(alloc, number)?;
    let pairs = [sample_pair(alloc)?];
    match make_plate(alloc, &pairs, &[0, 1], texts) {
        Ok(plate) => Ok(plate),
        Err(fault) => Err(Refusal::from(fault)),
    }
}

fn triangles_in(meshes: &[Mesh]) -> u64
    requires { length meshes.now ≤ 16 }
    ensures { result ≡ sum_by length meshes.now }
{
    let mut triangles = 0;
    for mesh in meshes {
        triangles += u64::from(mesh.count());
    }
    triangles
}

/// A generated job, and how many triangles it has.
#[derive(Drop)]
pub(crate) struct Sample {
    pub(crate) job: Job,
    pub(crate) triangles: u64,
}

/// The job that a number draws, or the first refusal.
pub(crate) fn plan_sample(alloc: Global, number: u32) -> Result<Sample, Refusal>
    ensures sample { IfOk result (λ sample. IsSample number sample.job sample.triangles) }
    ensures refused { IfErr result (λ r. (r ≡ refusal.NoMemory) ⊎ SampleGives number (Err r)) }
{
    let plate = sample_plate(alloc, number)?;
    let triangles = triangles_in(plate.meshes.items());
    match job_of_plate(alloc, plate) {
        Ok(job) => Ok(Sample { job, triangles }),
        Err(refusal) => Err(refusal),
    }
}
