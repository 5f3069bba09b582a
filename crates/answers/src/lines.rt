// The lines that the console gets.

ghost use Rattle.std.specs.Prelude.{◌≡◌, ◌++◌, codes, decimal, OnOk, OnErr};
ghost use Rattle.outside.specs.Output.{Put, PutFront};
ghost use Rattle.answers.specs.Inner.Ends.{file_text, plan_text};
ghost use Rattle.answers.specs.Lines.{tangle_text, refusal_text, refusal_line, done_line, checked_line, step_text, step_line, generated_line};

use crate::pieces::{put_key, put_number, put_numbers, put_two};
use crate::refusal::Refusal;
use outside::{Sink, put_all, puts_add_up};
use slice_base::Failed;

// Where cutting gave too many edges, and how many.
fn put_tangle<S: Sink>(console: &mut S, mesh: u8, layer: u32, count: u64) -> Result<(), Failed>
    ensures ok { OnOk result (Put (S.output console.old) (tangle_text mesh layer count) (S.output console.new)) }
    ensures err { OnErr result (PutFront (S.output console.old) (tangle_text mesh layer count) (S.output console.new)) }
{
    puts_add_up();
    put_numbers(
        console,
        b"too tangled: mesh ",
        mesh as u128,
        b" layer ",
        layer as u128,
    )?;
    put_number(console, b" count ", count as u128)
}

// Why the job wasn't done.
fn put_text<S: Sink>(console: &mut S, refusal: &Refusal) -> Result<(), Failed>
    ensures ok { OnOk result (Put (S.output console.old) (refusal_text refusal.now) (S.output console.new)) }
    ensures err { OnErr result (PutFront (S.output console.old) (refusal_text refusal.now) (S.output console.new)) }
{
    match refusal {
        Refusal::BadWord { index } => put_number(console, b"bad word ", *index as u128),
        Refusal::NoInput => put_all(console, b"no input"),
        Refusal::NoOutput => put_all(console, b"no output"),
        Refusal::ReadFault { name } => put_two(console, b"cannot read ", name.bytes()),
        Refusal::TooLong { name } => put_two(console, b"too long: ", name.bytes()),
        Refusal::NotJson { name } => put_two(console, b"not a settings file: ", name.bytes()),
        Refusal::BadValue { scope, key } => put_key(console, b"bad value: ", *scope, key.bytes()),
        Refusal::OutOfRange { scope, key } => {
            put_key(console, b"out of range: ", *scope, key.bytes())
        }
        Refusal::UnknownExtruder { mesh } => {
            put_number(console, b"unknown extruder: mesh ", *mesh as u128)
        }
        Refusal::BadStl { mesh, line } => put_numbers(
            console,
            b"bad STL: mesh ",
            *mesh as u128,
            b" line ",
            *line as u128,
        ),
        Refusal::NoTriangles { mesh } => {
            put_number(console, b"no triangles: mesh ", *mesh as u128)
        }
        Refusal::TooManyTriangles { mesh, count } => put_numbers(
            console,
            b"too many triangles: mesh ",
            *mesh as u128,
            b" count ",
            *count as u128,
        ),
        Refusal::OutsideVolume { mesh, triangle, .. } => put_numbers(
            console,
            b"outside the volume: mesh ",
            *mesh as u128,
            b" triangle ",
            *triangle as u128,
        ),
        Refusal::NoLayers => put_all(console, b"no layers"),
        Refusal::TooManyLayers { count } => {
            put_number(console, b"too many layers: ", *count as u128)
        }
        Refusal::TooTangled { mesh, layer, count } => { put_tangle(console, *mesh, *layer, *count) }
        Refusal::NoMemory => put_all(console, b"out of memory"),
        Refusal::WriteFault => put_all(console, b"cannot write"),
        Refusal::ConsoleFault => put_all(console, b"cannot write to the console"),
    }
}

/// Puts the line of a refusal, as `error: no input`, with a line feed behind it. Takes no memory. Where
/// the console fails it has got a front of the line.
pub fn put_refusal<S: Sink>(console: &mut S, refusal: &Refusal) -> Result<(), Failed>
    ensures ok { OnOk result (Put (S.output console.old) (refusal_line refusal.now) (S.output console.new)) }
    ensures err { OnErr result (PutFront (S.output console.old) (refusal_line refusal.now) (S.output console.new)) }
{
    puts_add_up();
    put_all(console, b"error: ")?;
    put_text(console, refusal)?;
    put_all(console, b"\n")
}

// A text, a number of layers and a line feed.
fn put_layers<S: Sink>(console: &mut S, text: &[u8], layers: u32) -> Result<(), Failed>
    ensures ok { let line = text.now ++ decimal layers ++ codes " layers\n" in
        OnOk result (Put (S.output console.old) line (S.output console.new)) }
    ensures err { let line = text.now ++ decimal layers ++ codes " layers\n" in
        OnErr result (PutFront (S.output console.old) line (S.output console.new)) }
{
    puts_add_up();
    put_number(console, text, layers as u128)?;
    put_all(console, b" layers\n")
}

/// Puts the line of a job that was done, `sliced N layers`, with a line feed behind it. Takes no memory.
/// Where the console fails it has got a front of the line.
pub fn put_done<S: Sink>(console: &mut S, layers: u32) -> Result<(), Failed>
    ensures ok { OnOk result (Put (S.output console.old) (done_line layers) (S.output console.new)) }
    ensures err { OnErr result (PutFront (S.output console.old) (done_line layers) (S.output console.new)) }
{
    put_layers(console, b"sliced ", layers)
}

/// Puts the line of a job that was checked, `checked N layers`, with a line feed behind it. Takes no
/// memory. Where the console fails it has got a front of the line.
pub fn put_checked<S: Sink>(console: &mut S, layers: u32) -> Result<(), Failed>
    ensures ok { OnOk result (Put (S.output console.old) (checked_line layers) (S.output console.new)) }
    ensures err { OnErr result (PutFront (S.output console.old) (checked_line layers) (S.output console.new)) }
{
    put_layers(console, b"checked ", layers)
}

/// What a worker did with a layer.
#[derive(Clone, Copy, PartialEq, Eq, Debug)]
pub enum Step {
    /// It has the layer in work.
    Claim,
    /// It put the layer's plan into its slot.
    Place,
    /// It took the layer's plan, to write it.
    Take,
    /// It has written the layer.
    Back,
}

fn step_text(step: Step) -> &'static [u8]
    ensures { result.now ≡ step_text step }
{
    match step {
        Step::Claim => b"claim ",
        Step::Place => b"place ",
        Step::Take => b"take ",
        Step::Back => b"back ",
    }
}

/// Puts a line of the journal, as `claim W N`, with a line feed behind it: what the worker of that number
/// did with a layer. Takes no memory. Where the console fails it has got a front of the line.
pub fn put_step<S: Sink>(console: &mut S, step: Step, worker: u32, layer: u32) -> Result<(), Failed>
    ensures ok { OnOk result (Put (S.output console.old) (step_line step worker layer) (S.output console.new)) }
    ensures err { OnErr result (PutFront (S.output console.old) (step_line step worker layer) (S.output console.new)) }
{
    puts_add_up();
    put_numbers(
        console,
        step_text(step),
        worker as u128,
        b" ",
        layer as u128,
    )?;
    put_all(console, b"\n")
}

/// What is told of a job that was generated and sliced.
#[derive(Clone, Copy, PartialEq, Eq, Debug)]
pub struct Generated {
    /// The number that it was generated from.
    pub number: u32,
    /// The triangles of its meshes.
    pub triangles: u64,
    /// Its layers.
    pub layers: u32,
    /// How often the whole plan goes from one extruder to another, the first extruder counted.
    pub uses: u64,
    /// The preheats in its file.
    pub preheats: u64,
    /// The bytes of its file.
    pub bytes: u128,
}

// Its uses, preheats and bytes, and a line feed.
fn put_file<S: Sink>(console: &mut S, job: Generated) -> Result<(), Failed>
    ensures ok { OnOk result (Put (S.output console.old) (file_text job) (S.output console.new)) }
    ensures err { OnErr result (PutFront (S.output console.old) (file_text job) (S.output console.new)) }
{
    puts_add_up();
    put_numbers(
        console,
        b", preheats ",
        job.preheats as u128,
        b", bytes ",
        job.bytes,
    )?;
    put_all(console, b"\n")
}

// Its layers, and what follows.
fn put_plan<S: Sink>(console: &mut S, job: Generated) -> Result<(), Failed>
    ensures ok { OnOk result (Put (S.output console.old) (plan_text job) (S.output console.new)) }
    ensures err { OnErr result (PutFront (S.output console.old) (plan_text job) (S.output console.new)) }
{
    puts_add_up();
    put_numbers(
        console,
        b", layers ",
        job.layers as u128,
        b", uses ",
        job.uses as u128,
    )?;
    put_file(console, job)
}

/// Puts the line of a job that was generated and sliced, `gen N: triangles T, layers L, uses U,
/// preheats P, bytes B`, with a line feed behind it. Takes no memory. Where the console fails it has got a
/// front of the line.
pub fn put_generated<S: Sink>(console: &mut S, job: Generated) -> Result<(), Failed>
    ensures ok { OnOk result (Put (S.output console.old) (generated_line job) (S.output console.new)) }
    ensures err { OnErr result (PutFront (S.output console.old) (generated_line job) (S.output console.new)) }
{
    puts_add_up();
    put_numbers(
        console,
        b"gen ",
        job.number as u128,
        b": triangles ",
        job.triangles as u128,
    )?;
    put_plan(console, job)
}
