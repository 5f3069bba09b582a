// What is told of a job as a whole.

ghost use Rattle.std.specs.Prelude.{◌≡◌};
ghost use Rattle.print_totals.specs.Spending.{HasSpent};
ghost use Rattle.slice_engine.specs.Files.{plans_of};
ghost use Rattle.slice_engine.specs.Totals.{has_loop, has_loops, has_areas, are_bare, with_bare, with_bare_layers, job_time, job_filaments, totals_of, unplanned_totals, no_totals};

use plan_types::{Job, LayerAreas, MeshAreas};
use print_totals::Spent;
use slice_base::Region;

/// What is told of a job as a whole; all is 0 where there was none.
#[derive(Clone, Copy, PartialEq, Eq, Debug)]
pub struct Totals {
    /// Its layers.
    pub layers: u32,
    /// The outlines that stayed open and were left out, of all meshes and layers.
    pub open_outlines: u64,
    /// The layers on which no mesh has a wall, skin or fill, so that nothing of it is printed.
    pub bare_layers: u64,
    /// The estimated time of the print, µs; 0 where nothing was planned.
    pub time: u128,
    /// The filament of each extruder, by number, in hundred-thousandths of a millimetre; 0 of one that the job doesn't
    /// have, and where nothing was planned.
    pub filaments: [u128; 8],
}

/// The totals where there was no job.
pub(crate) fn no_totals() -> Totals
    ensures { result ≡ no_totals }
{
    Totals {
        layers: 0,
        open_outlines: 0,
        bare_layers: 0,
        time: 0,
        filaments: [0; 8],
    }
}

fn has_loop(region: &Region) -> bool
    ensures { result ≡ has_loop region.now }
{
    !region.loops().is_empty()
}

fn has_loops(regions: &[Region]) -> bool
    ensures { result ≡ has_loops regions.now }
{
    for region in regions {
        if has_loop(region) {
            return true;
        }
    }
    false
}

fn has_areas(mesh: &MeshAreas) -> bool
    ensures { result ≡ has_areas mesh.now }
{
    has_loops(mesh.walls.items()) || has_loop(&mesh.skin) || has_loop(&mesh.fill)
}

fn are_bare(meshes: &[MeshAreas]) -> bool
    ensures { result ≡ are_bare meshes.now }
{
    for mesh in meshes {
        if has_areas(mesh) {
            return false;
        }
    }
    true
}

fn with_bare(n: u64, layer: &LayerAreas) -> u64
    ensures { result ≡ with_bare n layer.now }
{
    if are_bare(layer.meshes.items()) {
        n.saturating_add(1)
    } else {
        n
    }
}

fn with_bare_layers(n: u64, layers: &[LayerAreas]) -> u64
    ensures { result ≡ with_bare_layers n layers.now }
{
    let mut so_far = n;
    'layers: for layer in layers {
        so_far = with_bare(so_far, layer);
    }
    so_far
}

/// The totals of a job of which nothing was planned.
pub(crate) fn unplanned_totals(job: &Job) -> Totals
    ensures { result ≡ unplanned_totals job.now }
{
    Totals {
        layers: job.layers.len() as u32,
        open_outlines: job.open_outlines,
        bare_layers: with_bare_layers(0, job.layers.items()),
        time: 0,
        filaments: [0; 8],
    }
}

fn job_time(job: &Job, spent: &Spent) -> u128
    requires { HasSpent job.now (plans_of job.now) spent.now }
    ensures { result ≡ job_time job.now }
{
    spent.time()
}

fn job_filaments(job: &Job, spent: &Spent) -> [u128; 8]
    requires { HasSpent job.now (plans_of job.now) spent.now }
    ensures { result ≡ job_filaments job.now }
{
    spent.filaments(job)
}

/// The totals of a job, of whose plans these are the sums.
pub(crate) fn totals_of(job: &Job, spent: &Spent) -> Totals
    requires { HasSpent job.now (plans_of job.now) spent.now }
    ensures { result ≡ totals_of job.now }
{
    Totals {
        time: job_time(job, spent),
        filaments: job_filaments(job, spent),
        ..unplanned_totals(job)
    }
}
