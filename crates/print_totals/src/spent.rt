// Plans added up one after another.

ghost use Rattle.std.specs.Prelude.{ℕ, ◌≡◌, ◌+◌, ◌*◌, ◌<◌, ◌≤◌, ◌^◌, ◌++◌, ◌∷◌, [], List, length, slice_index};
ghost use Rattle.std.specs.Int.RustNames.{unsigned_abs};
ghost use Rattle.std.specs.List.{All};
ghost use Rattle.plan_types.specs.Jobs.{JobValue, Names};
ghost use Rattle.plan_types.specs.Plans.{LayerPlanValue};
ghost use Rattle.gcode_write.specs.Filament.{extruded_of};
ghost use Rattle.print_totals.specs.Totals.{filament_for, filaments_of, time_of};
ghost use Rattle.print_totals.specs.Spending.{HasSpent, amounts_of};
ghost use Rattle.print_totals.specs.Inner.Sound.{plus_each};

use crate::amounts::Amounts;
use gcode_write::extruded;
use plan_types::{Job, LayerPlan};
use preheat_plan::{end_of_plans, lead};
use settings_core::ExtruderSettings;
use slice_base::Pt;
use std::marker::Model;

// ---- sums of eight

fn plus(a: &[u128; 8], b: &[u128; 8], e: usize) -> u128
    requires e { e < 8 }
    requires a { All (λ v. v ≤ 40000 * 2 ^ 90) a.now }
    requires b { All (λ v. v ≤ 2 ^ 90) b.now }
    ensures { result ≡ slice_index a.now e + slice_index b.now e }
{
    a[e] + b[e]
}

fn plus_each(a: &[u128; 8], b: &[u128; 8]) -> [u128; 8]
    requires a { All (λ v. v ≤ 40000 * 2 ^ 90) a.now }
    requires b { All (λ v. v ≤ 2 ^ 90) b.now }
    ensures { result ≡ plus_each a.now b.now }
{
    [
        plus(a, b, 0),
        plus(a, b, 1),
        plus(a, b, 2),
        plus(a, b, 3),
        plus(a, b, 4),
        plus(a, b, 5),
        plus(a, b, 6),
        plus(a, b, 7),
    ]
}

// ---- filament

// The filament for a volume at a flow of 100 percent.
fn flowing(x: &ExtruderSettings, volume: u128) -> u128
    requires { volume ≤ 40000 * 2 ^ 90 }
    ensures { result ≡ unsigned_abs (extruded_of x.now (volume * x.now.material_flow)) }
{
    let flow = u128::from(x.material_flow);
    extruded(x, volume * flow).unsigned_abs()
}

fn filament_for(job: &Job, e: u8, volume: u128) -> u128
    requires { volume ≤ 40000 * 2 ^ 90 }
    ensures { result ≡ filament_for job.now e volume }
{
    let settings = &job.settings;
    let extruders = settings.extruders.items();
    if usize::from(e) < extruders.len() {
        flowing(&extruders[usize::from(e)], volume)
    } else {
        0
    }
}

/// The sums of the plans of a print's first layers: their time, and the volume of each extruder.
#[derive(Drop)]
pub struct Spent {
    plans: u32,
    end: Pt,
    time: u128,
    volumes: [u128; 8],
}

impl Model for Spent {
    ghost use Rattle.print_totals.specs.Spending.{SpentValue};
    ghost use Rattle.print_totals.specs.Inner.Sound.{AreSums};

    ghost Value = { SpentValue };

    ghost view = { λ a. record { plans = a.plans; end = a.end; time = a.time; volumes = a.volumes } };

    ghost invariant = { λ a. AreSums a.plans a.end a.time a.volumes };
}

impl Spent {
    /// The sums of no plan.
    pub fn new() -> Spent
        ensures { (job : JobValue) → HasSpent job [] result }
    {
        Spent {
            plans: 0,
            end: Pt { x: 0, y: 0 },
            time: 0,
            volumes: [0; 8],
        }
    }

    /// Adds the plan of the next layer, whose paths take these amounts. Every extruder that the plan names is there;
    /// fewer than 40,000 plans were added before.
    pub fn add(&mut self, job: &Job, layer: &LayerPlan, amounts: Amounts)
        requires known { All (Names job.now.settings) layer.now.plans }
        requires amounts { amounts ≡ amounts_of layer.now }
        requires room { self.old.plans < 40000 }
        ensures { (ls : List LayerPlanValue) → HasSpent job.now ls self.old
            → HasSpent job.now (ls ++ layer.now ∷ []) self.new }
    {
        let plans = layer.plans.items();
        let lead = lead(job, self.end, plans);
        self.end = end_of_plans(self.end, plans);
        self.time += u128::from(lead) + amounts.time;
        self.volumes = plus_each(&self.volumes, &amounts.volumes);
        self.plans += 1;
    }

    /// The estimated time of the print, µs.
    pub fn time(&self) -> u128
        ensures { (job : JobValue) (ls : List LayerPlanValue) → HasSpent job ls self.now → result ≡ time_of job ls }
    {
        self.time
    }

    fn volume(&self, e: usize) -> u128
        requires { e < 8 }
        ensures exact { result ≡ slice_index self.now.volumes e }
        ensures small { result ≤ 40000 * 2 ^ 90 }
    {
        self.volumes[e]
    }

    /// The filament of each extruder, by number, in hundred-thousandths of a millimetre; 0 of one that the job doesn't
    /// have.
    pub fn filaments(&self, job: &Job) -> [u128; 8]
        ensures { (ls : List LayerPlanValue) → HasSpent job.now ls self.now → result ≡ filaments_of job.now ls }
    {
        [
            filament_for(job, 0, self.volume(0)),
            filament_for(job, 1, self.volume(1)),
            filament_for(job, 2, self.volume(2)),
            filament_for(job, 3, self.volume(3)),
            filament_for(job, 4, self.volume(4)),
            filament_for(job, 5, self.volume(5)),
            filament_for(job, 6, self.volume(6)),
            filament_for(job, 7, self.volume(7)),
        ]
    }
}
