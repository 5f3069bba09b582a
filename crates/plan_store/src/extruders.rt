// The extruders of a job.

ghost use Rattle.std.specs.Prelude.{◌≡◌, ◌≤◌, length};

use plan_types::Job;

// How many extruders the printer has.
pub(crate) fn extruder_count(job: &Job) -> u32
    ensures exact { result ≡ length job.now.settings.extruders }
    ensures few { result ≤ 8 }
{
    let settings = &job.settings;
    let _extruders = &settings.extruders;
    settings.machine_extruder_count
}
