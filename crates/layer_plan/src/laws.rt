// Laws of the definitions, for callers that have a plan by its definition alone. The calls do nothing.

ghost use Rattle.std.specs.Prelude.{◌≡◌, ◌<◌, ℕ, [], length};
ghost use Rattle.std.specs.List.{All};
ghost use Rattle.plan_types.specs.Plans.{EachOnce};
ghost use Rattle.plan_types.specs.Jobs.{JobValue, IsJob, Names};
ghost use Rattle.layer_plan.specs.Plan.{plan_of};

/// The plan of a layer of any job names extruders that are there, each once, and has no preheat.
pub fn plans_keep_to_their_job()
    ensures known { (job : JobValue) (n : ℕ) → IsJob job.settings job.layers job.skirt job.first job.used →
        n < length job.layers → All (Names job.settings) (plan_of job n).plans }
    ensures once { (job : JobValue) (n : ℕ) → IsJob job.settings job.layers job.skirt job.first job.used →
        n < length job.layers → EachOnce (plan_of job n).plans }
    ensures empty { (job : JobValue) (n : ℕ) → (plan_of job n).inserts ≡ [] }
{}
