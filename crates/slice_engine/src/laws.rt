// Laws of the definitions. A caller calls these for what its proof cites; when they run they do nothing.

ghost use Rattle.std.specs.Prelude.{◌≡◌, List, ℕ, Result, Some, length};
ghost use Rattle.slice_base.specs.Causes.{counted_by};
ghost use Rattle.outside.specs.Files.{Files};
ghost use Rattle.answers.specs.declared.refusal.Refusal.{Refusal};
ghost use Rattle.plan_types.specs.Jobs.{JobValue};
ghost use Rattle.preheat_plan.specs.Past.{rules_of};
ghost use Rattle.preheat_plan.specs.Switches.{preheats_in};
ghost use Rattle.slice_engine.specs.Done.{uses_of};
ghost use Rattle.slice_engine.specs.Files.{plans_of};
ghost use Rattle.slice_engine.specs.Jobs.{JobGives};

use area_stage::one_areas;
use plate_input::{one_made, one_plate};

/// Words and told files define one job, or one refusal, at most.
pub fn one_job()
    ensures { (words : List (List ℕ)) (files : Files) (a b : Result JobValue Refusal)
        → JobGives words (Some files) a → JobGives words (Some files) b → a ≡ b }
{
    one_plate();
    one_made();
    one_areas();
}

/// As many preheats stand in the file of a job as it has switches: those that are told of what a number draws.
pub fn switches_are_preheated()
    ensures { (job : JobValue) → (uses_of job).switches
        ≡ counted_by (length (preheats_in (rules_of job) (plans_of job))) 0 }
{}
