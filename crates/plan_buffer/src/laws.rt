// Laws of the definitions. A caller calls these for what its proof cites; when they run they do nothing.

ghost use Rattle.std.specs.Prelude.{◌≡◌, ◌+◌, ◌++◌, ℕ, List, length, take, Option};
ghost use Rattle.slice_base.specs.Shapes.{Bytes};
ghost use Rattle.outside.specs.Holding.{GainedFront};
ghost use Rattle.plan_types.specs.Jobs.{JobValue};
ghost use Rattle.plan_types.specs.Plans.{LayerPlanValue};
ghost use Rattle.gcode_write.specs.Ends.{footer_of};
ghost use Rattle.plan_buffer.specs.File.{file_of, text_of, text_up_to, written_of};

use preheat_plan::{rests_on_a_window, windows_follow};

/// Two lists of plans that agree on all layers below n + w + 1, w being the window, have the same text of layer
/// n; and what is written once k plans were accepted rests on these k alone.
pub fn texts_rest_on_plans()
    ensures text { (job : JobValue) (n : ℕ) (xs ys : List LayerPlanValue)
        → take (n + job.settings.preheat_window_layers + 1) xs ≡ take (n + job.settings.preheat_window_layers + 1) ys
        → text_of job xs n ≡ text_of job ys n }
    ensures written { (job : JobValue) (k : ℕ) (plans : List LayerPlanValue)
        → written_of job plans k ≡ written_of job (take k plans) k }
{
    rests_on_a_window();
}

/// What is written once k plans were accepted is a front of the whole file, whatever plans follow; so a front of
/// the one is a front of the other.
pub fn writes_a_front()
    ensures whole { (job : JobValue) (k : ℕ) (plans : List LayerPlanValue) → (rest : Bytes)
        × (written_of job (take k plans) k ++ rest ≡ file_of job plans) }
    ensures front { (job : JobValue) (k : ℕ) (plans : List LayerPlanValue) (before now : Option Bytes)
        → GainedFront before (written_of job (take k plans) k) now → GainedFront before (file_of job plans) now }
{
    rests_on_a_window();
}

/// The text up to some layer, with the text of that layer behind it, is the text up to the next; that of all
/// layers, with the footer behind it, is the file.
pub fn texts_add_up()
    ensures next { (job : JobValue) (plans : List LayerPlanValue) (n : ℕ) →
        text_up_to job plans n ++ text_of job plans n ≡ text_up_to job plans (n + 1) }
    ensures whole { (job : JobValue) (plans : List LayerPlanValue) →
        text_up_to job plans (length plans) ++ footer_of job ≡ file_of job plans }
{
    windows_follow();
}
