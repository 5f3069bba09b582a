// Laws of the definitions. A caller calls these for what its proof cites; when they run they do nothing.

ghost use Rattle.std.specs.Prelude.{◌≡◌, ◌+◌, ◌≤◌, ◌<◌, ◌==◌, ℕ, true, false, List, [], ◌∷◌, ◌++◌, length, take};
ghost use Rattle.std.specs.List.{All, count_by, filter, sum_by};
ghost use Rattle.plan_types.specs.declared.plans.ExtruderPlan.{ExtruderPlan};
ghost use Rattle.plan_types.specs.Plans.{LayerPlanValue, EachOnce};
ghost use Rattle.plan_types.specs.Steps.{Step, path_count_of, path_counts_of};
ghost use Rattle.preheat_plan.specs.Past.{Rules};
ghost use Rattle.preheat_plan.specs.Completed.{inserts_at, completed_of, IsFresh};
ghost use Rattle.preheat_plan.specs.Follows.{WindowLaws};
ghost use Rattle.preheat_plan.specs.Switches.{steps_of, preheats_in, is_switch, is_for, HasOnePreheat};

/// What is written of the first n layers rests on the first n + window plans alone.
pub fn rests_on_a_window()
    ensures { (r : Rules) (n : ℕ) (xs ys : List LayerPlanValue) → take (n + r.window) xs ≡ take (n + r.window) ys
        → take n (completed_of r xs) ≡ take n (completed_of r ys) }
{}

/// Each switch of the whole plan has exactly one preheat: at the latest boundary of its window from which the
/// times up to the switch add up to what its extruder needs there, else at the window's front. No other path
/// has one. In the completed plans each preheat stands once: in the plan of the layer at whose boundary it is.
pub fn each_switch_is_preheated()
    ensures switch { (r : Rules) (plans : List LayerPlanValue) (past rest : List Step) (s : Step)
        → steps_of r plans ≡ past ++ s ∷ rest → is_switch r past s ≡ true
        → HasOnePreheat r (preheats_in r plans) past s }
    ensures other { (r : Rules) (plans : List LayerPlanValue) (past rest : List Step) (s : Step)
        → steps_of r plans ≡ past ++ s ∷ rest → is_switch r past s ≡ false
        → filter (is_for (length past)) (preheats_in r plans) ≡ [] }
    ensures all { (r : Rules) (plans : List LayerPlanValue) → sum_by
        (λ l. length l.inserts) (completed_of r plans) ≡ length (preheats_in r plans) }
    ensures stands { (r : Rules) (plans below above : List LayerPlanValue) (l : LayerPlanValue)
        → completed_of r plans ≡ below ++ l ∷ above → l.inserts
        ≡ inserts_at r.degrees (path_counts_of below) (path_count_of l) (preheats_in r plans) }
{}

/// In no plan are there more than two preheats of an extruder, nor more than sixteen, whatever the window.
pub fn few_preheats()
    ensures two { (r : Rules) (ls : List LayerPlanValue) → All IsFresh ls
        → All (λ l. (e : ℕ) → count_by (λ i. i.extruder == e) l.inserts ≤ 2) (completed_of r ls) }
    ensures sixteen { (r : Rules) (ls : List LayerPlanValue) → All IsFresh ls
        → All (λ l. length l.inserts ≤ 16) (completed_of r ls) }
{}

/// A layer has at most eight extruders.
pub fn eight_at_most()
    ensures { (plans : List ExtruderPlan) → All (λ x. x.extruder < 8) plans → EachOnce plans → length plans ≤ 8 }
{}

/// A window that takes plans one after another, and lets the oldest go, follows the completed plans.
pub fn windows_follow()
    ensures { WindowLaws }
{}
