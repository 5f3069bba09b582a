// Laws of the definitions. A caller calls these for what its proof cites; when they run they do nothing.

ghost use Rattle.std.specs.Prelude.{◌≡◌, ◌<◌, List, length};
ghost use Rattle.std.specs.Int.RustNames.{unsigned_abs};
ghost use Rattle.plan_types.specs.Extruders.{extruder_of};
ghost use Rattle.plan_types.specs.Jobs.{JobValue};
ghost use Rattle.plan_types.specs.Plans.{LayerPlanValue};
ghost use Rattle.gcode_write.specs.Filament.{extruded_of};
ghost use Rattle.gcode_write.specs.Layers.{after_layers};
ghost use Rattle.gcode_write.specs.Ends.{start_of};
ghost use Rattle.preheat_plan.specs.Past.{rules_of};
ghost use Rattle.preheat_plan.specs.Completed.{completed_of};
ghost use Rattle.print_totals.specs.Totals.{time_of, filament_of};
ghost use Rattle.print_totals.specs.Told.{IsAllOf};

/// The time of a print is the one that its file tells behind the last layer.
pub fn times_are_told()
    ensures { (job : JobValue) (ls : List LayerPlanValue)
        → (after_layers job.settings.extruders (start_of job) (completed_of (rules_of job) ls)).elapsed
        ≡ time_of job ls }
{}

/// Where one extruder prints all, its filament is where E stands behind the last layer.
pub fn filament_is_told()
    ensures { (job : JobValue) (ls : List LayerPlanValue) → job.first < length job.settings.extruders
        → IsAllOf job.first ls → filament_of job ls job.first
        ≡ unsigned_abs (extruded_of (extruder_of job.settings.extruders job.first)
        (after_layers job.settings.extruders (start_of job) (completed_of (rules_of job) ls)).volume) }
{}
