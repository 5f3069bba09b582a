// What told files define. The function does nothing: its clause is the law.

ghost use Rattle.std.specs.Prelude.{◌≡◌, ℕ, List, Some, Result};
ghost use Rattle.outside.specs.Files.{Files};
ghost use Rattle.cli_words.specs.declared.command.Item.{Item};
ghost use Rattle.plate_input.specs.declared.faults.PlateFault.{PlateFault};
ghost use Rattle.plate_input.specs.declared.plates.Plate.{Plate};
ghost use Rattle.settings_core.specs.declared.pairs.Pair.{Pair};
ghost use Rattle.plate_input.specs.Plate.{PlateGives, MakesPlate};

use stl_text::one_reading;

/// Items and told files define one answer at most: one plate, or one refusal, and not both.
pub fn one_plate()
    ensures { (items : List Item) (files : Files) (a b : Result Plate PlateFault)
        → PlateGives items (Some files) a → PlateGives items (Some files) b → a ≡ b }
{
    one_reading();
}

/// Pairs, the extruders given with the meshes, and the meshes' files define one answer at most.
pub fn one_made()
    ensures { (pairs : List Pair) (extruders : List ℕ) (files : List (List ℕ)) (a b : Result Plate PlateFault)
        → MakesPlate pairs extruders files a → MakesPlate pairs extruders files b → a ≡ b }
{
    one_reading();
}
