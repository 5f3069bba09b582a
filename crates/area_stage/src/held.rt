// Areas while a job is worked out. What always holds of them is the invariant of their types.

use slice_base::{Items, Region};
use std::marker::Model;

/// A cleaned outline.
#[derive(Drop)]
pub(crate) struct Outline {
    pub(crate) region: Region,
}

impl Model for Outline {
    ghost use Rattle.slice_base.specs.Shapes.{Loops};
    ghost use Rattle.area_stage.specs.Inner.Held.{IsOutline};

    ghost Value = { Loops };

    ghost view = { λ a. a.region };

    ghost invariant = { λ a. IsOutline a.region };
}

/// The walls of a mesh on a layer, without what lies inside them.
#[derive(Drop)]
pub(crate) struct Walls {
    pub(crate) loops: Items<Region>,
}

impl Model for Walls {
    ghost use Rattle.std.specs.Prelude.{List};
    ghost use Rattle.slice_base.specs.Shapes.{Loops};
    ghost use Rattle.area_stage.specs.Inner.Held.{AreWalls};

    ghost Value = { List Loops };

    ghost view = { λ a. a.loops };

    ghost invariant = { λ a. AreWalls a.loops };
}

/// What lies inside the walls of a mesh on a layer.
#[derive(Drop)]
pub(crate) struct Inner {
    pub(crate) area: Region,
}

impl Model for Inner {
    ghost use Rattle.slice_base.specs.Shapes.{Loops};
    ghost use Rattle.plan_types.specs.Areas.{IsArea};

    ghost Value = { Loops };

    ghost view = { λ a. a.area };

    ghost invariant = { λ a. IsArea a.area };
}

/// The walls of a mesh on a layer, and what lies inside them.
#[derive(Drop)]
pub(crate) struct Walled {
    pub(crate) walls: Walls,
    pub(crate) inner: Inner,
}

impl Model for Walled {
    ghost use Rattle.wall_skin.specs.declared.walling.WallSet.{WallSet};

    ghost Value = { WallSet };

    ghost view = { λ a. record { loops = a.walls; inner = a.inner } };
}

/// What lies inside the walls of a mesh on each layer.
#[derive(Drop)]
pub(crate) struct Column {
    pub(crate) inners: Items<Region>,
}

impl Model for Column {
    ghost use Rattle.std.specs.Prelude.{List};
    ghost use Rattle.std.specs.List.{All};
    ghost use Rattle.slice_base.specs.Shapes.{Loops};
    ghost use Rattle.plan_types.specs.Areas.{IsArea};

    ghost Value = { List Loops };

    ghost view = { λ a. a.inners };

    ghost invariant = { λ a. All IsArea a.inners };
}

/// Skin and fill of a mesh on a layer.
#[derive(Drop)]
pub(crate) struct Filled {
    pub(crate) skin: Region,
    pub(crate) fill: Region,
}

impl Model for Filled {
    ghost use Rattle.wall_skin.specs.declared.skins.Split.{Split};
    ghost use Rattle.area_stage.specs.Inner.Held.{AreParts};

    ghost Value = { Split };

    ghost view = { λ a. record { skin = a.skin; fill = a.fill } };

    ghost invariant = { λ a. AreParts a.skin a.fill };
}

/// The loops of a line of the skirt.
#[derive(Drop)]
pub(crate) struct Line {
    pub(crate) loops: Region,
}

impl Model for Line {
    ghost use Rattle.slice_base.specs.Shapes.{Loops};
    ghost use Rattle.area_stage.specs.Inner.Held.{AreLines};

    ghost Value = { Loops };

    ghost view = { λ a. a.loops };

    ghost invariant = { λ a. AreLines a.loops };
}
