// The plan of a layer: its paths, extruder by extruder.

use crate::inserts::Inserts;
use slice_base::{Items, Loop};
use std::alloc::Global;
use std::default::MadeWith;
use std::marker::Model;

/// What a path is part of.
#[derive(Clone, Copy, PartialEq, Eq, Debug)]
pub enum Kind {
    /// The outermost wall.
    WallOuter,
    /// A wall further inside.
    WallInner,
    /// The solid top or bottom of the print.
    Skin,
    /// The fill inside.
    Fill,
    /// A line round the whole print, on layer 0.
    Skirt,
    /// What holds up an overhang.
    Support,
}

/// A line that is printed without a stop, and the travel to its first point. It has 2 to 200,000 points,
/// each within 1.7 m of the origin, and a speed of 1 to 1,000,000 µm/s.
#[derive(Drop)]
pub struct Path {
    pub kind: Kind,
    /// The line's width, µm.
    pub width: i32,
    /// The line's height, µm.
    pub thickness: i32,
    /// The speed of its print moves, µm/s.
    pub speed: u32,
    /// The points in the order of printing; those of a loop end with its start again.
    pub points: Loop,
    /// Whether filament is pulled back during the travel.
    pub retract: bool,
    /// The estimated time, µs, with the travel, but for a layer's first path, whose travel is the plan's lead.
    pub time: u64,
    /// The time from the layer's first path to this one, µs: the lead and the times of the paths before it;
    /// 0 for the first.
    pub before: u128,
}

impl Model for Path {
    ghost use Rattle.plan_types.specs.Paths.{PathValue, IsPath};

    ghost Value = { PathValue };

    ghost view = { λ a. record { kind = a.kind; width = a.width; thickness = a.thickness; speed = a.speed; points = a.points; retract = a.retract; time = a.time; before = a.before } };

    ghost invariant = { λ a. IsPath a.speed a.points };
}

/// The paths that one extruder prints on a layer, in order.
#[derive(Drop)]
pub struct ExtruderPlan {
    pub extruder: u8,
    pub paths: Items<Path>,
}

/// The plan of a layer. It has fewer than 2^40 print moves; at a flow of 100 percent they print at most 2^90 µm³,
/// and the times of its paths add up to at most 2^83 µs.
#[derive(Drop)]
pub struct LayerPlan {
    /// The layer's number, from 0.
    pub number: u32,
    /// The height of the layer's upper side over the bed, µm.
    pub z: i32,
    /// The layer's height, µm.
    pub thickness: i32,
    /// The power of the fan, 0 to 255.
    pub fan: u8,
    /// The time of the travel from the end of the layer before to the first path, µs.
    pub lead: u64,
    /// The paths of each extruder, in the order of printing.
    pub plans: Items<ExtruderPlan>,
    /// The preheats that stand in this layer.
    pub inserts: Inserts,
}

impl Model for LayerPlan {
    ghost use Rattle.plan_types.specs.Plans.{LayerPlanValue, IsPlan};

    ghost Value = { LayerPlanValue };

    ghost view = { λ a. record { number = a.number; z = a.z; thickness = a.thickness; fan = a.fan; lead = a.lead; plans = a.plans; inserts = a.inserts } };

    ghost invariant = { λ a. IsPlan a.plans };
}

// An empty plan, for the unused places of a store of plans. Takes no memory.
impl MadeWith<Global> for LayerPlan {
    fn made_with(alloc: Global) -> Self {
        LayerPlan {
            number: 0,
            z: 0,
            thickness: 0,
            fan: 0,
            lead: 0,
            plans: Items::new(alloc),
            inserts: Inserts::new(),
        }
    }
}
