// What is printed, as data: the areas of all layers of a job, and the plan of one layer. Contracts see each
// struct as the record of its fields, and what always holds of a value is the invariant of its type.
#![tactic(auto)]

mod inserts;
mod jobs;
mod orders;
mod plans;

pub use inserts::{Insert, Inserts};
pub use jobs::{Job, LayerAreas, MeshAreas};
pub use orders::{Order, extruder_order, has_bit, orders_have_each_once};
pub use plans::{ExtruderPlan, Kind, LayerPlan, Path};
