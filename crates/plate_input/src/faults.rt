// Why a task gives no plate.

ghost use Rattle.std.specs.Prelude.{◌≡◌};

use answers::Refusal;
use mesh_placing::Excess;
use settings_core::Scope;
use slice_base::{NoMemory, Text};

/// Why a task gives no plate. Meshes and triangles count from 0, lines from 1. The first that holds, in
/// this order, is told. `ReadFault` and `TooLong` share a place, file by file; `BadValue` and `OutOfRange`
/// share one, pair by pair; the last four but for want of memory are tested mesh by mesh.
#[derive(Drop)]
pub enum PlateFault {
    /// Reading that file failed.
    ReadFault {
        name: Text,
    },
    /// That file has over 268,435,456 bytes.
    TooLong {
        name: Text,
    },
    /// That file isn't a settings file.
    NotJson {
        name: Text,
    },
    /// The first pair at fault has no value of its setting.
    BadValue {
        scope: Scope,
        key: Text,
    },
    /// The first pair at fault has a value outside its setting's range.
    OutOfRange {
        scope: Scope,
        key: Text,
    },
    /// That mesh is the first whose extruder the printer doesn't have.
    UnknownExtruder {
        mesh: u8,
    },
    /// That line of the mesh's file is the first at fault.
    BadStl {
        mesh: u8,
        line: u32,
    },
    /// The mesh has that many facets, over 1,000,000.
    TooManyTriangles {
        mesh: u8,
        count: u32,
    },
    /// The mesh has no triangle.
    NoTriangles {
        mesh: u8,
    },
    /// That triangle is the first with a corner outside the build volume, and so far the mesh reaches out.
    OutsideVolume {
        mesh: u8,
        triangle: u32,
        excess: Excess,
    },
    /// There was no memory.
    NoMemory,
}

impl From<NoMemory> for PlateFault {
    ghost use Rattle.plate_input.specs.declared.faults.PlateFault.TheVariants.{NoMemory as out_of_memory};

    ghost from_gives = { λ _ e. e ≡ out_of_memory };

    fn from(_: NoMemory) -> Self {
        PlateFault::NoMemory
    }
}

impl From<PlateFault> for Refusal {
    ghost use Rattle.plate_input.specs.Refusals.{refusal_of};

    ghost from_gives = { λ fault r. r ≡ refusal_of fault };

    fn from(fault: PlateFault) -> Self {
        match fault {
            PlateFault::ReadFault { name } => Refusal::ReadFault { name },
            PlateFault::TooLong { name } => Refusal::TooLong { name },
            PlateFault::NotJson { name } => Refusal::NotJson { name },
            PlateFault::BadValue { scope, key } => Refusal::BadValue { scope, key },
            PlateFault::OutOfRange { scope, key } => Refusal::OutOfRange { scope, key },
            PlateFault::UnknownExtruder { mesh } => Refusal::UnknownExtruder { mesh },
            PlateFault::BadStl { mesh, line } => Refusal::BadStl { mesh, line },
            PlateFault::TooManyTriangles { mesh, count } => {
                Refusal::TooManyTriangles { mesh, count }
            }
            PlateFault::NoTriangles { mesh } => Refusal::NoTriangles { mesh },
            PlateFault::OutsideVolume {
                mesh,
                triangle,
                excess,
            } => Refusal::OutsideVolume {
                mesh,
                triangle,
                excess,
            },
            PlateFault::NoMemory => Refusal::NoMemory,
        }
    }
}
