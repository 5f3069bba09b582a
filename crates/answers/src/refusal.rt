// The refusals, in the order in which they are tested, and their statuses.

ghost use Rattle.std.specs.Prelude.{◌≡◌};
ghost use Rattle.answers.specs.Statuses.{status_of};

use mesh_placing::Excess;
use settings_core::Scope;
use slice_base::{NoMemory, Text};

/// Why a job wasn't done. Meshes, triangles and layers count from 0,
/// words and lines from 1. The first that
/// holds, in this order, is the answer. `ReadFault` and `TooLong` share a place, file by file;
/// `BadValue` and `OutOfRange` share one, pair by pair; those of a mesh are tested mesh by mesh.
#[derive(Drop)]
pub enum Refusal {
    /// That word is the first at fault.
    BadWord {
        index: u64,
    },
    /// There is no mesh.
    NoInput,
    /// There is no file to write.
    NoOutput,
    /// Reading that file failed.
    ReadFault {
        name: Text,
    },
    /// That file has over 268,435,456 bytes.
    TooLong {
        name: Text,
    },
    /// That file isn't a settings file.
    NotJson {
        name: Text,
    },
    /// The first pair at fault has no value of its setting.
    BadValue {
        scope: Scope,
        key: Text,
    },
    /// The first pair at fault has a value outside its setting's range.
    OutOfRange {
        scope: Scope,
        key: Text,
    },
    /// That mesh is the first whose extruder the printer doesn't have.
    UnknownExtruder {
        mesh: u8,
    },
    /// That line of the mesh's file is the first at fault.
    BadStl {
        mesh: u8,
        line: u32,
    },
    /// The mesh has that many facets, over 1,000,000.
    TooManyTriangles {
        mesh: u8,
        count: u32,
    },
    /// The mesh has no triangle.
    NoTriangles {
        mesh: u8,
    },
    /// That triangle is the first with a corner outside the build volume, and so far the mesh reaches out.
    OutsideVolume {
        mesh: u8,
        triangle: u32,
        excess: Excess,
    },
    /// No mesh reaches above the middle of the first layer.
    NoLayers,
    /// There are that many layers, over 40,000.
    TooManyLayers {
        count: u32,
    },
    /// In that layer of the mesh cutting gave that many edges, over 100,000.
    TooTangled {
        mesh: u8,
        layer: u32,
        count: u64,
    },
    /// There was no memory.
    NoMemory,
    /// The output failed.
    WriteFault,
    /// The job was done, and then the console failed.
    ConsoleFault,
}

impl From<NoMemory> for Refusal {
    ghost use Rattle.answers.specs.declared.refusal.Refusal.TheVariants.{NoMemory as out_of_memory};

    ghost from_gives = { λ _ e. e ≡ out_of_memory };

    fn from(_: NoMemory) -> Self {
        Refusal::NoMemory
    }
}

/// The status of a run: 0 done, 1 words, 2 settings, 3 content of a file or mesh, 4 reading, 5 writing,
/// 6 memory, 7 console.
pub fn status(refusal: &Option<Refusal>) -> u8
    ensures { result ≡ status_of refusal.now }
{
    match refusal {
        None => 0,
        Some(Refusal::BadWord { .. } | Refusal::NoInput | Refusal::NoOutput) => 1,
        Some(
            Refusal::NotJson { .. }
            | Refusal::BadValue { .. }
            | Refusal::OutOfRange { .. }
            | Refusal::UnknownExtruder { .. },
        ) => 2,
        Some(
            Refusal::TooLong { .. }
            | Refusal::BadStl { .. }
            | Refusal::NoTriangles { .. }
            | Refusal::TooManyTriangles { .. }
            | Refusal::OutsideVolume { .. }
            | Refusal::NoLayers
            | Refusal::TooManyLayers { .. }
            | Refusal::TooTangled { .. },
        ) => 3,
        Some(Refusal::ReadFault { .. }) => 4,
        Some(Refusal::WriteFault) => 5,
        Some(Refusal::NoMemory) => 6,
        Some(Refusal::ConsoleFault) => 7,
    }
}
