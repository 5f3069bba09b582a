// Why there are no areas.

ghost use Rattle.std.specs.Prelude.{◌≡◌};
ghost use Rattle.area_stage.specs.declared.faults.AreaFault.TheVariants.{NoMemory};
ghost use Rattle.area_stage.specs.Inner.Faults.{area_fault_of, named_result_of};

use edge_cut::CutFault;
use std::alloc::AllocError;

/// Why there are no areas.
#[derive(Clone, Copy, PartialEq, Eq, Debug)]
pub enum AreaFault {
    /// The meshes aren't higher than the middle of the first layer.
    NoLayers,
    /// There are that many layers, over 40,000.
    TooManyLayers { count: u32 },
    /// A cut of this mesh on this layer has too many edges, so many: the first such cut. Meshes and layers count
    /// from 0; one of the skirt has mesh 0 and layer 0.
    TooTangled { mesh: u8, layer: u32, count: u64 },
    /// There was no memory.
    NoMemory,
}

impl From<slice_base::NoMemory> for AreaFault {
    ghost from_gives = { λ _ e. e ≡ NoMemory };

    fn from(_: slice_base::NoMemory) -> Self {
        AreaFault::NoMemory
    }
}

impl From<AllocError> for AreaFault {
    ghost from_gives = { λ _ e. e ≡ NoMemory };

    fn from(_: AllocError) -> Self {
        AreaFault::NoMemory
    }
}

// The fault of a cut, named.
fn area_fault(fault: CutFault, mesh: u8, layer: u32) -> AreaFault
    ensures { result ≡ area_fault_of mesh layer fault }
{
    match fault {
        CutFault::TooTangled { count } => AreaFault::TooTangled { mesh, layer, count },
        CutFault::NoMemory => AreaFault::NoMemory,
    }
}

/// What a call answers, its fault named by mesh and layer.
pub(crate) fn named_result<T: Drop>(
    answer: Result<T, CutFault>,
    mesh: u8,
    layer: u32,
) -> Result<T, AreaFault>
    ensures { result ≡ named_result_of mesh layer answer }
{
    match answer {
        Ok(value) => Ok(value),
        Err(fault) => Err(area_fault(fault, mesh, layer)),
    }
}
