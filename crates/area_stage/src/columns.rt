// Walls taken apart: what lies inside them goes to its mesh, the walls themselves stay by layer.

ghost use Rattle.std.specs.Prelude.{◌≡◌, ◌++◌, ◌∷◌, [], map, length, IfOk};
ghost use Rattle.std.specs.List.{All};
ghost use Rattle.area_stage.specs.Jobs.{loops_of};
ghost use Rattle.area_stage.specs.Inner.Columns.{lengthened, lengthened_by, no_columns};

use crate::held::{Column, Inner, Walled, Walls};
use slice_base::{Items, NoMemory};
use std::alloc::Global;

/// The walls of one layer, and what lies inside the walls of each mesh on the layers so far.
#[derive(Drop)]
struct PartedLayer {
    columns: Items<Column>,
    walls: Items<Walls>,
}

/// The walls of all layers, and what lies inside the walls of each mesh on all layers.
#[derive(Drop)]
pub(crate) struct PartedJob {
    pub(crate) columns: Items<Column>,
    pub(crate) walls: Items<Items<Walls>>,
}

// So many meshes, without a layer.
fn no_columns(alloc: Global, count: usize) -> Result<Items<Column>, NoMemory>
    ensures { IfOk result (λ columns. columns ≡ no_columns count) }
{
    let mut columns = Items::new(alloc);
    for _ in 0..count {
        columns.push(Column {
            inners: Items::new(alloc),
        })?;
    }
    Ok(columns)
}

// What lies inside the walls of a mesh on one more layer, behind that on the layers before it.
fn with_inner(column: Column, inner: Inner) -> Result<Column, NoMemory>
    ensures { IfOk result (λ c. c ≡ column ++ inner ∷ []) }
{
    let mut inners = column.inners;
    inners.push(inner.area)?;
    Ok(Column { inners })
}

// The walls of a layer, taken apart.
fn parted(
    alloc: Global,
    columns: Items<Column>,
    sets: Items<Walled>,
) -> Result<PartedLayer, NoMemory>
    requires { length sets ≡ length columns }
    ensures columns { IfOk result (λ p. p.columns ≡ lengthened columns sets) }
    ensures walls { IfOk result (λ p. p.walls ≡ map loops_of sets) }
{
    let mut sets = sets.into_vec().into_iter();
    let mut longer = Items::new(alloc);
    let mut walls = Items::new(alloc);
    for column in columns.into_vec() {
        let Some(set) = sets.next() else {
            return Ok(PartedLayer {
                columns: longer,
                walls,
            });
        };
        longer.push(with_inner(column, set.inner)?)?;
        walls.push(set.walls)?;
    }
    Ok(PartedLayer {
        columns: longer,
        walls,
    })
}

/// The walls of all layers of so many meshes, taken apart.
pub(crate) fn all_parted(
    alloc: Global,
    count: usize,
    layers: Items<Items<Walled>>,
) -> Result<PartedJob, NoMemory>
    requires { All (λ sets. length sets ≡ count) layers }
    ensures columns { IfOk result (λ p. p.columns ≡ lengthened_by (no_columns count) layers) }
    ensures walls { IfOk result (λ p. p.walls ≡ map (map loops_of) layers) }
{
    let mut columns = no_columns(alloc, count)?;
    let mut walls = Items::new(alloc);
    for sets in layers.into_vec() {
        let next = parted(alloc, columns, sets)?;
        columns = next.columns;
        walls.push(next.walls)?;
    }
    Ok(PartedJob { columns, walls })
}
