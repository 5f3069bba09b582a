// The number of print moves of a plan, as far as it is below the limit.

ghost use Rattle.std.specs.Prelude.{◌≡◌, ◌+◌, ◌≤◌, ◌^◌, min};
ghost use Rattle.std.specs.List.{sum_by};
ghost use Rattle.plan_types.specs.Plans.{moves_of, moves_in};

use plan_types::{ExtruderPlan, Path};

/// The most print moves of a layer plan, and one more: 2^40. No memory holds a plan of so many.
pub(crate) const MOVES: u64 = 0x100_0000_0000;

fn add_up(total: u64, more: u64) -> u64
    requires { total ≤ 2 ^ 40 }
    ensures { result ≡ min (total + more) (2 ^ 40) }
{
    total.saturating_add(more).min(MOVES)
}

fn moves_of(path: &Path) -> u64
    ensures { result ≡ moves_of path.now }
{
    (path.points.points().len() as u64).saturating_sub(1)
}

fn count_paths(total: u64, paths: &[Path]) -> u64
    requires { total ≤ 2 ^ 40 }
    ensures { result ≡ min (total + sum_by moves_of paths.now) (2 ^ 40) }
{
    let mut count = total;
    for path in paths {
        count = add_up(count, moves_of(path));
    }
    count
}

/// The number of print moves of all extruders, or the limit, where they reach it.
pub(crate) fn count_moves(plans: &[ExtruderPlan]) -> u64
    ensures { result ≡ min (moves_in plans.now) (2 ^ 40) }
{
    let mut count = 0;
    for plan in plans {
        count = count_paths(count, plan.paths.items());
    }
    count
}
