// Angles: how far across its lines a point lies, and how far along them.

ghost use Rattle.std.specs.Prelude.{◌≡◌, ◌+◌, ◌*◌, ◌≤◌, ◌<◌, ◌+ℤ◌, ◌-ℤ◌};
ghost use Rattle.std.specs.Int.RustNames.{unsigned_abs};
ghost use Rattle.slice_base.specs.Plane.{InSquare};
ghost use Rattle.infill_lines.specs.Angles.{place_of, half, point_of, step_of};
ghost use Rattle.infill_lines.specs.Inner.Places.{IsPlace};

use slice_base::{Pt, round_nat};

/// The angle of the lines that fill a region, in degrees.
#[derive(Clone, Copy, PartialEq, Eq, Debug)]
pub enum Angle {
    A0,
    A45,
    A90,
    A135,
}

/// How far across the lines of an angle a point lies, and how far along them.
#[derive(Clone, Copy)]
pub(crate) struct Place {
    pub(crate) across: i32,
    pub(crate) along: i32,
}

fn upright(p: Pt) -> Place
    requires { InSquare 1700000 p }
    ensures exact { result ≡ record { across = p.x -ℤ p.y; along = p.x +ℤ p.y } }
    ensures small { IsPlace 3400000 result }
{
    Place {
        across: p.x - p.y,
        along: p.x + p.y,
    }
}

fn leaning(p: Pt) -> Place
    requires { InSquare 1700000 p }
    ensures exact { result ≡ record { across = p.x +ℤ p.y; along = p.x -ℤ p.y } }
    ensures small { IsPlace 3400000 result }
{
    Place {
        across: p.x + p.y,
        along: p.x - p.y,
    }
}

pub(crate) fn place_of(angle: Angle, p: Pt) -> Place
    requires { InSquare 1700000 p }
    ensures exact { result ≡ place_of angle p }
    ensures small { IsPlace 3400000 result }
{
    match angle {
        Angle::A0 => Place {
            across: p.y,
            along: p.x,
        },
        Angle::A90 => Place {
            across: p.x,
            along: p.y,
        },
        Angle::A45 => upright(p),
        Angle::A135 => leaning(p),
    }
}

// Half of the sum, rounded down.
fn middle(at: Place) -> i32
    requires { IsPlace 3400000 at }
    ensures exact { result ≡ half (at.across +ℤ at.along) }
    ensures small { unsigned_abs result ≤ 3400000 }
{
    (i64::from(at.across) + i64::from(at.along)).div_euclid(2) as i32
}

fn behind(at: Place) -> Pt
    requires { IsPlace 3400000 at }
    ensures { result ≡ record { x = half (at.across +ℤ at.along); y = half (at.across +ℤ at.along) -ℤ at.across } }
{
    let x = middle(at);
    Pt {
        x,
        y: x - at.across,
    }
}

fn before(at: Place) -> Pt
    requires { IsPlace 3400000 at }
    ensures { result ≡ record { x = half (at.across +ℤ at.along); y = at.across -ℤ half (at.across +ℤ at.along) } }
{
    let x = middle(at);
    Pt {
        x,
        y: at.across - x,
    }
}

pub(crate) fn point_of(angle: Angle, at: Place) -> Pt
    requires { IsPlace 3400000 at }
    ensures { result ≡ point_of angle at }
{
    match angle {
        Angle::A0 => Pt {
            x: at.along,
            y: at.across,
        },
        Angle::A90 => Pt {
            x: at.across,
            y: at.along,
        },
        Angle::A45 => behind(at),
        Angle::A135 => before(at),
    }
}

pub(crate) fn step_of(angle: Angle, step: u64) -> u64
    requires from { 50 ≤ step }
    requires to { step ≤ 100000 }
    ensures exact { result ≡ step_of angle step }
    ensures from { step ≤ result }
    ensures to { result ≤ 200000 }
{
    match angle {
        Angle::A0 | Angle::A90 => step,
        Angle::A45 | Angle::A135 => round_nat(step * 99, 70),
    }
}
