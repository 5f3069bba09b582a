// The reader's states in a text.

ghost use Rattle.std.specs.Prelude.{◌≡◌};
ghost use Rattle.stl_text.specs.Inner.Steps.{step_of, is_end};

use crate::lines::Line;
use slice_base::{Pt3, Tri};

/// Where the reader stands between two lines, with the corners of the facet so far.
#[derive(Clone, Copy)]
pub enum State {
    Outside,
    InSolid,
    LoopBegins,
    FirstVertex,
    SecondVertex(Pt3),
    ThirdVertex(Pt3, Pt3),
    LoopEnds(Tri),
    FacetEnds(Tri),
}

/// What a line does.
#[derive(Clone, Copy)]
pub enum Step {
    /// The reader goes to another state.
    To(State),
    /// A facet is whole, and the reader is in a solid.
    Whole(Tri),
    /// The line fits no case of its state.
    Bad,
}

/// Reads one line.
pub fn step_of(state: State, line: Line) -> Step
    ensures { result ≡ step_of state line }
{
    match (state, line) {
        (_, Line::Blank) => Step::To(state),
        (State::Outside, Line::Solid) => Step::To(State::InSolid),
        (State::InSolid, Line::Facet) => Step::To(State::LoopBegins),
        (State::InSolid, Line::EndSolid) => Step::To(State::Outside),
        (State::LoopBegins, Line::OuterLoop) => Step::To(State::FirstVertex),
        (State::FirstVertex, Line::Vertex(a)) => Step::To(State::SecondVertex(a)),
        (State::SecondVertex(a), Line::Vertex(b)) => Step::To(State::ThirdVertex(a, b)),
        (State::ThirdVertex(a, b), Line::Vertex(c)) => Step::To(State::LoopEnds(Tri { a, b, c })),
        (State::LoopEnds(facet), Line::EndLoop) => Step::To(State::FacetEnds(facet)),
        (State::FacetEnds(facet), Line::EndFacet) => Step::Whole(facet),
        _ => Step::Bad,
    }
}

/// Whether a text may end here.
pub fn is_end(state: State) -> bool
    ensures { result ≡ is_end state }
{
    matches!(state, State::Outside | State::InSolid)
}
