// What a line of an STL text says.

ghost use Rattle.std.specs.Prelude.{◌≡◌};
ghost use Rattle.stl_text.specs.Words.{words_of};
ghost use Rattle.stl_text.specs.Lines.{coordinate_of, corner_at, corner_of, vertex_of, is_loop, no_words, line_by, line_of};

use crate::words::{is_keyword, split_word};
use slice_base::{Pt3, read_decimal};

/// The greatest distance of a corner from the origin along an axis, in µm.
pub const MOST_COORDINATE: u64 = 1_000_000_000;

/// A line of an STL text.
#[derive(Clone, Copy)]
pub enum Line {
    Blank,
    Solid,
    Facet,
    OuterLoop,
    Vertex(Pt3),
    EndLoop,
    EndFacet,
    EndSolid,
    /// No line of any STL text.
    Other,
}

fn coordinate_of(word: &[u8]) -> Option<i32>
    ensures { result ≡ coordinate_of word.now }
{
    match read_decimal(word, 3) {
        Err(_) => None,
        Ok(value) => {
            if value.unsigned_abs() <= MOST_COORDINATE {
                Some(value as i32)
            } else {
                None
            }
        }
    }
}

fn no_words(text: &[u8]) -> bool
    ensures { result ≡ no_words (words_of text.now) }
{
    match split_word(text) {
        None => true,
        Some(_) => false,
    }
}

fn is_loop(text: &[u8]) -> bool
    ensures { result ≡ is_loop (words_of text.now) }
{
    match split_word(text) {
        None => false,
        Some((word, rest)) => no_words(rest) && is_keyword(word, b"loop"),
    }
}

fn corner_at(first: &[u8], second: &[u8], third: &[u8]) -> Option<Pt3>
    ensures { result ≡ corner_at (coordinate_of first.now) (coordinate_of second.now) (coordinate_of third.now) }
{
    let x = coordinate_of(first)?;
    let y = coordinate_of(second)?;
    let z = coordinate_of(third)?;
    Some(Pt3 { x, y, z })
}

fn corner_of(text: &[u8]) -> Option<Pt3>
    ensures { result ≡ corner_of (words_of text.now) }
{
    let (first, rest) = split_word(text)?;
    let (second, rest) = split_word(rest)?;
    let (third, rest) = split_word(rest)?;
    if !no_words(rest) {
        return None;
    }
    corner_at(first, second, third)
}

fn vertex_of(text: &[u8]) -> Line
    ensures { result ≡ vertex_of (corner_of (words_of text.now)) }
{
    match corner_of(text) {
        None => Line::Other,
        Some(corner) => Line::Vertex(corner),
    }
}

// A line whose first word is given.
fn line_by(word: &[u8], rest: &[u8]) -> Line
    ensures { result ≡ line_by word.now (words_of rest.now) }
{
    if is_keyword(word, b"vertex") {
        return vertex_of(rest);
    }
    if is_keyword(word, b"facet") {
        return Line::Facet;
    }
    if is_keyword(word, b"outer") {
        return if is_loop(rest) {
            Line::OuterLoop
        } else {
            Line::Other
        };
    }
    if is_keyword(word, b"endloop") {
        return if no_words(rest) {
            Line::EndLoop
        } else {
            Line::Other
        };
    }
    if is_keyword(word, b"endfacet") {
        return if no_words(rest) {
            Line::EndFacet
        } else {
            Line::Other
        };
    }
    if is_keyword(word, b"solid") {
        return Line::Solid;
    }
    if is_keyword(word, b"endsolid") {
        return Line::EndSolid;
    }
    Line::Other
}

/// What a line says.
pub fn line_of(line: &[u8]) -> Line
    ensures { result ≡ line_of (words_of line.now) }
{
    match split_word(line) {
        None => Line::Blank,
        Some((word, rest)) => line_by(word, rest),
    }
}
