// Boxes as ASCII STL.

ghost use Rattle.std.specs.Prelude.{◌<◌};

use std::alloc::{AllocError, Global};

// A box, by its least and greatest corner in mm, each number as it stands in the file.
#[derive(Clone, Copy)]
pub(crate) struct Block<'a> {
    pub(crate) low: [&'a str; 3],
    pub(crate) high: [&'a str; 3],
}

// The corners of the 12 facets, counterclockwise from outside. The bits of a corner's number say whether
// its x, y and z are the greatest.
const FACETS: [[u8; 3]; 12] = [
    [0, 2, 3],
    [0, 3, 1],
    [4, 5, 7],
    [4, 7, 6],
    [0, 1, 5],
    [0, 5, 4],
    [1, 3, 7],
    [1, 7, 5],
    [3, 2, 6],
    [3, 6, 7],
    [2, 0, 4],
    [2, 4, 6],
];

// Corners in their order face outward.
pub(crate) const OUTWARD: [usize; 3] = [0, 1, 2];

// A plate of two layers.
pub(crate) const PLATE: Block<'static> = Block {
    low: ["90", "90", "0"],
    high: ["110", "110", "0.5"],
};

impl Block<'_> {
    fn coordinate(&self, corner: u8, axis: usize) -> &str
        requires { axis < 3 }
    {
        if (corner >> axis) & 1 == 1 {
            self.high[axis]
        } else {
            self.low[axis]
        }
    }

    // The solid's file, without the facet of that number where one is left out. Its corners are written
    // in this order: 0, 1, 2 faces outward, 0, 2, 1 inward.
    pub(crate) fn text(
        &self,
        alloc: Global,
        left_out: Option<usize>,
        order: [usize; 3],
    ) -> Result<String, AllocError> {
        let mut text = String::from_str(alloc, "solid box\n")?;
        for (i, facet) in FACETS.iter().enumerate() {
            if left_out == Some(i) {
                continue;
            }
            text.push_str("facet normal 0 0 0\nouter loop\n")?;
            for place in order {
                text.push_str("vertex")?;
                for axis in 0..3usize {
                    text.push_str(" ")?;
                    text.push_str(self.coordinate(facet[place % 3], axis))?;
                }
                text.push_str("\n")?;
            }
            text.push_str("endloop\nendfacet\n")?;
        }
        text.push_str("endsolid box\n")?;
        Ok(text)
    }
}
