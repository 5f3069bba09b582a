// Why a text gives no mesh.

/// Why a file gives no mesh.
#[derive(Clone, Copy, PartialEq, Eq, Debug)]
pub enum StlFault {
    /// The line of this number, from 1, is the first at fault; the number after the last line where
    /// the file ends inside a facet.
    BadLine { line: u32 },
    /// No line is at fault, and there are this many facets, more than `MOST_TRIANGLES`.
    TooManyTriangles { count: u32 },
    /// No line is at fault and there aren't too many facets, but there was no memory for the triangles.
    NoMemory,
}
