// A small index, asked by hand.

use crate::{Bands, Span};
use std::test::Fail;

#[test]
fn spans_are_found_as_worked_out(rt: HostRuntime) -> Result<(), Fail> {
    let spans = [
        Span { low: 0, high: 10 },
        Span { low: 5, high: 6 },
        Span { low: 20, high: 30 },
    ];
    let bands = Bands::make(rt.alloc(), spans.as_slice())?;
    let near: [(Span, &[u32]); 2] = [
        (Span { low: 6, high: 20 }, &[0, 1, 2]),
        (Span { low: 11, high: 19 }, &[]),
    ];
    for (span, wanted) in near {
        let found = bands.near(rt.alloc(), span)?;
        assert_eq!(rt; found.as_slice(), wanted);
    }
    let across: [(i64, &[u32]); 3] = [(12, &[0]), (60, &[]), (40, &[2])];
    for (twice, wanted) in across {
        let found = bands.across(rt.alloc(), twice)?;
        assert_eq!(rt; found.as_slice(), wanted);
    }
    Ok(())
}
