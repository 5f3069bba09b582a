// Lines as they stand in a printed file.

use crate::append::Line;
use crate::labels::{Counted, FixedLine};
use crate::lines::{bed, blow, count, elapsed, extrude, filament, heat, kind, plain, tool, travel};
use plan_types::Kind;
use slice_base::Pt;
use std::test::Fail;

const CORNER: Pt = Pt {
    x: 109800,
    y: 90200,
};

#[test]
fn moves_are_printed_in_millimetres(rt: HostRuntime) -> Result<(), Fail> {
    let mut line = Line::new();
    travel(&mut line, 120000, CORNER, Some(300));
    assert_eq!(rt;
        line.as_slice(),
        b"G0 F7200.000 X109.800 Y90.200 Z0.300\n".as_slice()
    );
    travel(&mut line, 120000, Pt { x: -5, y: 0 }, None);
    assert_eq!(rt;
        line.as_slice(),
        b"G0 F7200.000 X-0.005 Y0.000\n".as_slice()
    );
    extrude(&mut line, Some(30000), CORNER, 97785);
    assert_eq!(rt;
        line.as_slice(),
        b"G1 F1800.000 X109.800 Y90.200 E0.97785\n".as_slice()
    );
    extrude(&mut line, None, CORNER, 391139);
    assert_eq!(rt;
        line.as_slice(),
        b"G1 X109.800 Y90.200 E3.91139\n".as_slice()
    );
    filament(&mut line, 25000, -650000);
    assert_eq!(rt; line.as_slice(), b"G1 F1500.000 E-6.50000\n".as_slice());
    Ok(())
}

#[test]
fn the_longest_move_fits(rt: HostRuntime) -> Result<(), Fail> {
    let mut line = Line::new();
    let far = Pt {
        x: i32::MIN,
        y: i32::MIN,
    };
    extrude(&mut line, Some(u32::MAX), far, i128::MIN);
    assert_eq!(rt;
        line.as_slice(),
        b"G1 F257698037.700 X-2147483.648 Y-2147483.648 E-1701411834604692317316873037158841.05728\n".as_slice()
    );
    Ok(())
}

#[test]
fn temperatures_and_the_fan_are_set(rt: HostRuntime) -> Result<(), Fail> {
    let mut line = Line::new();
    heat(&mut line, false, 1, 150);
    assert_eq!(rt; line.as_slice(), b"M104 T1 S150\n".as_slice());
    heat(&mut line, true, 0, 210);
    assert_eq!(rt; line.as_slice(), b"M109 T0 S210\n".as_slice());
    bed(&mut line, false, 60);
    assert_eq!(rt; line.as_slice(), b"M140 S60\n".as_slice());
    bed(&mut line, true, 60);
    assert_eq!(rt; line.as_slice(), b"M190 S60\n".as_slice());
    tool(&mut line, 7);
    assert_eq!(rt; line.as_slice(), b"T7\n".as_slice());
    blow(&mut line, 255);
    assert_eq!(rt; line.as_slice(), b"M106 S255\n".as_slice());
    blow(&mut line, 0);
    assert_eq!(rt; line.as_slice(), b"M107\n".as_slice());
    Ok(())
}

#[test]
fn comments_and_fixed_lines_are_printed(rt: HostRuntime) -> Result<(), Fail> {
    let mut line = Line::new();
    plain(&mut line, FixedLine::Flavor);
    assert_eq!(rt; line.as_slice(), b";FLAVOR:Marlin\n".as_slice());
    plain(&mut line, FixedLine::ZeroE);
    assert_eq!(rt; line.as_slice(), b"G92 E0\n".as_slice());
    count(&mut line, Counted::OpenOutlines, 0);
    assert_eq!(rt; line.as_slice(), b";OPEN_OUTLINES:0\n".as_slice());
    count(&mut line, Counted::LayerCount, 40000);
    assert_eq!(rt; line.as_slice(), b";LAYER_COUNT:40000\n".as_slice());
    kind(&mut line, Kind::WallOuter);
    assert_eq!(rt; line.as_slice(), b";TYPE:WALL-OUTER\n".as_slice());
    elapsed(&mut line, 4196353);
    assert_eq!(rt; line.as_slice(), b";TIME_ELAPSED:4.196353\n".as_slice());
    Ok(())
}
