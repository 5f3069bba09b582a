// Times of short lines, and the fan by layer.

use crate::{fan, path_time, plan_time};
use plan_types::{ExtruderPlan, Kind, Path};
use settings_core::{ExtruderSettings, Given, Pair, Scope, resolve};
use slice_base::{Items, Loop, NoMemory, Pt, Text};
use std::alloc::Global;
use std::test::Fail;

const START: Pt = Pt { x: 0, y: 0 };

const MIDDLE: Pt = Pt { x: 30_000, y: 0 };

const END: Pt = Pt { x: 60_000, y: 0 };

fn extruder() -> ExtruderSettings {
    ExtruderSettings {
        material_print_temperature: 210,
        material_standby_temperature: 150,
        machine_nozzle_heat_up_speed: 2000,
        machine_nozzle_cool_down_speed: 2000,
        material_diameter: 2850,
        material_flow: 100,
        retraction_enable: true,
        retraction_amount: 6500,
        retraction_speed: 25_000,
        retraction_min_travel: 800,
        speed_travel: 120_000,
    }
}

// A line of 30 mm, printed at 30 mm/s.
fn first_line(alloc: Global, retract: bool) -> Result<Path, NoMemory> {
    Ok(Path {
        kind: Kind::Fill,
        width: 400,
        thickness: 200,
        speed: 30_000,
        points: Loop::of(alloc, &[START, MIDDLE])?,
        retract,
        time: 0,
        before: 0,
    })
}

// Another one, from its end.
fn second_line(alloc: Global) -> Result<Path, NoMemory> {
    Ok(Path {
        kind: Kind::Fill,
        width: 400,
        thickness: 200,
        speed: 30_000,
        points: Loop::of(alloc, &[MIDDLE, END])?,
        retract: false,
        time: 0,
        before: 0,
    })
}

#[test]
fn thirty_millimetres_at_thirty_a_second_take_a_second(rt: HostRuntime) -> Result<(), Fail> {
    let alloc = rt.alloc();
    let plain = first_line(alloc, false)?;
    assert_eq!(rt; path_time(START, &plain, &extruder()), 1_000_000);
    let retracting = first_line(alloc, true)?;
    assert_eq!(rt; path_time(START, &retracting, &extruder()), 1_520_000);
    Ok(())
}

#[test]
fn two_lines_end_to_end_take_two_seconds(rt: HostRuntime) -> Result<(), Fail> {
    let alloc = rt.alloc();
    let mut paths = Items::new(alloc);
    paths.push(first_line(alloc, false)?)?;
    paths.push(second_line(alloc)?)?;
    let plan = ExtruderPlan { extruder: 0, paths };
    assert_eq!(rt; plan_time(START, &plan, &extruder()), 2_000_000);
    Ok(())
}

#[test]
fn the_fan_rises_up_to_the_full_layer(rt: HostRuntime) -> Result<(), Fail> {
    let alloc = rt.alloc();
    let pair = Pair {
        scope: Scope::Global,
        key: Text::of(alloc, b"cool_fan_full_layer")?,
        value: Given::Words(Text::of(alloc, b"4")?),
    };
    let mut pairs = Vec::new(alloc);
    pairs.push(pair)?;
    let settings = resolve(alloc, pairs.as_slice(), &[0])?;
    let mut powers = Vec::new(alloc);
    for layer in 0..5u32 {
        powers.push(fan(&settings, layer))?;
    }
    assert_eq!(rt; powers.as_slice(), [0, 85, 170, 255, 255].as_slice());
    Ok(())
}
