// Needs that were worked out by hand. Places that were worked out by hand stand among the proofs.

use crate::need;
use settings_core::ExtruderSettings;
use std::test::Fail;

// An extruder of the usual temperatures that heats up and cools down so fast, in thousandths of a degree
// a second.
fn extruder(standby: u32, heating: u32, cooling: u32) -> ExtruderSettings {
    ExtruderSettings {
        material_print_temperature: 210,
        material_standby_temperature: standby.min(400),
        machine_nozzle_heat_up_speed: heating.max(1).min(1_000_000),
        machine_nozzle_cool_down_speed: cooling.max(1).min(1_000_000),
        material_diameter: 1750,
        material_flow: 100,
        retraction_enable: true,
        retraction_amount: 6500,
        retraction_speed: 25000,
        retraction_min_travel: 1500,
        speed_travel: 120000,
    }
}

#[test]
fn needs_are_as_worked_out(rt: HostRuntime) -> Result<(), Fail> {
    let usual = extruder(150, 2000, 2000);
    assert_eq!(rt; need(&usual, None), 31_000_000);
    assert_eq!(rt; need(&usual, Some(0)), 1_000_000);
    assert_eq!(rt; need(&usual, Some(1_000_000)), 2_000_000);
    let hotter_at_rest = extruder(211, 2000, 2000);
    assert_eq!(rt; need(&hotter_at_rest, None), 1_000_000);
    let heating_fast = extruder(150, 100_000, 2000);
    assert_eq!(rt; need(&heating_fast, None), 1_600_000);
    Ok(())
}
