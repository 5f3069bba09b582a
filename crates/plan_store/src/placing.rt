// How the paths of a plan that was taken put its preheats into the plans of the window.

ghost use Rattle.std.specs.Prelude.{◌≡◌, ◌+◌, ◌-◌, ◌<◌, ◌≤◌, ◌^◌, List, length, IfSome};
ghost use Rattle.std.specs.List.{All, sum_by};
ghost use Rattle.std.specs.Option.{option_map};
ghost use Rattle.plan_types.specs.Plans.{LayerPlanValue};
ghost use Rattle.plan_types.specs.Extruders.{extruder_of};
ghost use Rattle.preheat_core.specs.Spots.{IsSpot, number_of};
ghost use Rattle.preheat_plan.specs.Past.{rules_of};
ghost use Rattle.preheat_plan.specs.Held.{front_in, place_in, heated, switched, moved, used, used_all};
ghost use Rattle.plan_store.specs.Inner.Sound.{held_of, end_of_held, IsSound};

use crate::marks::{Marks, at};
use crate::store::Store;
use plan_types::{Insert, Job};
use preheat_core::{Spot, elapsed, place, spot_at};
use preheat_plan::{Left, Use, extruder};

fn front(marks: Marks, e: u8) -> u128
    requires { e < 8 }
    ensures { (plans : List LayerPlanValue) → result ≡ front_in e (held_of plans marks) }
{
    marks.base.max(at(marks.left_by(e))) - marks.base
}

// The time from where an extruder was left to a boundary before which all paths take so long.
fn time_since(left: Option<Left>, time: u128) -> Option<u128>
    requires { time < 2 ^ 100 }
    ensures exact { result ≡ option_map (λ l. time - l.time) left }
    ensures small { IfSome result (λ t. t < 2 ^ 100) }
{
    match left {
        None => None,
        Some(left) => Some(time.saturating_sub(left.time)),
    }
}

// The path before which a switch to `e` at the next path is preheated.
fn spot(store: &Store, marks: Marks, job: &Job, e: u8) -> Spot
    requires known { e < length job.now.settings.extruders }
    requires low { e < 8 }
    requires more { marks.next < end_of_held store.now marks }
    requires sound { IsSound store.now marks }
    ensures spot { IsSpot store.now result }
    ensures number { number_of store.now result ≡ place_in (rules_of job.now) e (held_of store.now marks) }
{
    let plans = store.plans();
    let front = front(marks, e);
    let first = spot_at(plans, front);
    let start = spot_at(plans, marks.next - marks.base);
    let left = time_since(marks.left_by(e), marks.base_time + elapsed(plans, front));
    place(plans, first, start, extruder(job, e), left)
}

fn degrees(job: &Job, e: u8) -> u16
    requires known { e < length job.now.settings.extruders }
    ensures { (rules_of job.now).degrees e ≡ result }
{
    extruder(job, e).material_print_temperature as u16
}

// Puts the preheat of a switch into the plans.
fn heat(store: &mut Store, marks: Marks, job: &Job, e: u8) -> Marks
    requires known { e < length job.now.settings.extruders }
    requires low { e < 8 }
    requires more { marks.next < end_of_held store.old marks }
    requires sound { IsSound store.old marks }
    ensures held { held_of store.new result ≡ heated (rules_of job.now) e (held_of store.old marks) }
    ensures sound { IsSound store.new result }
    ensures end { end_of_held store.new result ≡ end_of_held store.old marks }
    ensures next { result.next ≡ marks.next }
    ensures taken { result.taken ≡ marks.taken }
{
    let spot = spot(store, marks, job, e);
    let insert = Insert {
        at: spot.path,
        extruder: e,
        degrees: degrees(job, e),
    };
    store.put(spot.slot as usize, insert);
    Marks {
        current: e,
        ..marks
    }
}

fn switch(store: &mut Store, marks: Marks, job: &Job, e: u8) -> Marks
    requires known { e < length job.now.settings.extruders }
    requires low { e < 8 }
    requires more { marks.next < end_of_held store.old marks }
    requires sound { IsSound store.old marks }
    ensures held { held_of store.new result ≡ switched (rules_of job.now) e (held_of store.old marks) }
    ensures sound { IsSound store.new result }
    ensures end { end_of_held store.new result ≡ end_of_held store.old marks }
    ensures next { result.next ≡ marks.next }
    ensures taken { result.taken ≡ marks.taken }
{
    if e == marks.current {
        marks
    } else {
        heat(store, marks, job, e)
    }
}

// So many paths on, where their extruder is left again.
fn move_on(store: &Store, marks: Marks, u: Use) -> Marks
    requires low { u.extruder < 8 }
    requires enough { marks.next + u.count ≤ end_of_held store.now marks }
    requires sound { IsSound store.now marks }
    ensures held { held_of store.now result ≡ moved u.extruder u.count (held_of store.now marks) }
    ensures sound { IsSound store.now result }
    ensures end { end_of_held store.now result ≡ end_of_held store.now marks }
    ensures next { result.next ≡ marks.next + u.count }
    ensures taken { result.taken ≡ marks.taken }
{
    let next = marks.next + u128::from(u.count);
    let time = marks.base_time + elapsed(store.plans(), next - marks.base);
    let mut left = marks.left;
    left[u.extruder as usize] = Some(Left { at: next, time });
    Marks {
        next,
        left,
        ..marks
    }
}

fn go(store: &mut Store, marks: Marks, job: &Job, u: Use) -> Marks
    requires known { u.extruder < length job.now.settings.extruders }
    requires low { u.extruder < 8 }
    requires enough { marks.next + u.count ≤ end_of_held store.old marks }
    requires sound { IsSound store.old marks }
    ensures held { held_of store.new result ≡ used (rules_of job.now) u (held_of store.old marks) }
    ensures sound { IsSound store.new result }
    ensures end { end_of_held store.new result ≡ end_of_held store.old marks }
    ensures next { result.next ≡ marks.next + u.count }
    ensures taken { result.taken ≡ marks.taken }
{
    if u.count == 0 {
        return marks;
    }
    let there = switch(store, marks, job, u.extruder);
    move_on(store, there, u)
}

// Goes on by uses, one after another.
pub(crate) fn go_all(store: &mut Store, marks: Marks, job: &Job, uses: &[Use]) -> Marks
    requires known { All (λ u. (u.extruder < 8) × (u.extruder < length job.now.settings.extruders)) uses.now }
    requires enough { marks.next + sum_by (λ u. u.count) uses.now ≤ end_of_held store.old marks }
    requires sound { IsSound store.old marks }
    ensures held { held_of store.new result ≡ used_all (rules_of job.now) uses.now (held_of store.old marks) }
    ensures sound { IsSound store.new result }
    ensures end { end_of_held store.new result ≡ end_of_held store.old marks }
    ensures next { result.next ≡ marks.next + sum_by (λ u. u.count) uses.now }
    ensures taken { result.taken ≡ marks.taken }
{
    let mut now = marks;
    for u in uses {
        now = go(store, now, job, *u);
    }
    now
}
