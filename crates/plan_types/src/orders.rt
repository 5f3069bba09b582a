// The extruders of a layer, in the order in which they print.

ghost use Rattle.std.specs.Prelude.{ℕ, ◌==◌, ◌≡◌, ◌≤◌, ◌<◌, ◌++◌, ◌∷◌, [], cond, true, length};
ghost use Rattle.std.specs.List.{filter, count_by};
ghost use Rattle.arrayvec.specs.ArrayVec.{array_vec_len};
ghost use Rattle.plan_types.specs.Extruders.{has_bit};
ghost use Rattle.plan_types.specs.Orders.{all_extruders, is_kept_on, is_changed_to, extruder_order_of};

use arrayvec::ArrayVec;
use std::marker::Model;

/// The extruders of a layer in the order in which they print, 8 at most, seen as their list.
#[derive(Drop)]
pub struct Order {
    extruders: ArrayVec<u8, 8>,
}

impl Model for Order {
    ghost use Rattle.std.specs.Prelude.{ℕ, ◌==◌, List, ℕ};

    ghost Value = { List ℕ };

    ghost view = { λ a. a.extruders.items };
}

impl Order {
    /// The order of these extruders.
    pub fn of(extruders: ArrayVec<u8, 8>) -> Self
        ensures { result ≡ extruders.items }
    {
        Order { extruders }
    }

    /// The extruders, in order.
    pub fn extruders(&self) -> &[u8]
        ensures value { result.now ≡ self.now }
        ensures few { length result.now ≤ 8 }
    {
        self.extruders.as_slice()
    }
}

// The numbers of all extruders that there can be, rising.
const ALL: [u8; 8] = [0, 1, 2, 3, 4, 5, 6, 7];

/// Whether bit `e` of a set of extruders is set.
pub fn has_bit(bits: u8, e: u8) -> bool
    requires { e < 8 }
    ensures { result ≡ has_bit bits e }
{
    bits >> e & 1 == 1
}

fn is_kept_on(last: u8, wanted: u8, e: u8) -> bool
    requires { e < 8 }
    ensures { result ≡ is_kept_on last wanted e }
{
    has_bit(wanted, e) && e == last
}

fn is_changed_to(last: u8, wanted: u8, e: u8) -> bool
    requires { e < 8 }
    ensures { result ≡ is_changed_to last wanted e }
{
    has_bit(wanted, e) && e != last
}

// Puts the extruder behind the others, where it is next.
fn push_where(order: &mut ArrayVec<u8, 8>, e: u8, is_next: bool)
    requires { is_next ≡ true → array_vec_len order.old < 8 }
    ensures { order.new.items ≡ order.old.items ++ cond is_next (e ∷ []) [] }
{
    if is_next {
        order.push(e);
    }
}

// Puts the extruder that printed last, where it is wanted.
fn push_kept(order: &mut ArrayVec<u8, 8>, last: u8, wanted: u8)
    requires { array_vec_len order.old ≡ 0 }
    ensures { order.new.items ≡ filter (is_kept_on last wanted) all_extruders }
{
    for e in &ALL {
        push_where(order, *e, is_kept_on(last, wanted, *e));
    }
}

// Puts the other wanted extruders.
fn push_others(order: &mut ArrayVec<u8, 8>, last: u8, wanted: u8)
    requires { order.old.items ≡ filter (is_kept_on last wanted) all_extruders }
    ensures { order.new.items ≡ extruder_order_of last wanted }
{
    for e in &ALL {
        push_where(order, *e, is_changed_to(last, wanted, *e));
    }
}

/// The order in which extruders print on a layer: of those whose bit is set in `wanted` the one that printed `last`
/// first, then the others, rising.
pub fn extruder_order(last: u8, wanted: u8) -> Order
    ensures { result ≡ extruder_order_of last wanted }
{
    let mut order = ArrayVec::new();
    push_kept(&mut order, last, wanted);
    push_others(&mut order, last, wanted);
    Order::of(order)
}

/// A law of the order, for callers: no extruder is in it twice. The call does nothing.
pub fn orders_have_each_once()
    ensures { (last wanted e : ℕ) → count_by (λ k. k == e) (extruder_order_of last wanted) ≤ 1 }
{}
