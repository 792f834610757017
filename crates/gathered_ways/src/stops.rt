//! The stops of vehicles.
ghost use Rattle.std.specs.Prelude.{◌≡◌, ◌+◌, ◌≤◌, ◌*◌, [], ◌∷◌, ◌++◌, length, All, IfOk};
ghost use Rattle.dimension_core.specs.Setup.{setting};
ghost use Rattle.gathered_ways.specs.Sides.{stops_of_both};
ghost use Rattle.plan_core.specs.Plan.{IsPlan, route_at};
ghost use Rattle.way_costs.specs.Ways.{AreStops};

use dimension_core::Setup;
use pin_core::View;
use plan_core::routes_are_known;
use std::alloc::AllocError;

/// Puts the stops of a route in place of what `all` held: the depot, its customers, the depot. It makes room for so many.
#[inline(always)]
fn begin_stops(route: &[u32], room: usize, all: &mut Vec<u32>) -> Result<(), AllocError>
    ensures { IfOk result (λ _. all.new.items ≡ 0 ∷ (route.now ++ 0 ∷ [])) }
{
    all.clear();
    all.reserve(room)?;
    all.push(0)?;
    all.extend_from_slice(route)?;
    all.push(0)?;
    Ok(())
}

/// Puts the stops of a vehicle, which count from 1, in place of what `all` held: the depot, its customers, the depot. The caller owes a
/// view of a plan of the setup. On `AllocError` `all` may hold a part of them.
pub fn fill_stops(view: &View, setup: &Setup, v: u32, all: &mut Vec<u32>) -> Result<(), AllocError>
    requires plan { IsPlan (setting setup.now).customers view.now.routes }
    requires vehicles { length view.now.routes ≡ (setting setup.now).vehicles }
    requires low { 1 ≤ v }
    requires high { v ≤ (setting setup.now).vehicles }
    ensures { IfOk result (λ _. AreStops (setting setup.now).customers view.now.routes v all.new.items) }
{
    routes_are_known();
    let _customers = setup.customers();
    let customers = view.customers(v);
    begin_stops(customers, 2 * customers.len() + 3, all)
}

/// Puts the stops of two vehicles, one after the other, in place of what `all` held: the depot, the customers of one, the depot, those of
/// the other, the depot.
pub(crate) fn fill_stops_of_both(
    view: &View,
    setup: &Setup,
    v: u32,
    w: u32,
    all: &mut Vec<u32>,
) -> Result<(), AllocError>
    requires plan { IsPlan (setting setup.now).customers view.now.routes }
    requires vehicles { length view.now.routes ≡ (setting setup.now).vehicles }
    requires v { (1 ≤ v) × (v ≤ (setting setup.now).vehicles) }
    requires w { (1 ≤ w) × (w ≤ (setting setup.now).vehicles) }
    ensures stops { IfOk result (λ _. all.new.items ≡ stops_of_both (route_at view.now.routes v) (route_at view.now.routes w)) }
    ensures known { IfOk result (λ _. All (λ c. c ≤ (setting setup.now).customers) all.new.items) }
{
    routes_are_known();
    let _customers = setup.customers();
    let first = view.customers(v);
    let second = view.customers(w);
    begin_stops(first, first.len() + second.len() + 3, all)?;
    all.extend_from_slice(second)?;
    all.push(0)?;
    Ok(())
}
