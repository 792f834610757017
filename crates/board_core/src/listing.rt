//! Listings: the rows of the plan that a session may read, each with its early values.
ghost use Rattle.std.specs.Prelude.{◌≡◌, ◌+◌, ◌<◌, ◌≤◌, ℕ, Bool, List, length, true, false, slice_index_or, All, IfOk};
ghost use Rattle.std.specs.Option.{option_map};
ghost use Rattle.permission_table.specs.Tables.{rows_of};
ghost use Rattle.dimension_core.specs.Setup.{setting};
ghost use Rattle.plan_core.specs.Plan.{route_at};
ghost use Rattle.move_core.specs.Moves.{is_placed};
ghost use Rattle.move_core.specs.Touched.{touches};
ghost use Rattle.board_rules.specs.Listing.{HasEarlyValues, IsListing, placed_spots, unassigned_spots, spot_of};
ghost use Rattle.board_rules.specs.State.{BoardState};
ghost use Rattle.board_state.specs.Held.{Holds};
ghost use Rattle.board_core.specs.Shown.{Grows, IsStop, AreMarked, AreMarkedOn};

use board_rules::Row;
use board_state::State;
use dimension_core::Setup;
use permission_table::SessionRows;
use range_cache::Cache;
use rbac_core::{Object, Operation};
use std::alloc::{AllocError, Global};

/// The rows of the plan that the session may read: by vehicle and place, and then the unassigned customers by number.
pub(crate) fn rows(
    alloc: Global,
    setup: &Setup,
    state: &State,
    session: u32,
) -> Result<Vec<Row>, AllocError>
    requires { (board : BoardState) × Holds (setting setup.now) state.now board }
    ensures { (board : BoardState) → Holds (setting setup.now) state.now board
        → IfOk result (λ rows. IsListing (setting setup.now) board session rows.items) }
{
    let customers = setup.customers() as usize;
    let mut rows = Vec::with_capacity(alloc, customers)?;
    let mut placed = vec![in alloc; false; customers]?;
    let seen = state.session_rows(session);
    push_placed(setup, state, session, seen, &mut placed, &mut rows)?;
    push_unassigned(setup, state, session, seen, &placed, &mut rows)?;
    Ok(rows)
}

/// The rows of all routes, by vehicle and place; each customer of a route is marked as placed, whether it may be read or not.
fn push_placed(
    setup: &Setup,
    state: &State,
    session: u32,
    seen: Option<&SessionRows>,
    placed: &mut [bool],
    rows: &mut Vec<Row>,
) -> Result<(), AllocError>
    requires held { (board : BoardState) × Holds (setting setup.now) state.now board }
    requires seen { option_map (λ found. found.now) seen ≡ rows_of state.now.tables session }
    requires sized { length placed.old ≡ (setting setup.now).customers }
    ensures rows { (board : BoardState) → Holds (setting setup.now) state.now board
        → IfOk result (λ _. Grows (setting setup.now) board session (placed_spots 1 board.routes) rows.old.items rows.new.items) }
    ensures placed { IfOk result (λ _. AreMarked state.now.plan.routes placed.old placed.new) }
{
    let plan = state.plan();
    for before in 0..setup.vehicles() {
        mark(plan.route(before + 1).customers(), placed);
        push_route(setup, state, session, seen, before + 1, rows)?;
    }
    Ok(())
}

/// Marks the customers of a route.
fn mark(route: &[u32], placed: &mut [bool])
    requires { All (λ c. (1 ≤ c) × (c ≤ length placed.old)) route.now }
    ensures { AreMarkedOn route.now placed.old placed.new }
{
    for customer in route {
        placed[*customer as usize - 1] = true;
    }
}

/// The rows of a vehicle's route, by place; none where the session may not view the vehicle.
fn push_route(
    setup: &Setup,
    state: &State,
    session: u32,
    seen: Option<&SessionRows>,
    vehicle: u32,
    rows: &mut Vec<Row>,
) -> Result<(), AllocError>
    requires held { (board : BoardState) × Holds (setting setup.now) state.now board }
    requires seen { option_map (λ found. found.now) seen ≡ rows_of state.now.tables session }
    requires low { 1 ≤ vehicle }
    requires high { vehicle ≤ (setting setup.now).vehicles }
    ensures { (board : BoardState) → Holds (setting setup.now) state.now board
        → IfOk result (λ _. Grows (setting setup.now) board session
        (touches vehicle 1 (route_at board.routes vehicle)) rows.old.items rows.new.items) }
{
    if !state.check_in(seen, Operation::View, Object::Vehicle(vehicle)) {
        return Ok(());
    }
    let route = state.plan().route(vehicle).customers();
    for before in 0..route.len() {
        let customer = route[before];
        if state.check_in(seen, Operation::View, Object::Customer(customer)) {
            rows.push(placed_row(setup, state.cache(), vehicle, before as u32 + 1, customer))?;
        }
    }
    Ok(())
}

/// The rows of the customers that are not marked, by number.
fn push_unassigned(
    setup: &Setup,
    state: &State,
    session: u32,
    seen: Option<&SessionRows>,
    placed: &[bool],
    rows: &mut Vec<Row>,
) -> Result<(), AllocError>
    requires sized { length placed.now ≡ (setting setup.now).customers }
    requires seen { option_map (λ found. found.now) seen ≡ rows_of state.now.tables session }
    ensures { (board : BoardState) → Holds (setting setup.now) state.now board
        → ((k : ℕ) → k < length placed.now → slice_index_or placed.now k false ≡ is_placed board.routes (k + 1))
        → IfOk result (λ _. Grows (setting setup.now) board session
        (unassigned_spots (setting setup.now).customers board.routes) rows.old.items rows.new.items) }
{
    for before in 0..setup.customers() {
        let customer = before + 1;
        if !placed[before as usize]
            && state.check_in(seen, Operation::View, Object::Customer(customer))
        {
            rows.push(Row::new(0, 0, customer, &[]))?;
        }
    }
    Ok(())
}

/// The row of a customer that stands at a place, with the early value of each dimension.
fn placed_row(setup: &Setup, cache: &Cache, vehicle: u32, place: u32, customer: u32) -> Row
    requires { (routes : List (List ℕ)) × IsStop (setting setup.now) routes cache.now vehicle place }
    ensures spot { spot_of result ≡ record { vehicle = vehicle; place = place; customer = customer } }
    ensures early { (routes : List (List ℕ)) → IsStop (setting setup.now) routes cache.now vehicle place
        → HasEarlyValues (setting setup.now) routes result }
{
    let mut row = Row::new(vehicle, place, customer, &[]);
    for before in 0..setup.dimensions().len() {
        row.push_early(cache.early(before as u32 + 1, vehicle, place));
    }
    row
}
