//! The note on a denial.

ghost use Rattle.std.specs.Prelude.{◌≡◌, ◌<◌, ◌≤◌, ℕ, length, IfOk, Some};
ghost use Rattle.dimension_core.specs.Setup.{setting};
ghost use Rattle.plan_core.specs.Plan.{stamp_of};
ghost use Rattle.move_core.specs.Touched.{touched_by};
ghost use Rattle.board_rules.specs.Rules.{Basis, IsVerdictBy};
ghost use Rattle.board_text.specs.Notes.{IsNoteOf, IsBoundNote, customer_note, excess_note, stale_note};

use crate::cause::{Cause, cause_of};
use board_rules::{Denial, plans_are_judged_by_new_routes};
use denial_facts::{Excess, first_out, touch_at};
use dimension_core::Setup;
use move_core::Move;
use plan_core::Plan;
use std::alloc::{AllocError, Global};

/// What a denial means, beside its reply. Vehicles, places, customers and dimensions count from 1.
#[derive(Clone, Copy)]
pub enum Note {
    /// The new route of the vehicle takes this much of dimension 1 in all, which is more than the vehicle's capacity.
    Load {
        vehicle: u32,
        total: u64,
        most: u64,
    },
    /// The first stop of the vehicle's new route that has no value in bounds: its place (that of the depot, where the route ends, is one more
    /// than the last customer's), its node (0 is the depot), the least value there, and the greatest that is allowed.
    Late {
        vehicle: u32,
        place: usize,
        node: u32,
        least: u64,
        most: u64,
    },
    /// The vehicle has no value in bounds at the depot, where the route begins.
    Start {
        vehicle: u32,
    },
    /// The customer that is touched at the place.
    Customer {
        vehicle: u32,
        place: u32,
        customer: u32,
    },
    /// The last commit that changed the vehicle, and the version now.
    Stale {
        vehicle: u32,
        commit: u32,
        version: u32,
    },
    /// The version now.
    Ahead {
        version: u32,
    },
    /// Why the move has no effect.
    Place(Cause),
    /// The reply says all.
    Rule(Denial),
}

/// The number of the last commit that changed a vehicle, 0 where none did.
fn last_change(plan: &Plan, vehicle: u32) -> u32
    requires low { 1 ≤ vehicle }
    requires high { vehicle ≤ length plan.now.routes }
    ensures { result ≡ stamp_of plan.now vehicle }
{
    let mut low = 0;
    let mut high = plan.version();
    'halves: while low < high {
        let middle = low + (high - low) / 2;
        if plan.changed_after(vehicle, middle) {
            low = middle + 1;
        } else {
            high = middle;
        }
    }
    low
}

/// The note where a vehicle is stale.
fn stale_note(plan: &Plan, vehicle: u32) -> Note
    ensures { result ≡ stale_note plan.now vehicle }
{
    if vehicle == 0 || vehicle > plan.vehicles() {
        return Note::Rule(Denial::Stale(vehicle));
    }
    Note::Stale {
        vehicle,
        commit: last_change(plan, vehicle),
        version: plan.version(),
    }
}

/// The note where the session may not move a customer.
fn customer_note(
    alloc: Global,
    plan: &Plan,
    mv: &Move,
    vehicle: u32,
    place: u32,
) -> Result<Note, AllocError>
    ensures { IfOk result (λ note. note ≡ customer_note plan.now mv.now vehicle place) }
{
    if !mv.is_possible(plan) {
        return Ok(Note::Rule(Denial::AccessCustomer(vehicle, place)));
    }
    let touched = mv.touches(alloc, plan)?;
    match touch_at(touched.as_slice(), vehicle, place) {
        None => Ok(Note::Rule(Denial::AccessCustomer(vehicle, place))),
        Some(t) => Ok(Note::Customer {
            vehicle,
            place,
            customer: t.customer,
        }),
    }
}

/// The note on a vehicle's route that is out of bounds.
fn excess_note(vehicle: u32, excess: Excess) -> Note
    ensures { result ≡ excess_note vehicle excess }
{
    match excess {
        Excess::Load { total, most } => Note::Load {
            vehicle,
            total,
            most,
        },
        Excess::Late {
            place,
            node,
            least,
            most,
        } => Note::Late {
            vehicle,
            place,
            node,
            least,
            most,
        },
        Excess::Start => Note::Start { vehicle },
    }
}

/// The note where a new route is out of bounds.
fn bound_note(
    alloc: Global,
    setup: &Setup,
    plan: &Plan,
    mv: &Move,
    vehicle: u32,
    dimension: u32,
) -> Result<Note, AllocError>
    requires customers { plan.now.customers ≡ (setting setup.now).customers }
    requires vehicles { length plan.now.routes ≡ (setting setup.now).vehicles }
    ensures { (b : Basis) (base : ℕ) → b.routes ≡ plan.now.routes
        → IsVerdictBy (setting setup.now) b base mv.now (Some (Denial.Bound vehicle dimension))
        → IfOk result (IsBoundNote (setting setup.now) plan.now mv.now vehicle dimension) }
{
    plans_are_judged_by_new_routes();
    let _sound = plan.customers();
    let count = setup.dimensions().len();
    let unexplained = Note::Rule(Denial::Bound(vehicle, dimension));
    if !mv.is_possible(plan) {
        return Ok(unexplained);
    }
    if dimension == 0 {
        return Ok(unexplained);
    }
    if dimension as usize > count {
        return Ok(unexplained);
    }
    let changes = mv.routes(alloc, plan)?;
    match first_out(setup, changes.as_slice(), vehicle, dimension) {
        Some(excess) => Ok(excess_note(vehicle, excess)),
        None => Ok(unexplained),
    }
}

/// What the denial of a move means, on the plan on which the move was judged. Running out of memory is the only refusal.
pub fn explained(
    alloc: Global,
    setup: &Setup,
    plan: &Plan,
    mv: &Move,
    denial: Denial,
) -> Result<Note, AllocError>
    requires customers { plan.now.customers ≡ (setting setup.now).customers }
    requires vehicles { length plan.now.routes ≡ (setting setup.now).vehicles }
    ensures { (b : Basis) (base : ℕ) → b.routes ≡ plan.now.routes → IsVerdictBy (setting setup.now) b base mv.now (Some denial)
        → IfOk result (IsNoteOf (setting setup.now) plan.now mv.now denial) }
{
    match denial {
        Denial::Bound(vehicle, dimension) => bound_note(alloc, setup, plan, mv, vehicle, dimension),
        Denial::AccessCustomer(vehicle, place) => customer_note(alloc, plan, mv, vehicle, place),
        Denial::Stale(vehicle) => Ok(stale_note(plan, vehicle)),
        Denial::Ahead => Ok(Note::Ahead {
            version: plan.version(),
        }),
        Denial::BadPlace => Ok(Note::Place(cause_of(plan, mv))),
        denial => Ok(Note::Rule(denial)),
    }
}
