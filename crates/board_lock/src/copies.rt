//! The first view of a board.
ghost use Rattle.std.specs.Prelude.{◌≡◌, ◌≤◌, [], None, length, IfOk};
ghost use Rattle.dimension_core.specs.Setup.{setting};
ghost use Rattle.dimension_core.specs.Setting.{Setting};
ghost use Rattle.plan_core.specs.Plan.{routes_of, route_at};
ghost use Rattle.pin_core.specs.Pins.{pin_of, front_of};
ghost use Rattle.board_rules.specs.History.{state_after};
ghost use Rattle.board_core.specs.Kept.{IsKept};
ghost use Rattle.published_board.specs.Written.{AreCells};
ghost use Rattle.published_board.specs.Shelves.{view_of};

use board_core::Core;
use board_rules::legal_histories_leave_good_states;
use dimension_core::Setup;
use limits::MOST_VEHICLES;
use pin_core::View;
use plan_core::Route;
use std::alloc::{AllocError, Global};
use std::sync::Arc;

/// The plan, pins and freezes of a core. The routes are shared.
pub(crate) fn view(alloc: Global, setup: &Setup, core: &Core) -> Result<View, AllocError>
    requires { IsKept (setting setup.now) core.now }
    ensures view { IfOk result (λ v. v ≡ view_of (state_after (setting setup.now) core.now.journal)) }
    ensures few { IfOk result (λ v. length v.routes ≤ MOST_VEHICLES) }
{
    legal_histories_leave_good_states();
    let customers = setup.customers();
    let vehicles = setup.vehicles();
    Ok(View {
        routes: routes(alloc, core, vehicles)?,
        pinned: pins(alloc, core, customers)?,
        frozen: fronts(alloc, core, vehicles)?,
        version: core.version(),
    })
}

/// The route of each vehicle, with one owner more.
fn routes(alloc: Global, core: &Core, vehicles: u32) -> Result<Vec<Arc<Route>>, AllocError>
    requires { (s : Setting) × IsKept s core.now × (s.vehicles ≡ vehicles) }
    ensures { (s : Setting) → IsKept s core.now
        → IfOk result (λ v. AreCells vehicles [] (route_at (state_after s core.now.journal).routes) (routes_of v.items)) }
{
    let mut made = Vec::with_capacity(alloc, vehicles as usize)?;
    for before in 0..vehicles {
        let Ok(route) = Arc::try_clone(core.route(before + 1)) else {
            return Err(AllocError);
        };
        made.push(route)?;
    }
    Ok(made)
}

/// The pin of each customer.
fn pins(alloc: Global, core: &Core, customers: u32) -> Result<Vec<Option<u32>>, AllocError>
    requires { (s : Setting) × IsKept s core.now × (s.customers ≡ customers) }
    ensures { (s : Setting) → IsKept s core.now
        → IfOk result (λ v. AreCells customers None (pin_of (state_after s core.now.journal).pins) v.items) }
{
    let mut cells = Vec::with_capacity(alloc, customers as usize)?;
    for before in 0..customers {
        cells.push(core.pinned(before + 1))?;
    }
    Ok(cells)
}

/// The frozen length of each vehicle.
fn fronts(alloc: Global, core: &Core, vehicles: u32) -> Result<Vec<u32>, AllocError>
    requires { (s : Setting) × IsKept s core.now × (s.vehicles ≡ vehicles) }
    ensures { (s : Setting) → IsKept s core.now
        → IfOk result (λ v. AreCells vehicles 0 (front_of (state_after s core.now.journal).pins) v.items) }
{
    let mut cells = Vec::with_capacity(alloc, vehicles as usize)?;
    for before in 0..vehicles {
        cells.push(core.frozen(before + 1))?;
    }
    Ok(cells)
}
