//! What the way from a stop to the next one costs.
ghost use Rattle.std.specs.Prelude.{◌≡◌, ◌≤◌};
ghost use Rattle.callback_store.specs.Tables.{table_at};
ghost use Rattle.dimension_core.specs.Setup.{setting};
ghost use Rattle.way_costs.specs.Ways.{hop};

use callback_store::Meter;
use dimension_core::Setup;
use limits::LARGEST_ANSWER;

/// What the way from a stop to the next one costs, in the unit of the cost callback. Stop 0 is the depot; a vehicle that stays there drives
/// no way.
#[inline(always)]
pub fn hop(setup: &Setup, i: u32, j: u32) -> u64
    requires from { i ≤ (setting setup.now).customers }
    requires to { j ≤ (setting setup.now).customers }
    ensures value { result ≡ hop (table_at (setting setup.now).tables (setting setup.now).cost) i j }
    ensures small { result ≤ LARGEST_ANSWER }
{
    if j == 0 && i == 0 {
        return 0;
    }
    setup.registry().ask(setup.cost(), &mut Meter::new(), i, j)
}
