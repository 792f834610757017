ghost use Rattle.std.specs.Prelude.{◌≡◌, ℕ, ◌+◌, ◌-◌, ◌*◌, ◌≤◌, All, List, length, MatchOption, IfNone, IfSome};
ghost use Rattle.callback_store.specs.Meter.{AsksJust, AsksAtMost};
ghost use Rattle.dimension_core.specs.Cumuls.{route_asks};
ghost use Rattle.dimension_core.specs.Feasible.{FitsAll, IsFirstOut};
ghost use Rattle.dimension_core.specs.Misses.{IsFirstMissIn};
ghost use Rattle.dimension_core.specs.Setting.{Setting, IsSetting};
ghost use Rattle.dimension_core.specs.Setup.{setting};

use crate::setup::Setup;
use callback_store::Meter;

/// The first dimension in which the vehicle's route is out of bounds, or none where the route is in bounds in each.
///
/// Dimensions count from 1, vehicles from 1 to that of the setup, and the route's customers are nodes from 0 on.
/// It asks the callback of each dimension once for each customer and once for the return, and not at all where the route is empty. In the
/// first dimension in which the route is out of bounds it asks up to the first stop without a cumul, and in those after it not at all.
pub fn first_out(setup: &Setup, vehicle: u32, route: &[u32], meter: &mut Meter) -> Option<u32>
    requires known { All (λ c. c ≤ (setting setup.now).customers) route.now }
    requires low { 1 ≤ vehicle }
    requires high { vehicle ≤ (setting setup.now).vehicles }
    ensures first { MatchOption result (FitsAll (setting setup.now) vehicle route.now) (IsFirstOut (setting setup.now) vehicle route.now) }
    ensures asks { AsksAtMost meter.old meter.new (length (setting setup.now).dimensions * route_asks route.now) }
    ensures whole { IfNone result (AsksJust meter.old meter.new (length (setting setup.now).dimensions * route_asks route.now)) }
    ensures missed { IfSome result (λ d. (k : ℕ) × IsFirstMissIn (setting setup.now) (d - 1) vehicle route.now k
        × AsksJust meter.old meter.new ((d - 1) * route_asks route.now + k)) }
    ensures sound { IsSetting (setting setup.now) }
{
    for (k, dimension) in setup.dimensions().iter().enumerate() {
        if !dimension.in_bounds(setup.registry(), route, vehicle, meter) {
            return Some(k as u32 + 1);
        }
    }
    None
}

/// A law of the definitions: a route is first out of bounds in one dimension at most, and then not in bounds in all.
pub fn first_out_is_alone()
    ensures one { (s : Setting) (vehicle : ℕ) (route : List ℕ) (d e : ℕ) → IsFirstOut s vehicle route d → IsFirstOut s vehicle route e
        → d ≡ e }
    ensures out { (s : Setting) (vehicle : ℕ) (route : List ℕ) (d : ℕ) → IsFirstOut s vehicle route d → ¬ FitsAll s vehicle route }
{}
