//! The touch of a move at a place.

ghost use Rattle.std.specs.Prelude.{◌≡◌, ◌==◌, ◌&&◌, find};

use plan_core::Touch;

/// The first of some touches that is at a place of a vehicle.
pub fn touch_at(touched: &[Touch], vehicle: u32, place: u32) -> Option<Touch>
    ensures { result ≡ find (λ t. (t.vehicle == vehicle) && (t.place == place)) touched.now }
{
    touched
        .iter()
        .copied()
        .find(|t| t.vehicle == vehicle && t.place == place)
}
