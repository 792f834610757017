//! The longest common prefix of two routes.
ghost use Rattle.std.specs.Prelude.{◌≡◌};
ghost use Rattle.plan_core.specs.Front.{IsCommonFront, common_front};

/// The length of the longest common prefix of two routes: how many customers are the same from the first one on.
///
/// It walks the common prefix alone.
pub fn common_front(route: &[u32], other: &[u32]) -> usize
    ensures value { result ≡ common_front route.now other.now }
    ensures front { IsCommonFront route.now other.now result }
{
    for (place, customer) in route.iter().enumerate() {
        if place >= other.len() {
            return place;
        }
        if other[place] != *customer {
            return place;
        }
    }
    route.len()
}
