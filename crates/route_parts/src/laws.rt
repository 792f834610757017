//! What the crates below promise, in one place.
ghost use Rattle.route_parts.specs.Given.{Laws};

use dimension_core::{spans_go_on, spans_meet};
use plan_core::routes_are_known;

/// The laws of plans and spans by which a new route is judged.
pub(crate) fn laws_below()
    ensures { Laws }
{
    routes_are_known();
    spans_go_on();
    spans_meet();
}
