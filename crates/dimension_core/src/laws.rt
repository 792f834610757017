//! Laws of the definitions, each the contract of a function that does nothing.
ghost use Rattle.std.specs.Prelude.{ℕ, ◌↔◌, List};
ghost use Rattle.callback_store.specs.Tables.{Table};
ghost use Rattle.dimension_core.specs.Cumuls.{Bounds, AreCumuls, AreCumulsByPlace};
ghost use Rattle.dimension_core.specs.Laws.{SpansGoOn, SpansMeet};
ghost use Rattle.dimension_core.specs.Misses.{MissesAreFound};

/// The span of a route is carried along with `Dimension::start` and `Dimension::extend`.
pub fn spans_go_on()
    ensures { SpansGoOn }
{}

/// The cumuls from which the rest of a route can be travelled are carried backwards with `Dimension::precede`, and meet those from the
/// front.
pub fn spans_meet()
    ensures { SpansMeet }
{}

/// The first stop without a cumul is found with `Dimension::start` and `Dimension::extend`: it is the first with no span.
pub fn misses_are_found()
    ensures { MissesAreFound }
{}

/// A law of the definitions: cumuls by recursion, stop by stop, are cumuls by places.
pub fn cumuls_are_by_place()
    ensures { (t : Table) (d : Bounds) (vehicle : ℕ) (nodes cumuls : List ℕ) → AreCumuls t d vehicle nodes cumuls
        ↔ AreCumulsByPlace t d vehicle nodes cumuls }
{}
