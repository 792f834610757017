//! Laws of the definitions, each the contract of a function that does nothing.
ghost use Rattle.std.specs.Prelude.{◌≡◌, ℕ, ◌≤◌, ◌⊎◌, List, Bool, length, replicate, Some, None, All};
ghost use Rattle.plan_core.specs.declared.touch.Touch.{Touch};
ghost use Rattle.plan_core.specs.Plan.{Changes, AreApart, route_at};
ghost use Rattle.plan_core.specs.Commits.{named_vehicles};
ghost use Rattle.pin_core.specs.declared.fault.PinFault.{PinFault};
ghost use Rattle.pin_core.specs.Pins.{PinState, StandsOn, IsHeld, DoPinsHold, AreFreezesKept, DoFrontsFit, pin_of, front_of, with_pin, with_front};
ghost use Rattle.pin_core.specs.Allowed.{IsTouched, AreAllTouched, IsPinFault};
ghost use Rattle.pin_core.specs.Override.{DoPinsPass, IsFaultWith, after_commit};
ghost use Rattle.pin_core.specs.Laws.{FreezesAreByNamed};

use plan_core::routes_replaced;

/// At first no customer is pinned and no stop is frozen: the pins hold in any routes, and the frozen lengths are within them.
pub fn opening_holds()
    ensures holding { (customers vehicles : ℕ) (routes : List (List ℕ))
        → DoPinsHold (record { pins = replicate customers None; fronts = replicate vehicles 0 }) routes }
    ensures fitting { (customers vehicles : ℕ) (routes : List (List ℕ))
        → DoFrontsFit (record { pins = replicate customers None; fronts = replicate vehicles 0 }) routes }
{}

/// A customer that is pinned to the vehicle on which it stands keeps the pins holding.
pub fn pin_holds()
    ensures { (s : PinState) (routes : List (List ℕ)) (c v : ℕ) → DoPinsHold s routes → 1 ≤ c → c ≤ length s.pins → StandsOn routes c v
        → DoPinsHold (with_pin c (Some v) s) routes }
{}

/// Taking a pin away keeps the others holding.
pub fn unpin_holds()
    ensures { (s : PinState) (routes : List (List ℕ)) (c : ℕ) → DoPinsHold s routes → 1 ≤ c
        → c ≤ length s.pins → DoPinsHold (with_pin c None s) routes }
{}

/// A frozen length that is at most its route's, or at most the one before, keeps all of them within their routes.
pub fn fronts_within_routes()
    ensures freeze { (s : PinState) (routes : List (List ℕ)) (v f : ℕ) → DoFrontsFit s routes → 1 ≤ v → v ≤ length s.fronts
        → f ≤ length (route_at routes v) → DoFrontsFit (with_front v f s) routes }
    ensures thaw { (s : PinState) (routes : List (List ℕ)) (v f : ℕ) → DoFrontsFit s routes → 1 ≤ v → v ≤ length s.fronts
        → v ≤ length routes → f ≤ front_of s v → DoFrontsFit (with_front v f s) routes }
{}

/// Where the freezes are kept, no frozen length is above its new route's either.
pub fn front_still_fits()
    ensures { (s : PinState) (routes others : List (List ℕ)) → length others ≡ length routes → AreFreezesKept s routes others
        → DoFrontsFit s routes → DoFrontsFit s others }
{}

/// The freezes are kept exactly where each named vehicle keeps its front.
pub fn freezes_by_named()
    ensures { FreezesAreByNamed }
{
    routes_replaced();
}

/// New routes have at most one fault, and none where they are allowed, whether all pins are judged or some of them are overridden.
pub fn faults_are_determined()
    ensures only { (s : PinState) (routes others : List (List ℕ)) (changes : Changes) (touched : List Touch) (f g : PinFault)
        → AreApart (length routes) changes
        → IsPinFault s routes others (named_vehicles changes) touched f → IsPinFault s routes others (named_vehicles changes) touched g
        → f ≡ g }
    ensures excludes { (s : PinState) (routes others : List (List ℕ)) (changes : Changes) (touched : List Touch) (f : PinFault)
        → AreApart (length routes) changes
        → All (λ t. 1 ≤ t.customer) touched → IsPinFault s routes others (named_vehicles changes) touched f
        → ¬ (AreFreezesKept s routes others × DoPinsHold s others) }
    ensures only_with { (s : PinState) (routes others : List (List ℕ)) (changes : Changes) (touched : List Touch) (free : List Bool)
        (f g : PinFault) → AreApart (length routes) changes
        → IsFaultWith s routes others (named_vehicles changes) touched free f
        → IsFaultWith s routes others (named_vehicles changes) touched free g → f ≡ g }
    ensures excludes_with { (s : PinState) (routes others : List (List ℕ)) (changes : Changes) (touched : List Touch) (free : List Bool)
        (f : PinFault) → AreApart (length routes) changes
        → IsFaultWith s routes others (named_vehicles changes) touched free f
        → ¬ (AreFreezesKept s routes others × DoPinsPass s others touched free) }
{}

/// After a commit, the pin of a customer that stands on its vehicle is as before, and every other pin is gone. So the pins hold, and where
/// they held all along nothing changes. A customer that was pinned stands on its vehicle or was touched.
pub fn pins_after_commits()
    ensures kept { (s : PinState) (routes : List (List ℕ)) (c v : ℕ) → 1 ≤ c → StandsOn routes c v → pin_of s c ≡ Some v
        → pin_of (after_commit routes s) c ≡ Some v }
    ensures gone { (s : PinState) (routes : List (List ℕ)) (c : ℕ) → 1 ≤ c → ¬ IsHeld s routes c → pin_of (after_commit routes s) c ≡ None }
    ensures none { (s : PinState) (routes : List (List ℕ)) (c : ℕ) → 1 ≤ c → pin_of s c ≡ None → pin_of (after_commit routes s) c ≡ None }
    ensures holding { (s : PinState) (routes : List (List ℕ)) → DoPinsHold (after_commit routes s) routes }
    ensures same { (s : PinState) (routes : List (List ℕ)) → DoPinsHold s routes → after_commit routes s ≡ s }
    ensures counted { (s : PinState) (routes : List (List ℕ)) → length (after_commit routes s).pins ≡ length s.pins }
    ensures touched { (s : PinState) (routes others : List (List ℕ)) (touched : List Touch) → DoPinsHold s routes
        → AreAllTouched routes others touched → (c : ℕ) → 1 ≤ c → IsHeld s others c ⊎ IsTouched touched c }
{}
