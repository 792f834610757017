//! New routes of vehicles, written or as drafts.
ghost use Rattle.std.specs.Prelude.{◌≡◌};
ghost use Rattle.plan_core.specs.Drafts.{DraftState};

use crate::draft::Draft;
use crate::route::Route;
use std::sync::Arc;

/// The new route of a vehicle, which is judged as a draft: of one that is written nothing stays.
pub trait NewRoute {
    // The new route as a draft.
    ghost draft: { Self → DraftState };

    /// The vehicle, counted from 1.
    fn named(&self) -> u32
        ensures { result ≡ (draft self.now).vehicle };

    /// How many of the first customers of the vehicle's route stay where they are.
    fn stays(&self) -> usize
        ensures { result ≡ (draft self.now).kept };

    /// The customers after those, in order.
    fn follows(&self) -> &[u32]
        ensures { result.now ≡ (draft self.now).rest };
}

impl NewRoute for Draft {
    ghost draft = { λ draft. draft };

    #[inline(always)]
    fn named(&self) -> u32 {
        self.vehicle()
    }

    #[inline(always)]
    fn stays(&self) -> usize {
        self.kept()
    }

    #[inline(always)]
    fn follows(&self) -> &[u32] {
        self.rest()
    }
}

impl NewRoute for (u32, Arc<Route>) {
    ghost draft = { λ change. record { vehicle = change.0; kept = 0; rest = change.1.value } };

    #[inline(always)]
    fn named(&self) -> u32 {
        self.0
    }

    #[inline(always)]
    fn stays(&self) -> usize {
        0
    }

    #[inline(always)]
    fn follows(&self) -> &[u32] {
        self.1.customers()
    }
}
