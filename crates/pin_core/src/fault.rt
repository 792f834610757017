use thiserror::Error;

/// Why new routes are not allowed. Frozen fronts are judged before pins.
#[derive(Clone, Copy, Debug, PartialEq, Eq, Error)]
pub enum PinFault {
    /// The frozen front of this vehicle would differ: the first such vehicle in the order of the new routes.
    #[error("the frozen front of a route would change")]
    Frozen(u32),
    /// The customer that was touched at this vehicle and place would leave the vehicle to which it is pinned: the first such touch.
    #[error("a pinned customer would leave its vehicle")]
    Pinned(u32, u32),
}
