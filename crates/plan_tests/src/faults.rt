//! The texts of faults, a table a type.
use crate::comparing::all_written;
use callback_store::RegisterFault;
use dimension_core::{DimensionFault, SetupFault};
use move_core::MoveFault;
use pin_core::PinFault;

const REGISTER_FAULTS: &[(RegisterFault, &str)] = &[
    (
        RegisterFault::Size,
        "the callback does not know 2 to 1,001 nodes, or not as many as the first",
    ),
    (RegisterFault::Many, "there are 16 callbacks"),
    (RegisterFault::NoMemory, "out of memory"),
];

const DIMENSION_FAULTS: &[(DimensionFault, &str)] = &[
    (DimensionFault::NoTransit, "the callback is not registered"),
    (
        DimensionFault::Size,
        "the capacities are not 1 to 1,000, or there is not a range for each node",
    ),
    (
        DimensionFault::Range,
        "a range is empty, or a number is above 1,000,000,000,000",
    ),
];

const SETUP_FAULTS: &[(SetupFault, &str)] = &[
    (
        SetupFault::Size,
        "the number of customers or vehicles is not 1 to 1,000, or not that of the dimensions and callbacks",
    ),
    (SetupFault::NoTransit, "a callback is not registered"),
    (SetupFault::Many, "there are more than 8 dimensions"),
    (
        SetupFault::Limit,
        "the number of events is not 1 to 16,777,216",
    ),
];

const PIN_FAULTS: &[(PinFault, &str)] = &[
    (
        PinFault::Frozen(1),
        "the frozen front of a route would change",
    ),
    (
        PinFault::Pinned(1, 2),
        "a pinned customer would leave its vehicle",
    ),
];

const MOVE_FAULTS: &[(MoveFault, &str)] = &[
    (MoveFault::BadPlace, "the move has no effect"),
    (MoveFault::NoMemory, "out of memory"),
];

#[test]
fn texts_of_faults(rt: HostRuntime) {
    all_written(&rt, rt.alloc(), REGISTER_FAULTS);
    all_written(&rt, rt.alloc(), DIMENSION_FAULTS);
    all_written(&rt, rt.alloc(), SETUP_FAULTS);
    all_written(&rt, rt.alloc(), PIN_FAULTS);
    all_written(&rt, rt.alloc(), MOVE_FAULTS);
}
