use thiserror::Error;

/// Why a setup was refused, in the order in which the reasons are tried.
#[derive(Clone, Copy, Debug, PartialEq, Eq, Error)]
pub enum SetupFault {
    /// Customers or vehicles are not 1 to 1,000, or not those of each dimension, or not those of the callbacks, if any.
    #[error("the number of customers or vehicles is not 1 to 1,000, or not that of the dimensions and callbacks")]
    Size,
    /// The cost's callback, or that of a dimension, is not registered.
    #[error("a callback is not registered")]
    NoTransit,
    /// There are more than 8 dimensions.
    #[error("there are more than 8 dimensions")]
    Many,
    /// The greatest number of events is not 1 to 16,777,216.
    #[error("the number of events is not 1 to 16,777,216")]
    Limit,
}
