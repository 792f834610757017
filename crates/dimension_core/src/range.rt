/// The whole numbers from `lo` to `hi`, both included. There is none where `lo` is above `hi`.
#[derive(Clone, Copy, Debug, PartialEq, Eq)]
pub struct Range {
    /// The least.
    pub lo: u64,
    /// The greatest.
    pub hi: u64,
}
