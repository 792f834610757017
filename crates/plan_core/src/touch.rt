/// A customer that a change of the plan touches, and where it stands. Vehicles count from 1, and so do places within a route.
#[derive(Clone, Copy, PartialEq, Eq)]
pub struct Touch {
    pub vehicle: u32,
    pub place: u32,
    pub customer: u32,
}
