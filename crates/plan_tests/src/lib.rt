//! Tests of the crates that make up the plan, in a crate of their own, so that what they stand on is not proved once more for them.
#![tactic(auto)]

#[cfg(test)]
mod callbacks;
#[cfg(test)]
mod comparing;
#[cfg(test)]
mod dimensions;
#[cfg(test)]
mod faults;
#[cfg(test)]
mod meters;
#[cfg(test)]
mod moves;
#[cfg(test)]
mod new_routes;
#[cfg(test)]
mod pins;
#[cfg(test)]
mod plans;
#[cfg(test)]
mod ranges;
