//! Tests of the crates that make up the policy, in a crate of their own, so that what they stand on is not proved once more for them.
#![tactic(auto)]

#[cfg(test)]
mod comparing;
#[cfg(test)]
mod hierarchies;
#[cfg(test)]
mod permissions;
#[cfg(test)]
mod policies;
#[cfg(test)]
mod scripts;
#[cfg(test)]
mod separation;
#[cfg(test)]
mod steps;
#[cfg(test)]
mod tables;
