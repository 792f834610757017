//! Tests of the neighbourhood, in a crate of their own, so that what they stand on is not proved once more for them.
#![tactic(auto)]

#[cfg(test)]
mod draw;
#[cfg(test)]
mod plain;
#[cfg(test)]
mod tests;
#[cfg(test)]
mod three;
#[cfg(test)]
mod views;
