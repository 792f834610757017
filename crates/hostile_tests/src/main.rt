//! Tests of hostile use: memory that runs out at each place of a call, and a board as large as it may be.
#![tactic(auto)]

#[cfg(test)]
mod beside;
#[cfg(test)]
mod boards;
#[cfg(test)]
mod early;
#[cfg(test)]
mod full;
#[cfg(test)]
mod given_up;
#[cfg(test)]
mod openings;
#[cfg(test)]
mod rounds;
#[cfg(test)]
mod rows;
#[cfg(test)]
mod runs;
#[cfg(test)]
mod scarce;
#[cfg(test)]
mod setups;
#[cfg(test)]
mod tests;
#[cfg(test)]
mod works;

fn main() {}
