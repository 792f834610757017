//! Tests of the crates of texts, from words to the engine of lines, and of boards of one thread and their fronts, in a crate of their own,
//! so that what they stand on is not proved once more for them.
#![tactic(auto)]

#[cfg(test)]
mod boards;
#[cfg(test)]
mod comparing;
#[cfg(test)]
mod counted;
#[cfg(test)]
mod engine;
#[cfg(test)]
mod fronts;
#[cfg(test)]
mod instances;
#[cfg(test)]
mod journal;
#[cfg(test)]
mod lines;
#[cfg(test)]
mod replies;
#[cfg(test)]
mod scripts;
#[cfg(test)]
mod setups;
#[cfg(test)]
mod travels;
#[cfg(test)]
mod words;
