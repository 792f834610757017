//! Tests of desks, in one thread, in threads of their own, and many of them, and of workers.
#![tactic(auto)]

#[cfg(test)]
mod beside;
#[cfg(test)]
mod calls;
#[cfg(test)]
mod faults;
#[cfg(test)]
mod one_thread;
#[cfg(test)]
mod scripts;
#[cfg(test)]
mod setups;
#[cfg(test)]
mod tests;
#[cfg(test)]
mod threads;
#[cfg(test)]
mod workers;

fn main() {}
