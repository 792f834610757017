//! One board for three threads: a dispatcher who pins customers while two workers search.
#![tactic(auto)]

mod desks;
mod hall;
mod tasks;

use hall::open;
use std::io::Write;

fn main(rt: HostRuntime) {
    let _ = match open(rt, rt.alloc()) {
        Some(end) => writeln!(
            rt.stdout(),
            "{} stops, {} pins hold, {} rounds, versions rose: {}, one plan: {}",
            end.stops,
            end.pins,
            end.rounds,
            end.rose,
            end.agreed
        ),
        None => writeln!(rt.stderr(), "out of memory, or too few readers"),
    };
}
