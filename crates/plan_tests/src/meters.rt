//! A comparison that several modules make.
use crate::comparing::same;
use callback_store::Meter;
use std::process::Abort;

pub(crate) fn compare_meter(rt: &impl Abort, found: Meter, asks: u64, probes: u64, walks: u64) {
    let wanted = Meter {
        asks,
        probes,
        walks,
    };
    same(rt, found, wanted, "what was asked for");
}
