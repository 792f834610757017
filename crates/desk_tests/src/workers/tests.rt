//! The tests, each with a board of its own.
ghost use Rattle.std.specs.Prelude.{◌≡◌, ◌≤◌, ◌+◌, ◌*◌, ◌%◌};
ghost use Rattle.desk_tests.specs.Ways.{way};

use crate::setups::{free, three_on_a_line};
use crate::workers::alone::{compare_alone, works_alone};
use crate::workers::crossed::{compare_crossed, works_crossed};
use crate::workers::crowd::{compare_crowd, works_beside};
use crate::workers::held::{self, compare_held, works_held};
use crate::workers::noted::{compare_noted, works_noted};
use crate::workers::rights::{self, compare_rights};
use callback_store::Transit;
use desk_fixtures::foyer_of;
use limits::MOST_DESKS;
use std::alloc::Global;
use std::marker::Brand;
use std::process::Abort;
use std::sync::Wait;
use std::test::Fail;
use std::thread::Threads;

/// What is tried with three customers on a line.
#[derive(Clone, Copy, Drop)]
enum Kind {
    Alone,
    Held,
    Rights,
    Crossed,
    Noted,
}

impl Kind {
    fn vehicles(self) -> u32 {
        match self {
            Kind::Rights => 2,
            _ => 1,
        }
    }

    fn desks(self) -> u32
        ensures low { 1 ≤ result }
        ensures high { result ≤ MOST_DESKS }
    {
        match self {
            Kind::Crossed => 3,
            _ => 2,
        }
    }

    /// How many entries the journal has room for.
    fn events(self) -> u32 {
        match self {
            Kind::Alone => 20,
            Kind::Noted => 10,
            _ => 100,
        }
    }
}

/// Three customers on a line.
fn on_a_line<W: Threads + Wait + Abort + Sync>(
    rt: &W,
    alloc: Global,
    kind: Kind,
) -> Result<(), Fail> {
    let setup = three_on_a_line(alloc, kind.vehicles(), kind.events()).ok_or("a setup")?;
    let foyer = foyer_of(rt, alloc, setup, kind.desks()).ok_or("a foyer")?;
    match kind {
        Kind::Alone => compare_alone(rt, &works_alone::<Brand, _, _>(rt, alloc, foyer)),
        Kind::Held => {
            let ended = works_held::<Brand, _, _>(rt, alloc, foyer, &held::STORY);
            compare_held(rt, alloc, ended);
        }
        Kind::Rights => {
            let ended = works_held::<Brand, _, _>(rt, alloc, foyer, &rights::STORY);
            compare_rights(rt, alloc, ended);
        }
        Kind::Crossed => compare_crossed(rt, &works_crossed::<Brand, _, _>(rt, alloc, foyer)),
        Kind::Noted => compare_noted(rt, &works_noted::<Brand, _, _>(rt, alloc, foyer)),
    }
    Ok(())
}

#[test]
fn one_worker_alone(rt: HostRuntime) -> Result<(), Fail> {
    on_a_line(&rt, rt.alloc(), Kind::Alone)
}

#[test]
fn a_worker_is_held(rt: HostRuntime) -> Result<(), Fail> {
    on_a_line(&rt, rt.alloc(), Kind::Held)
}

#[test]
fn workers_whose_rights_change(rt: HostRuntime) -> Result<(), Fail> {
    on_a_line(&rt, rt.alloc(), Kind::Rights)
}

#[test]
fn two_workers_cross(rt: HostRuntime) -> Result<(), Fail> {
    on_a_line(&rt, rt.alloc(), Kind::Crossed)
}

#[test]
fn a_gate_hears_each_round(rt: HostRuntime) -> Result<(), Fail> {
    on_a_line(&rt, rt.alloc(), Kind::Noted)
}

/// The customers lie scattered on a square of 101 by 97, and a way costs what it takes along its two sides.
#[test]
fn eight_workers_beside_a_busy_desk(rt: HostRuntime) -> Result<(), Fail> {
    let alloc = rt.alloc();
    let drive = Box::new(
        alloc,
        move |i: u32, j: u32| -> u64
            ensures { result ≡ way (i % 1000 * 37 % 101) (j % 1000 * 37 % 101) + way (i % 1000 * 53 % 97) (j % 1000 * 53 % 97) }
        {
            let across = (i % 1000 * 37 % 101).abs_diff(j % 1000 * 37 % 101);
            let along = (i % 1000 * 53 % 97).abs_diff(j % 1000 * 53 % 97);
            u64::from(across) + u64::from(along)
        },
    )?;
    let drives = Transit::new(201, drive);
    let setup = free(alloc, drives, (200, 10), 100000).ok_or("a setup")?;
    let foyer = foyer_of(&rt, alloc, setup, 9).ok_or("a foyer")?;
    compare_crowd(&rt, alloc, works_beside::<Brand, _, _>(&rt, alloc, foyer));
    Ok(())
}
