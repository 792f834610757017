//! Two workers that find the same move, of which the second one proposes first.
ghost use Rattle.std.specs.Prelude.{◌≡◌, ◌≤◌, All, IfSome, length};
ghost use Rattle.dimension_core.specs.Setup.{setting};

use crate::workers::alone::{LAID_OUT, ends_of};
use board_lock::{Desk, Foyer, Naming};
use desk_fixtures::{audit, open_all, play};
use search_workers::{Gate, Outcome, Point, Share, Tally, work_all};
use std::alloc::Global;
use std::process::Abort;
use std::sync::Wait;
use std::sync::atomic::{AtomicU64, Ordering};
use std::thread::{Threads, yield_now};

/// Waits until a word is no less than this, or ten million turns are over, so that a test ends by itself.
pub(crate) fn wait_for(word: &AtomicU64, least: u64) {
    for _turn in 0..10_000_000u32 {
        if word.load(Ordering::SeqCst) >= least {
            return;
        }
        yield_now();
    }
}

/// Says that something is done.
pub(crate) fn say(word: &AtomicU64) {
    word.fetch_add(1, Ordering::SeqCst);
}

/// Holds two workers until both have looked, and the first one before its proposal until the second one has its reply.
#[derive(Drop)]
struct Crossed {
    /// How many have looked.
    looked: AtomicU64,
    /// Whether the second one has its reply.
    replied: AtomicU64,
    /// What it heard of rounds that are over: 1 for the one round of the first one, if denied, 10 for that of the second one, if committed, and
    /// 100 for anything else.
    heard: AtomicU64,
}

impl<W: Wait> Gate<W> for Crossed {
    fn pass(&self, _rt: &W, worker: u32, _round: u32, point: Point) {
        match point {
            Point::Seen => {
                say(&self.looked);
                wait_for(&self.looked, 2);
            }
            Point::Before => {
                if worker == 1 {
                    wait_for(&self.replied, 1);
                }
            }
            Point::After => {
                if worker == 2 {
                    say(&self.replied);
                }
            }
        }
    }

    fn done(&self, _rt: &W, worker: u32, round: u32, outcome: Outcome) {
        let what = match (worker, round, outcome) {
            (1, 1, Outcome::Denied) => 1,
            (2, 1, Outcome::Committed) => 10,
            _ => 100,
        };
        self.heard.fetch_add(what, Ordering::SeqCst);
    }
}

/// As many workers as there are sessions and seeds, past a gate.
pub(crate) fn at_once<
    N: Naming + Send + Sync,
    R: Wait + Drop + Send + Sync,
    W: Threads + Wait + Sync,
    G: Gate<W> + Sync,
>(
    rt: &W,
    desks: Vec<Desk<N, R>>,
    sessions: &[u32],
    seeds: &[u64],
    rounds: u32,
    gate: &G,
) -> Option<Vec<Share<N, R>>>
    requires { All (λ d. setting d.setup.value ≡ N.opening.setting) desks.items }
    ensures { IfSome result (λ v. All (λ s. setting s.desk.setup.value ≡ N.opening.setting) v.items) }
{
    let many = desks.len();
    if many > 63 || sessions.len() != many || seeds.len() != many {
        return None;
    }
    let alloc = *desks.allocator();
    let sessions = Vec::from_slice(alloc, sessions).ok()?;
    let seeds = Vec::from_slice(alloc, seeds).ok()?;
    work_all(rt, desks, sessions, seeds, rounds, gate).ok()
}

/// The tallies of two shares.
fn two_of<N: Naming, R: Wait + Drop>(shares: &[Share<N, R>]) -> Option<(Tally, Tally)> {
    match shares {
        [one, two] => Some((one.tally, two.tally)),
        _ => None,
    }
}

/// What came of two workers: their tallies, what their gate heard of rounds that are over, and the journal.
#[derive(Drop)]
pub(crate) struct Two {
    tallies: Option<(Tally, Tally)>,
    heard: u64,
    journal: Option<String>,
}

/// Both workers look before either proposes, and worker 1 proposes after worker 2 has its reply. So both run at once, the second one commits,
/// and the first one is denied as stale.
pub(crate) fn works_crossed<
    N: Naming + Send + Sync,
    R: Wait + Drop + Send + Sync,
    W: Threads + Wait + Sync,
>(rt: &W, alloc: Global, foyer: Foyer<R>) -> Option<Two>
    requires opening { foyer.room.opening ≡ N.opening }
    requires book { foyer.room.book ≡ N.book }
{
    let (desks, mut own) = open_all::<N, R>(alloc, foyer)?;
    play(rt, alloc, &own.setup, &mut own.seat, LAID_OUT);
    let gate = Crossed {
        looked: AtomicU64::new(0),
        replied: AtomicU64::new(0),
        heard: AtomicU64::new(0),
    };
    let shares = at_once(rt, desks, &[1, 1], &[3, 4], 1, &gate)?;
    Some(Two {
        tallies: two_of(shares.as_slice()),
        heard: gate.heard.load(Ordering::SeqCst),
        journal: audit(rt, alloc, &mut own.seat),
    })
}

const JOURNAL: &str = "event 1 3 1 | 1 grant root audit board | done
event 2 3 2 | 1 grant root move vehicle 1 1 | done
event 3 3 3 | 1 grant root move customer 1 3 | done
event 4 3 4 | 1 insert 2 1 1 0 | committed 1
event 5 3 5 | 1 insert 1 1 2 1 | committed 2
event 6 3 6 | 1 insert 3 1 3 2 | committed 3
event 7 2 1 | 1 shift 1 1 1 1 2 3 | committed 4
event 8 1 1 | 1 shift 1 1 1 1 2 3 | denied stale 1
end
";

pub(crate) fn compare_crossed(rt: &impl Abort, ended: &Option<Two>) {
    let Some(
        Two {
            tallies: Some((one, two)),
            heard,
            journal: Some(journal),
        },
    ) = ended
    else {
        return assert!(rt; false);
    };
    assert_eq!(rt; ends_of(*one), (0u32, 1u32, 0u32, 0u32));
    assert_eq!(rt; ends_of(*two), (1u32, 0u32, 0u32, 0u32));
    assert_eq!(rt; *heard, 11);
    assert_eq!(rt; journal.as_str(), JOURNAL);
}
