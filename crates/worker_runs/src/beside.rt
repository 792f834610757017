//! Live lines beside the workers.
ghost use Rattle.std.specs.Prelude.{◌≡◌, ◌≤◌, IfOk, IfErr, IfSome, length};
ghost use Rattle.dimension_core.specs.Setup.{setting};
ghost use Rattle.desk_text.specs.DeskRuns.{IsHeld, IsHeldAtStop};
ghost use Rattle.worker_runs.specs.Halls.{AllSearched};

use crate::search::{Searched, Waiting, join_all, start_crew};
use crate::setups::{SetupOf, Setups};
use board_lock::Naming;
use desk_text::{Seated, run_desk_lines};
use limits::MOST_WORKERS;
use line_engine::{Counts, RunFault};
use std::alloc::Global;
use std::io::{Eprint, Read, Write};
use std::sync::Wait;
use std::thread::Threads;
use std::time::Clock;

/// What comes of the live lines, and of the workers, if all of them were started.
pub(crate) type Both<N, D> = (Result<Counts, RunFault>, Option<Searched<N, D>>);

/// Answers live lines on a desk, while workers search from the other seats.
pub(crate) fn beside<
    N: Naming + Send + Sync + 'static,
    D: Wait + Drop + Send + Sync + 'static,
    S: Setups + Drop,
    W: Threads + Wait + Clock + Eprint + Copy + Send + Sync + 'static,
    I: Read,
    O: Write,
>(
    rt: W,
    alloc: Global,
    workers: Waiting<N, D>,
    front: &mut Seated<N, D, SetupOf<S>>,
    live: &mut I,
    writer: &mut O,
) -> Both<N, D>
    requires setup { setting workers.setup.value ≡ N.opening.setting }
    requires hall { S.setting_of front.old.setup.setup ≡ N.opening.setting }
    requires few { length workers.seats.items ≤ MOST_WORKERS }
    ensures ok { IfOk result.0 (λ counts. IsHeld N.opening front.old.seat front.new.seat (I.remaining live.old) (I.remaining live.new)
        (O.contents writer.old) (O.contents writer.new) counts.lines counts.refused) }
    ensures err { IfErr result.0 (λ fault. IsHeldAtStop N.opening fault front.old.seat front.new.seat
        (I.remaining live.old) (I.remaining live.new)
        (O.contents writer.old) (O.contents writer.new)) }
    ensures searched { IfSome result.1 (λ s. AllSearched N.opening workers.orders workers.seats.items s.seats.items s.tallies.items) }
{
    let crew = start_crew(rt, alloc, workers);
    let answered = run_desk_lines(&rt, alloc, front, live, writer);
    let searched = join_all(&rt, alloc, crew);
    (answered, searched)
}
