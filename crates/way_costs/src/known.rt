//! What ways cost, read where the cost callback was given as its answers.
ghost use Rattle.std.specs.Prelude.{◌≡◌, ◌≤◌, ◌<◌, ◌+◌, ◌*◌, IfSome};
ghost use Rattle.callback_store.specs.Tables.{table_at};
ghost use Rattle.dimension_core.specs.Setup.{setting};
ghost use Rattle.way_costs.specs.Known.{AreAlike, AreAnswers};
ghost use Rattle.way_costs.specs.Ways.{hop, hop_by};

use dimension_core::Setup;

/// All answers of the cost callback, row by row, where it was given as these.
#[inline(always)]
pub(crate) fn known_ways(setup: &Setup) -> Option<&[u32]>
    ensures { IfSome result (λ a. AreAnswers (setting setup.now) a.now) }
{
    setup.registry().answers(setup.cost())
}

/// Whether the ways that are driven or driven back are read as they are driven back. Where both ways have one answer, none is: then what is
/// read of a stop lies in its own row, and the next reader of that row finds it near.
#[inline(always)]
pub(crate) fn is_read_across(setup: &Setup, turned: bool) -> bool
    ensures { AreAlike (setting setup.now) result turned }
{
    turned && !setup.registry().is_symmetric(setup.cost())
}

/// What the way from a stop to another one costs, by all answers.
#[inline(always)]
fn known_hop(setup: &Setup, answers: &[u32], i: u32, j: u32) -> u32
    requires known { AreAnswers (setting setup.now) answers.now }
    requires from { i ≤ (setting setup.now).customers }
    requires to { j ≤ (setting setup.now).customers }
    ensures { result ≡ hop (table_at (setting setup.now).tables (setting setup.now).cost) i j }
{
    if i == 0 && j == 0 {
        return 0;
    }
    let nodes = setup.customers() as usize + 1;
    answers[i as usize * nodes + j as usize]
}

/// The same, as it is driven or driven back.
#[inline(always)]
pub(crate) fn known_by(setup: &Setup, answers: &[u32], turned: bool, i: u32, j: u32) -> u32
    requires known { AreAnswers (setting setup.now) answers.now }
    requires from { i ≤ (setting setup.now).customers }
    requires to { j ≤ (setting setup.now).customers }
    ensures { result ≡ hop_by turned (table_at (setting setup.now).tables (setting setup.now).cost) i j }
{
    if turned {
        known_hop(setup, answers, j, i)
    } else {
        known_hop(setup, answers, i, j)
    }
}
