//! Foyers and desks.
ghost use Rattle.std.specs.Prelude.{◌≡◌, ◌≤◌, All, IfSome};
ghost use Rattle.dimension_core.specs.Setup.{setting};

use board_core::Board;
use board_lock::{Desk, Foyer, Naming, make_foyer, open_hall};
use dimension_core::Setup;
use limits::MOST_DESKS;
use std::alloc::Global;
use std::sync::{Arc, Wait};

/// The foyer of a new board of so many desks.
pub fn foyer_of<R: Wait + Drop>(
    rt: R,
    alloc: Global,
    setup: Arc<Setup>,
    desks: u32,
) -> Option<Foyer<R>>
    requires low { 1 ≤ desks }
    requires high { desks ≤ MOST_DESKS }
{
    let board = Board::new(alloc, setup, desks).ok()?;
    make_foyer(rt, alloc, board).ok()
}

/// The last one of some desks, which is taken from them.
pub fn last<N: Naming, R: Wait + Drop>(desks: &mut Vec<Desk<N, R>>) -> Option<Desk<N, R>>
    requires { All (λ d. setting d.setup.value ≡ N.opening.setting) desks.old.items }
    ensures others { All (λ d. setting d.setup.value ≡ N.opening.setting) desks.new.items }
    ensures last { IfSome result (λ d. setting d.setup.value ≡ N.opening.setting) }
{
    desks.pop()
}

/// The desks of a new hall, the last one apart.
pub fn open_all<N: Naming, R: Wait + Drop>(
    alloc: Global,
    foyer: Foyer<R>,
) -> Option<(Vec<Desk<N, R>>, Desk<N, R>)>
    requires opening { foyer.room.opening ≡ N.opening }
    requires book { foyer.room.book ≡ N.book }
    ensures others { IfSome result (λ t. All (λ d. setting d.setup.value ≡ N.opening.setting) t.0.items) }
    ensures last { IfSome result (λ t. setting t.1.setup.value ≡ N.opening.setting) }
{
    let Ok(mut desks) = open_hall::<N, R>(alloc, foyer) else {
        return None;
    };
    let own = last(&mut desks)?;
    Some((desks, own))
}

/// The last two desks of a new hall.
pub fn open_two<N: Naming, R: Wait + Drop>(
    alloc: Global,
    foyer: Foyer<R>,
) -> Option<(Desk<N, R>, Desk<N, R>)>
    requires opening { foyer.room.opening ≡ N.opening }
    requires book { foyer.room.book ≡ N.book }
    ensures first { IfSome result (λ t. setting t.0.setup.value ≡ N.opening.setting) }
    ensures second { IfSome result (λ t. setting t.1.setup.value ≡ N.opening.setting) }
{
    let Ok(mut desks) = open_hall::<N, R>(alloc, foyer) else {
        return None;
    };
    let two = last(&mut desks)?;
    let one = last(&mut desks)?;
    Some((one, two))
}
