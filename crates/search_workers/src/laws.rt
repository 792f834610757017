//! Laws of rounds, each the contract of a function that does nothing.
ghost use Rattle.search_workers.specs.Given.{Laws};
ghost use Rattle.search_workers.specs.Laws.{RoundsAreWithin, SkipsWereDenied};

use board_lock::commits_stay_in_views;
use board_rules::{
    current_vehicles_keep_their_routes, histories_grow_by_entries,
    prefixes_of_legal_histories_are_legal, proposals_commit_exactly,
};
use move_core::moves_save_the_same;

/// The laws of histories and moves on which the law of rounds stands.
pub(crate) fn laws_below()
    ensures { Laws }
{
    commits_stay_in_views();
    histories_grow_by_entries();
    prefixes_of_legal_histories_are_legal();
    proposals_commit_exactly();
    current_vehicles_keep_their_routes();
    moves_save_the_same();
}

/// Each round went from one prefix of the desk's last list to another, both of which extend what the desk had seen at first. So the state
/// in which a move was found, and the place of each entry, are points of the history that the desk has seen in the end.
pub fn rounds_are_within()
    ensures { RoundsAreWithin }
{}

/// Each move that a round skips was proposed by an earlier round at the same version, and was denied, other than as stale. That entry is
/// one of the desk's own, among those that the rounds left.
pub fn skips_were_denied()
    ensures { SkipsWereDenied }
{}
