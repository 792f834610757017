//! Judged calls, put in place.
ghost use Rattle.std.specs.Prelude.{◌≡◌, ℕ, List};
ghost use Rattle.dimension_core.specs.Setting.{Setting};
ghost use Rattle.plan_core.specs.Plan.{Changes, changes_of, replaced, with_routes};
ghost use Rattle.pin_core.specs.Override.{after_commit};
ghost use Rattle.range_cache.specs.Cache.{IsCacheOf};
ghost use Rattle.range_cache.specs.Pending.{AreNewRows};
ghost use Rattle.policy_core.specs.State.{PolicyState};
ghost use Rattle.permission_table.specs.Compiled.{AreCompiled};
ghost use Rattle.board_rules.specs.State.{BoardState};
ghost use Rattle.board_state.specs.Held.{Holds, routes_with};
ghost use Rattle.board_state.specs.Changes.{WillHold, WillCompile, WillKeep, ArePlaceableRoutes, IsSettleable, IsGivenUp, GivesUp, policy_made, plan_after, pins_after};

use crate::change::{Change, Judged, NewRoutes, PinChange};
use crate::state::State;
use board_rules::Reply;

impl State {
    /// Puts a judged call in place, and gives its reply. It takes no memory.
    ///
    /// The contract requires that the state is equal, as contracts see it, to the one that `prepare` left when it judged the call. Contracts
    /// see what is held, what is tried on the spare policy, and how many rows there is room for. So pass what the last `prepare` of this
    /// state answered, and settle nothing in between: after a `settle`, `propose`, `hold`, `command`, `give_up` or another `prepare` the
    /// state may be another one, after `command` and `prepare` also where memory runs out.
    pub fn settle(&mut self, judged: Judged) -> Reply
        requires { judged.of ≡ self.old }
        ensures holds { (s : Setting) (next : BoardState) → WillHold s self.old judged.change next → Holds s self.new next }
        ensures untried { IsGivenUp judged.change self.old.policy → self.new.policy.tried ≡ self.new.policy.now }
        ensures reply { result ≡ judged.reply }
    {
        let Judged { reply, change, .. } = judged;
        self.enact(change);
        reply
    }

    /// Gives up the policy command that is tried, if there is one: nothing is tried any more, and all else stays. It takes no memory.
    pub fn give_up(&mut self)
        ensures all { GivesUp self.old self.new }
        ensures untried { self.new.policy.tried ≡ self.new.policy.now }
    {
        self.policy.give_up();
    }

    /// Puts a change in place. What is held then stands for the state to which the change leads.
    #[inline(always)]
    pub(crate) fn enact(&mut self, change: Change)
        requires { IsSettleable self.old change }
        ensures holds { (s : Setting) (next : BoardState) → WillHold s self.old change next → Holds s self.new next }
        ensures untried { IsGivenUp change self.old.policy → self.new.policy.tried ≡ self.new.policy.now }
    {
        self.put(change);
    }

    /// Puts a change in place.
    #[inline(always)]
    fn put(&mut self, change: Change)
        requires { IsSettleable self.old change }
        ensures policy { self.new.policy.now ≡ policy_made self.old.policy change }
        ensures tried { self.new.policy.tried ≡ self.old.policy.tried }
        ensures compiled { (p : PolicyState) → WillCompile self.old.tables change p → AreCompiled self.new.tables p }
        ensures customers { self.new.tables.customers ≡ self.old.tables.customers }
        ensures vehicles { self.new.tables.vehicles ≡ self.old.tables.vehicles }
        ensures plan { self.new.plan ≡ plan_after self.old.plan change }
        ensures pins { self.new.pins ≡ pins_after self.old change }
        ensures ranges { (s : Setting) (routes : List (List ℕ)) → WillKeep s self.old change routes → IsCacheOf s routes self.new.cache }
    {
        match change {
            Change::Nothing => {}
            Change::Replace(commit) => self.replace(commit.new),
            Change::Pins(PinChange::Pin(customer, vehicle)) => self.pins.pin(customer, vehicle),
            Change::Pins(PinChange::Unpin(customer)) => self.pins.unpin(customer),
            Change::Pins(PinChange::Front(vehicle, frozen)) => self.pins.freeze(vehicle, frozen),
            Change::Command(rows, command) => {
                self.policy.settle(command);
                self.tables.put(rows);
            }
        }
    }

    /// Gives the named vehicles their new routes and ranges, and takes away the pins of customers that left their vehicle. The memory of
    /// the lists and of the routes that are replaced is kept for the next. Out of line, so that a proposal that is denied pays nothing for it.
    #[inline(never)]
    pub(crate) fn replace(&mut self, new: NewRoutes)
        requires { ArePlaceableRoutes self.old new }
        ensures policy { self.new.policy ≡ self.old.policy }
        ensures tables { self.new.tables ≡ self.old.tables }
        ensures plan { self.new.plan ≡ replaced (changes_of new.changes.items) self.old.plan }
        ensures pins { self.new.pins ≡ after_commit (routes_with self.old new.changes.items) self.old.pins }
        ensures cache { (s : Setting) (routes : List (List ℕ)) (changes : Changes) → IsCacheOf s routes self.old.cache
            → AreNewRows s changes new.pending.rows → IsCacheOf s (with_routes changes routes) self.new.cache }
    {
        let NewRoutes {
            changes,
            touched,
            pending,
            ..
        } = new;
        let changes = self.plan.replace(changes);
        self.pins.release(&self.plan, &touched);
        let rows = self.cache.take(pending);
        self.workspace.touched = touched;
        self.workspace.keep_routes(changes);
        self.workspace.rows.refill(rows);
    }
}
