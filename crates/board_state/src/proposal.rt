//! Proposals: the first rule that fails, and what passes them all.
ghost use Rattle.std.specs.Prelude.{◌≡◌, ◌≤◌, ℕ, true, length, All, None, Some, IfOk, IfErr, IfSome, OnOk, MatchOption};
ghost use Rattle.dimension_core.specs.NewRoutes.{AllKnown};
ghost use Rattle.dimension_core.specs.Setting.{Setting};
ghost use Rattle.dimension_core.specs.Setup.{setting};
ghost use Rattle.std.specs.List.{list_all};
ghost use Rattle.std.specs.Option.{option_map};
ghost use Rattle.plan_core.specs.Drafts.{AreFrontsWithin, drafts_of};
ghost use Rattle.plan_core.specs.Plan.{AreChanges, IsPlan, changes_of, route_at};
ghost use Rattle.plan_core.specs.Commits.{named_vehicles};
ghost use Rattle.pin_core.specs.Pins.{DoPinsHold, DoFrontsFit};
ghost use Rattle.move_core.specs.Moves.{vehicles_of, named_by, changes_by, effect};
ghost use Rattle.move_core.specs.Touched.{touched_by};
ghost use Rattle.permission_table.specs.Tables.{rows_at, rows_of};
ghost use Rattle.range_cache.specs.Pending.{AreNewRows};
ghost use Rattle.board_rules.specs.Rules.{is_one_of, IsVerdictBy, PassesEffect, PassesCustomers, PassesAll};
ghost use Rattle.board_rules.specs.declared.call.Call.TheVariants.{Propose};
ghost use Rattle.board_state.specs.Held.{held_basis, IsReady};
ghost use Rattle.board_state.specs.Changes.{ArePlaceableRoutes, AreMadeBy};
ghost use Rattle.board_state.specs.Verdicts.{ArePlaceable, IsStop, ComesEarly, IsLate, IsWorkOfMove, early_least};
ghost use Rattle.board_state.specs.Work.{Works, IsWithinCost};

use crate::change::NewRoutes;
use crate::rules::are_in_fleet;
use crate::state::State;
use crate::stop::Stop;
use board_rules::{Denial, plans_are_judged_by_new_routes};
use callback_store::Meter;
use dimension_core::Setup;
use limits::MOST_CUSTOMERS;
use move_core::{Move, moves_keep_plans, moves_keep_the_untouched, moves_name_vehicles};
use pin_core::pins_after_commits;
use plan_core::{Drafts, Route, Touch, routes_are_known};
use range_cache::JudgeFault;
use std::alloc::{AllocError, Global};
use std::mem::replace;
use std::sync::Arc;

/// What a proposal says: the session that gives it, the version on which it is based, and the move; and where the session's permissions are,
/// so that they are looked up once.
#[derive(Clone, Copy)]
pub(crate) struct Proposal<'a> {
    pub(crate) session: u32,
    pub(crate) place: Option<usize>,
    pub(crate) base: u32,
    pub(crate) mv: &'a Move,
}

impl State {
    /// The denial of a proposal by a rule that needs no list of touched customers and no new route.
    #[inline(always)]
    pub(crate) fn early_denial(
        &self,
        setup: &Setup,
        proposal: &Proposal,
        meter: &mut Meter,
    ) -> Option<Denial>
        requires ready { IsReady (setting setup.now) self.now }
        requires place { rows_at self.now.tables proposal.now.place ≡ rows_of self.now.tables proposal.now.session }
        ensures denial { MatchOption result
            (PassesEffect (setting setup.now) (held_basis self.now proposal.now.session) proposal.now.base proposal.now.mv.now)
            (λ d. IsVerdictBy (setting setup.now) (held_basis self.now proposal.now.session)
            proposal.now.base proposal.now.mv.now (Some d)) }
        ensures early { IfSome result ComesEarly }
        ensures work { Works meter.old meter.new 0 0
            (early_least (length (named_by proposal.now.mv.now)) result) (length (named_by proposal.now.mv.now)) }
    {
        let Proposal {
            session,
            place,
            base,
            mv,
        } = *proposal;
        let found = self.tables.rows_at(place);
        let named = mv.vehicles();
        // The access to the vehicles is asked first: a session that has it exists, and need not be looked for. The denial is still that of
        // the first rule that fails.
        let barred = self.first_barred_vehicle(session, found, named, meter);
        if !self.is_open(session, barred.is_none()) {
            return Some(Denial::NoSession);
        }
        if !are_in_fleet(setup.vehicles(), named) {
            return Some(Denial::BadVehicle);
        }
        if let Some(vehicle) = barred {
            return Some(Denial::AccessVehicle(vehicle));
        }
        if self.is_ahead(base) {
            return Some(Denial::Ahead);
        }
        if let Some(vehicle) = self.first_stale(base, named) {
            return Some(Denial::Stale(vehicle));
        }
        if !mv.is_possible(&self.plan) {
            return Some(Denial::BadPlace);
        }
        None
    }

    /// The rules from the touched customers on, of a move that has an effect: the new routes that it may put in place, or the first rule that
    /// it fails. Where a rule denies it, the kept memory is kept on.
    #[inline(always)]
    pub(crate) fn judge_move(
        &mut self,
        alloc: Global,
        setup: &Setup,
        proposal: &Proposal,
        meter: &mut Meter,
    ) -> Result<NewRoutes, Stop>
        requires ready { IsReady (setting setup.now) self.old }
        requires place { rows_at self.old.tables proposal.now.place ≡ rows_of self.old.tables proposal.now.session }
        requires passes { PassesEffect (setting setup.now) (held_basis self.old proposal.now.session)
            proposal.now.base proposal.now.mv.now }
        ensures same { self.new ≡ self.old }
        ensures passes { OnOk result
            (PassesAll (setting setup.now) (held_basis self.old proposal.now.session) proposal.now.base proposal.now.mv.now) }
        ensures changes { IfOk result (λ new. changes_of new.changes.items ≡ changes_by self.old.plan.routes proposal.now.mv.now) }
        ensures ready { IfOk result (ArePlaceableRoutes self.old) }
        ensures made { IfOk result (AreMadeBy self.old proposal.now.mv.now) }
        ensures ranges { IfOk result
            (λ new. AreNewRows (setting setup.now) (changes_by self.old.plan.routes proposal.now.mv.now) new.pending.rows) }
        ensures stop { IfErr result
            (IsStop (setting setup.now) (held_basis self.old proposal.now.session) proposal.now.base proposal.now.mv.now) }
        ensures work { IsWorkOfMove (setting setup.now) self.old proposal.now.mv.now
            0 (length (touched_by self.old.plan.routes proposal.now.mv.now)) result meter.old meter.new }
    {
        let Proposal {
            session,
            place,
            mv,
            ..
        } = *proposal;
        let kept = replace(&mut self.workspace.touched, Vec::new(alloc));
        let Ok(touched) = mv.touches_in(kept, &self.plan) else {
            return Err(Stop::NoMemory);
        };
        let found = self.tables.rows_at(place);
        if let Some(touch) = self.first_barred_customer(session, found, &touched, meter) {
            self.workspace.touched = touched;
            return Err(Stop::Denied(Denial::AccessCustomer(touch.vehicle, touch.place)));
        }
        self.judge_routes(alloc, setup, proposal, touched, meter)
    }

    /// The rules on the new routes: fronts, pins and bounds.
    #[inline(always)]
    fn judge_routes(
        &mut self,
        alloc: Global,
        setup: &Setup,
        proposal: &Proposal,
        touched: Vec<Touch>,
        meter: &mut Meter,
    ) -> Result<NewRoutes, Stop>
        requires ready { IsReady (setting setup.now) self.old }
        requires passes { PassesCustomers (setting setup.now) (held_basis self.old proposal.now.session)
            proposal.now.base proposal.now.mv.now }
        requires touched { touched.items ≡ touched_by self.old.plan.routes proposal.now.mv.now }
        ensures same { self.new ≡ self.old }
        ensures passes { OnOk result
            (PassesAll (setting setup.now) (held_basis self.old proposal.now.session) proposal.now.base proposal.now.mv.now) }
        ensures changes { IfOk result (λ new. changes_of new.changes.items ≡ changes_by self.old.plan.routes proposal.now.mv.now) }
        ensures ready { IfOk result (ArePlaceableRoutes self.old) }
        ensures made { IfOk result (AreMadeBy self.old proposal.now.mv.now) }
        ensures ranges { IfOk result
            (λ new. AreNewRows (setting setup.now) (changes_by self.old.plan.routes proposal.now.mv.now) new.pending.rows) }
        ensures stop { IfErr result
            (IsStop (setting setup.now) (held_basis self.old proposal.now.session) proposal.now.base proposal.now.mv.now) }
        ensures late { IfErr result IsLate }
        ensures work { IsWorkOfMove (setting setup.now) self.old proposal.now.mv.now 0 0 result meter.old meter.new }
    {
        pins_after_commits();
        let Proposal { session, mv, .. } = *proposal;
        let kept = replace(&mut self.workspace.drafts, Drafts::new(alloc));
        let Ok(drafts) = self.drafted(kept, mv, &touched) else {
            return Err(Stop::NoMemory);
        };
        let freed = match self.judge_pins(alloc, session, drafts.as_slice(), &touched, meter) {
            Ok(freed) => freed,
            Err(stop) => {
                self.workspace.keep(touched, drafts);
                return Err(stop);
            }
        };
        let cache = &self.cache;
        let rows = &mut self.workspace.rows;
        match cache.judge_in(rows, setup, &self.plan, drafts.as_slice(), meter) {
            Ok(pending) => {
                let Ok(changes) = self.written(alloc, drafts) else {
                    return Err(Stop::NoMemory);
                };
                Ok(NewRoutes {
                    changes,
                    touched,
                    freed,
                    pending,
                })
            }
            Err(JudgeFault::Bound(vehicle, dimension)) => {
                self.workspace.keep(touched, drafts);
                Err(Stop::Denied(Denial::Bound(vehicle, dimension)))
            }
            Err(JudgeFault::NoMemory) => Err(Stop::NoMemory),
        }
    }

    /// The drafts of the new routes of a move that has an effect, with the customers that it touches.
    #[inline(always)]
    fn drafted(&self, room: Drafts, mv: &Move, touched: &[Touch]) -> Result<Drafts, AllocError>
        requires pinned { length self.now.pins.pins ≡ self.now.plan.customers }
        requires frozen { length self.now.pins.fronts ≡ length self.now.plan.routes }
        requires holding { DoPinsHold self.now.pins self.now.plan.routes }
        requires fitting { DoFrontsFit self.now.pins self.now.plan.routes }
        requires touched { touched.now ≡ touched_by self.now.plan.routes mv.now }
        requires effect { effect self.now.plan.customers self.now.plan.routes mv.now ≡ Some (changes_by self.now.plan.routes mv.now) }
        ensures sound { IsPlan self.now.plan.customers self.now.plan.routes }
        ensures changes { IfOk result (λ drafts. drafts_of self.now.plan.routes drafts ≡ changes_by self.now.plan.routes mv.now) }
        ensures within { IfOk result (AreFrontsWithin self.now.plan.routes) }
        ensures named { named_vehicles (changes_by self.now.plan.routes mv.now) ≡ named_by mv.now }
        ensures known { (s : Setting) → length self.now.plan.routes ≡ s.vehicles → self.now.plan.customers ≡ s.customers
            → AllKnown s (changes_by self.now.plan.routes mv.now) }
        ensures short { OnOk result (All (λ c. length c.1 ≤ MOST_CUSTOMERS) (changes_by self.now.plan.routes mv.now)) }
        ensures placeable { OnOk result (ArePlaceable self.now (changes_by self.now.plan.routes mv.now) touched.now) }
    {
        moves_name_vehicles();
        moves_keep_plans();
        moves_keep_the_untouched();
        plans_are_judged_by_new_routes();
        routes_are_known();
        let _sound = self.plan.customers();
        match mv.drafts_in(room, &self.plan) {
            Ok(drafts) => Ok(drafts),
            Err(error) => Err(error),
        }
    }

    /// The new routes of drafts that pass every rule. The memory of the drafts is kept.
    #[inline(always)]
    fn written(
        &mut self,
        alloc: Global,
        drafts: Drafts,
    ) -> Result<Vec<(u32, Arc<Route>)>, AllocError>
        requires changes { AreChanges (length self.old.plan.routes) (drafts_of self.old.plan.routes drafts) }
        requires within { AreFrontsWithin self.old.plan.routes drafts }
        ensures same { self.new ≡ self.old }
        ensures changes { IfOk result (λ changes. changes_of changes.items ≡ drafts_of self.old.plan.routes drafts) }
    {
        let room = self
            .workspace
            .take_routes(alloc, drafts.as_slice().len() > 1);
        let changes = drafts.routes_in(room, alloc, &self.plan)?;
        self.workspace.drafts = drafts;
        Ok(changes)
    }

    /// The routes of the vehicles that the move names, as they are.
    pub(crate) fn former_routes(
        &self,
        mv: &Move,
    ) -> Result<(Arc<Route>, Option<Arc<Route>>), AllocError>
        requires { list_all (is_one_of (length self.now.plan.routes)) (named_by mv.now) ≡ true }
        ensures former { IfOk result (λ r. r.0.value ≡ route_at self.now.plan.routes (vehicles_of mv.now).0) }
        ensures other { IfOk result
            (λ r. option_map (λ route. route.value) r.1 ≡ option_map (route_at self.now.plan.routes) (vehicles_of mv.now).1) }
    {
        let (first, second) = mv.vehicles();
        let former = Arc::try_clone(self.plan.route(first))?;
        let Some(vehicle) = second else {
            return Ok((former, None));
        };
        let other = Arc::try_clone(self.plan.route(vehicle))?;
        Ok((former, Some(other)))
    }
}
