//! Laws of the definitions, each the contract of a function that does nothing but cite the laws below it.
ghost use Rattle.std.specs.Prelude.{◌≡◌, ◌≢◌, ℕ, ◌+◌, ◌≤◌, ◌↔◌, ◌⊎◌, ◌==◌, ◌++◌, ◌∷◌, [], Bool, List, Option, Some, None, true, false, length, take, nat_lt, if◌then◌else◌};
ghost use Rattle.permission_core.specs.declared.objects.Operation.{Operation};
ghost use Rattle.permission_core.specs.declared.objects.Object.{Object};
ghost use Rattle.policy_core.specs.declared.refusal.Refusal.{Refusal as PolicyRefusal};
ghost use Rattle.policy_core.specs.State.{PolicyState};
ghost use Rattle.rbac_core.specs.declared.command.Command.{Command};
ghost use Rattle.rbac_core.specs.Numbers.{AreNumbersUsed, DoNumbersRise};
ghost use Rattle.rbac_core.specs.Step.{guard, refusal_of, outcome_of, after as carried_out};
ghost use Rattle.policy_core.specs.Access.{has_access, CheckAccess};
ghost use Rattle.dimension_core.specs.Setting.{Setting};
ghost use Rattle.dimension_core.specs.Feasible.{IsFeasible};
ghost use Rattle.dimension_core.specs.Laws.{SpansGoOn};
ghost use Rattle.dimension_core.specs.NewRoutes.{AllFit, AllKnown};
ghost use Rattle.plan_core.specs.declared.touch.Touch.{Touch};
ghost use Rattle.plan_core.specs.Plan.{StandsAt, IsPlaced, IsPlan, IsNamed, route_at};
ghost use Rattle.plan_core.specs.Commits.{IsCurrentAt, last_commit};
ghost use Rattle.pin_core.specs.Pins.{PinState, IsHeld};
ghost use Rattle.pin_core.specs.Allowed.{IsTouched};
ghost use Rattle.pin_core.specs.Override.{DoPinsPass, IsFirstForbidden};
ghost use Rattle.move_core.specs.declared.moves.Move.{Move};
ghost use Rattle.move_core.specs.Moves.{effect, changes_by};
ghost use Rattle.move_core.specs.Changed.{first_change};
ghost use Rattle.board_rules.specs.declared.call.Call.{Call};
ghost use Rattle.board_rules.specs.declared.call.Call.TheVariants.{Propose};
ghost use Rattle.board_rules.specs.declared.call.Entry.{Entry};
ghost use Rattle.board_rules.specs.declared.reply.Denial.{Denial};
ghost use Rattle.board_rules.specs.declared.reply.Refusal.{Refusal};
ghost use Rattle.board_rules.specs.declared.reply.Reply.{Reply};
ghost use Rattle.board_rules.specs.declared.reply.Reply.TheVariants.{Committed, Denied, Refused};
ghost use Rattle.board_rules.specs.Override.{DoPinsAllow, IsFirstHeldBack, AreAnswers};
ghost use Rattle.board_rules.specs.Policies.{board_refusal, outcome_reply, policy_reply, policy_after};
ghost use Rattle.board_rules.specs.Pinning.{vehicle_of};
ghost use Rattle.board_rules.specs.Delta.{spot_in};
ghost use Rattle.board_rules.specs.State.{BoardState, opening_state};
ghost use Rattle.board_rules.specs.Rules.{Basis, Agree, IsVerdictBy, is_changed_after, routes_after};
ghost use Rattle.board_rules.specs.Step.{IsReply, after};
ghost use Rattle.board_rules.specs.History.{Opening, History, state_from, state_after, turns_of, IsNext, IsLegal};
ghost use Rattle.board_rules.specs.Good.{IsGood, state_of, state_at};
ghost use Rattle.board_rules.specs.Listing.{RowShown, IsListing};
ghost use Rattle.board_rules.specs.Given.{Laws};
ghost use Rattle.board_rules.specs.Proposals.{MayCommit, IsFirstFailed};
ghost use Rattle.board_rules.specs.Separate.{IsSeparated};
ghost use Rattle.board_rules.specs.Unchanged.{KeepsTheRest};

use dimension_core::{first_out_is_alone, spans_go_on};
use move_core::{
    fronts_by_first_change, moves_keep_plans, moves_keep_the_untouched, moves_name_vehicles,
};
use pin_core::{
    freezes_by_named, front_still_fits, fronts_within_routes, opening_holds, pin_holds,
    pins_after_commits, unpin_holds,
};
use plan_core::{
    among_is_tested, currency_by_stamps, customers_stand_by_route, routes_are_known,
    routes_replaced,
};
use rbac_core::session_numbers_rise;

/// The laws of plans, moves and pins, fetched once for all laws here.
fn laws_below()
    ensures { Laws }
{
    routes_replaced();
    customers_stand_by_route();
    among_is_tested();
    moves_name_vehicles();
    moves_keep_plans();
    moves_keep_the_untouched();
    fronts_by_first_change();
    opening_holds();
    pin_holds();
    unpin_holds();
    fronts_within_routes();
    front_still_fits();
    freezes_by_named();
    pins_after_commits();
}

// ---- what every legal history leaves

/// The state before the first call is good, and a right reply leads from a good state to a good one.
pub fn right_replies_keep_good_states()
    ensures first { (s : Setting) → IsGood s (opening_state s) }
    ensures next { (s : Setting) (state : BoardState) (call : Call) (reply : Reply) → IsGood s state
        → IsReply s state call reply → IsGood s (after state call reply) }
{
    laws_below();
}

/// A legal history leaves a good state, after each of its entries too: there is a route for each vehicle, the plan is feasible, no
/// customer stands twice, the pins hold, and no frozen length is above its route's. There were no more commits than entries.
pub fn legal_histories_leave_good_states()
    ensures good { (h : History) → IsLegal h → IsGood h.opening.setting (state_of h) }
    ensures each { (h : History) (k : ℕ) → IsLegal h → k ≤ length h.entries → IsGood h.opening.setting (state_at h k) }
    ensures commits { (h : History) → IsLegal h → length (state_of h).commits ≤ length h.entries }
{
    laws_below();
}

/// A legal history stays legal with one more entry that may come next, and its state is the one after that call and reply.
pub fn histories_grow_by_entries()
    ensures legal { (o : Opening) (es : List Entry) (e : Entry) → IsLegal (record { opening = o; entries = es }) → IsNext o es e
        → IsLegal (record { opening = o; entries = es ++ e ∷ [] }) }
    ensures state { (s : Setting) (es : List Entry) (e : Entry) → state_after s (es ++ e ∷ []) ≡ after (state_after s es) e.call e.reply }
    ensures turns { (desk : ℕ) (es : List Entry) (e : Entry)
        → turns_of desk (es ++ e ∷ []) ≡ turns_of desk es + (if e.desk == desk then 1 else 0) }
{}

/// A prefix of a legal history is legal: whatever comes later, each entry was right at its place. So the first entries of a legal history,
/// however many, are a legal history too.
pub fn prefixes_of_legal_histories_are_legal()
    ensures prefix { (o : Opening) (es more : List Entry) → IsLegal (record { opening = o; entries = es ++ more })
        → IsLegal (record { opening = o; entries = es }) }
    ensures first { (o : Opening) (es : List Entry) (k : ℕ) → IsLegal (record { opening = o; entries = es })
        → IsLegal (record { opening = o; entries = take k es }) }
{}

/// The state after more entries goes on from the one before them, and a desk's turns add up.
pub fn histories_go_on()
    ensures from { (state : BoardState) (es more : List Entry) → state_from state (es ++ more) ≡ state_from (state_from state es) more }
    ensures state { (s : Setting) (es more : List Entry) → state_after s (es ++ more) ≡ state_from (state_after s es) more }
    ensures turns { (desk : ℕ) (es more : List Entry) → turns_of desk (es ++ more) ≡ turns_of desk es + turns_of desk more }
{}

/// After a legal history a call has exactly one right reply.
pub fn replies_are_determined()
    ensures one { (h : History) (call : Call) (reply other : Reply) → IsLegal h → IsReply h.opening.setting (state_of h) call reply
        → IsReply h.opening.setting (state_of h) call other → reply ≡ other }
    ensures some { (h : History) (call : Call) → IsLegal h → (reply : Reply) × IsReply h.opening.setting (state_of h) call reply }
{
    laws_below();
    first_out_is_alone();
    spans_go_on();
}

/// After a history the policy is over the board's customers and vehicles, and CheckAccess by its test is CheckAccess by the two roles
/// that exist.
pub fn histories_settle_policies()
    ensures customers { (h : History) → (state_of h).policy.customers ≡ h.opening.setting.customers }
    ensures vehicles { (h : History) → (state_of h).policy.vehicles ≡ h.opening.setting.vehicles }
    ensures access { (h : History) (session : ℕ) (operation : Operation) (object : Object)
        → (has_access (state_of h).policy session operation object ≡ true) ↔ CheckAccess (state_of h).policy session operation object }
{}

/// After a history separation of duty holds: of each SSD set fewer roles than its number are among those for which a user is
/// authorized, and of each DSD set fewer than its number among those that are counted for a session.
pub fn separation_of_duty_holds()
    ensures { (h : History) → IsSeparated (state_of h).policy }
{}

/// The numbers of sessions rise along every history: from each state to a later one the last number used does not fall, a session that was
/// not there before has a number above all that were used before, and no session's number is above the last one used. So no number is
/// used twice.
pub fn session_numbers_rise_in_histories()
    ensures rise { (h : History) (k : ℕ) → DoNumbersRise (state_at h k).policy (state_of h).policy }
    ensures used { (h : History) → AreNumbersUsed (state_of h).policy }
{
    session_numbers_rise();
}

/// The headline. After each legal history a proposal is committed exactly where its session exists, each named vehicle is in the fleet,
/// CheckAccess holds for `move` on each named vehicle and each touched customer, the base is current by the list of all commits, the move
/// has an effect, the frozen fronts of all vehicles stay, each pinned customer stands on its vehicle or CheckAccess holds for `override`
/// on it, and there are cumuls in bounds for each route of the new plan. It is denied exactly by the first of these rules that fails,
/// which names the first vehicle or customer for which it does.
pub fn proposals_commit_exactly()
    ensures committed { (h : History) (session base n : ℕ) (mv : Move) → IsLegal h
        → IsReply h.opening.setting (state_of h) (Propose session base mv) (Committed n)
        ↔ ((n ≡ length (state_of h).commits + 1) × MayCommit h.opening.setting (state_of h) session base mv) }
    ensures denied { (h : History) (session base : ℕ) (mv : Move) (denial : Denial) → IsLegal h
        → IsReply h.opening.setting (state_of h) (Propose session base mv) (Denied denial)
        ↔ IsFirstFailed h.opening.setting (state_of h) session base mv denial }
    ensures only { (s : Setting) (state : BoardState) (session base : ℕ) (mv : Move) (reply : Reply)
        → IsReply s state (Propose session base mv) reply
        → ((n : ℕ) × (reply ≡ Committed n)) ⊎ ((denial : Denial) × (reply ≡ Denied denial)) }
{
    changes_by_stamps();
}

/// A vehicle that is current at a base has the route that it had when the version was that base.
pub fn current_vehicles_keep_their_routes()
    ensures { (h : History) (k base v : ℕ) → IsLegal h → k ≤ length h.entries → length (state_at h k).commits ≡ base → 1 ≤ v
        → IsCurrentAt (state_of h).commits base v → route_at (state_at h k).routes v ≡ route_at (state_of h).routes v }
{
    laws_below();
}

/// A session's listing in a state has one list of rows.
pub fn listings_are_determined()
    ensures { (s : Setting) (state : BoardState) (session : ℕ) (rows others : List RowShown) → IsListing s state session rows
        → IsListing s state session others → rows ≡ others }
{}

/// A call that is denied or refused changes nothing, and every other call leaves what it does not name.
pub fn calls_keep_the_rest()
    ensures denied { (state : BoardState) (call : Call) (denial : Denial) → after state call (Denied denial) ≡ state }
    ensures refused { (state : BoardState) (call : Call) (refusal : Refusal) → after state call (Refused refusal) ≡ state }
    ensures rest { (state : BoardState) (call : Call) (reply : Reply) → KeepsTheRest state call (after state call reply) }
{}

// ---- for a crate that judges calls

/// Facts that agree give one verdict. A crate that keeps other data of a state, such as a stamp for each vehicle in place of all commits,
/// judges by these.
pub fn verdicts_by_agreeing_facts()
    ensures { (s : Setting) (b c : Basis) (base : ℕ) (mv : Move) (verdict : Option Denial) → Agree s b c
        → IsVerdictBy s b base mv verdict → IsVerdictBy s c base mv verdict }
{}

/// Some commit after a base changed a vehicle exactly where the number of the last commit that changed it is above the base, and none
/// did exactly where the vehicle is current at the base.
pub fn changes_by_stamps()
    ensures stamp { (commits : List (List ℕ)) (base v : ℕ) → is_changed_after commits base v ≡ nat_lt base (last_commit v commits) }
    ensures current { (commits : List (List ℕ)) (base v : ℕ) → (is_changed_after commits base v ≡ false) ↔ IsCurrentAt commits base v }
{
    currency_by_stamps();
}

/// Judging pins by the touches, with an answer for each customer that would leave the vehicle of its pin, is judging them for all
/// customers: the first touch that is forbidden is the first whose pin forbids the new routes.
pub fn pins_by_touches()
    ensures allow { (pins : PinState) (free : ℕ → Bool) (others : List (List ℕ)) (touched : List Touch) (answers : List Bool)
        → AreAnswers pins free others touched answers
        → DoPinsPass pins others touched answers → ((c : ℕ) → 1 ≤ c → IsHeld pins others c ⊎ IsTouched touched c)
        → DoPinsAllow pins free others }
    ensures first { (pins : PinState) (free : ℕ → Bool) (others : List (List ℕ)) (touched : List Touch) (answers : List Bool) (t : Touch)
        → AreAnswers pins free others touched answers
        → IsFirstForbidden pins others touched answers t → IsFirstHeldBack pins free others touched t }
{}

/// The right reply to a command on the policy, and the policy after it, by the parts of its step: the guard, the command's own refusals,
/// and the command itself.
pub fn commands_by_parts()
    ensures barred { (p : PolicyState) (session : ℕ) (command : Command) (e : PolicyRefusal) → guard p session command ≡ Some e
        → (policy_reply p session command ≡ Refused (board_refusal e)) × (policy_after p session command ≡ p) }
    ensures refused { (p : PolicyState) (session : ℕ) (command : Command) (e : PolicyRefusal)
        → guard p session command ≡ None → refusal_of p command ≡ Some e
        → (policy_reply p session command ≡ Refused (board_refusal e)) × (policy_after p session command ≡ p) }
    ensures done { (p : PolicyState) (session : ℕ) (command : Command) → guard p session command ≡ None → refusal_of p command ≡ None
        → (policy_reply p session command ≡ outcome_reply (outcome_of p command))
        × (policy_after p session command ≡ carried_out p command) }
{}

/// The new routes of a move are of vehicles of the fleet and customers of the board, and where they are in bounds, a feasible plan stays
/// feasible.
pub fn plans_are_judged_by_new_routes()
    ensures known { (s : Setting) (routes : List (List ℕ)) (mv : Move) → length routes ≡ s.vehicles → IsPlan s.customers routes
        → effect s.customers routes mv ≡ Some (changes_by routes mv)
        → AllKnown s (changes_by routes mv) }
    ensures feasible { (s : Setting) (routes : List (List ℕ)) (mv : Move) → length routes ≡ s.vehicles → IsFeasible s routes
        → effect s.customers routes mv ≡ Some (changes_by routes mv)
        → AllFit s (changes_by routes mv) → IsFeasible s (routes_after routes mv) }
{
    laws_below();
    routes_are_known();
}

/// After a move that has an effect, each customer whose spot differs stands, before the move or after it, on a named vehicle, at or after
/// the first place at which that vehicle's route differs.
pub fn spots_change_on_named_vehicles()
    ensures { (n : ℕ) (routes : List (List ℕ)) (mv : Move) (c : ℕ) → IsPlan n routes → effect n routes mv ≡ Some (changes_by routes mv)
        → spot_in (routes_after routes mv) c ≢ spot_in routes c
        → (v : ℕ) × ((p : ℕ) × IsNamed (changes_by routes mv) v × (first_change mv v ≤ p)
        × (StandsAt routes c v p ⊎ StandsAt (routes_after routes mv) c v p)) }
{
    laws_below();
}

/// In a plan a customer that stands at a place has that vehicle and that place and no other; one that stands nowhere has none.
pub fn customers_have_one_spot()
    ensures vehicle { (n : ℕ) (routes : List (List ℕ)) (c v p : ℕ) → IsPlan n routes
        → StandsAt routes c v p → vehicle_of routes c ≡ Some v }
    ensures spot { (n : ℕ) (routes : List (List ℕ)) (c v p : ℕ) → IsPlan n routes → StandsAt routes c v p → spot_in routes c ≡ Some (v, p) }
    ensures stands { (routes : List (List ℕ)) (c v p : ℕ) → spot_in routes c ≡ Some (v, p) → StandsAt routes c v p }
    ensures no_vehicle { (routes : List (List ℕ)) (c : ℕ) → ¬ IsPlaced routes c → vehicle_of routes c ≡ None }
    ensures no_spot { (routes : List (List ℕ)) (c : ℕ) → ¬ IsPlaced routes c → spot_in routes c ≡ None }
{
    laws_below();
}
