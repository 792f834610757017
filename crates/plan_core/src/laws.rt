//! Laws of the definitions, each the contract of a function that does nothing.
ghost use Rattle.std.specs.Prelude.{◌≡◌, ℕ, ◌+◌, ◌≤◌, ◌↔◌, List, [], ◌∷◌, ◌++◌, length, if◌then◌else◌};
ghost use Rattle.plan_core.specs.Plan.{PlanState, Changes, AreApart, replaced};
ghost use Rattle.plan_core.specs.Laws.{RoutesAreReplaced, RoutesAreKnown, CustomersStandByRoute, AmongIsTested, PlansAreTested, WaysJoin, CostsDifferByNamed, FrontsAreCommon};
ghost use Rattle.plan_core.specs.Among.{is_among};
ghost use Rattle.plan_core.specs.Commits.{IsCurrentAt, IsLastCommit, AreStamps, last_commit, named_vehicles};

/// A vehicle is current at a base exactly if the number of the last commit that changed it is not above the base, and that number is what
/// its name says.
pub fn currency_by_stamps()
    ensures last { (commits : List (List ℕ)) (v : ℕ) → IsLastCommit commits v (last_commit v commits) }
    ensures only { (commits : List (List ℕ)) (v n : ℕ) → IsLastCommit commits v n → n ≡ last_commit v commits }
    ensures current { (commits : List (List ℕ)) (base v : ℕ) → IsCurrentAt commits base v ↔ (last_commit v commits ≤ base) }
{}

/// One more commit is the last one of the vehicles that it changed, and does not change the last commit of any other vehicle.
pub fn commits_by_one_more()
    ensures { (commits : List (List ℕ)) (changed : List ℕ) (v : ℕ)
        → last_commit v (commits ++ changed ∷ []) ≡ (if is_among v changed then length commits + 1 else last_commit v commits) }
{}

/// A plan that keeps the numbers of some commits keeps, after one more commit, those of all.
pub fn stamps_by_one_more()
    ensures { (commits : List (List ℕ)) (plan : PlanState) (changes : Changes) → AreStamps commits plan
        → AreApart (length plan.stamps) changes → AreStamps (commits ++ named_vehicles changes ∷ []) (replaced changes plan) }
{}

/// Each named vehicle has its new route afterwards, and all others keep theirs.
pub fn routes_replaced()
    ensures { RoutesAreReplaced }
{}

/// No route has more customers than there are, since none of them stands twice, and each has only customers of the plan.
pub fn routes_are_known()
    ensures { RoutesAreKnown }
{}

/// A customer stands at a place exactly where the route has it.
pub fn customers_stand_by_route()
    ensures { CustomersStandByRoute }
{}

/// The test whether a number is among some numbers is right.
pub fn among_is_tested()
    ensures { AmongIsTested }
{}

/// Routes that are written out and pass the test are a plan.
pub fn plans_are_tested()
    ensures { PlansAreTested }
{}

/// The cost of a way is the sum of the costs of its parts.
pub fn ways_join()
    ensures { WaysJoin }
{}

/// The cost after new routes differs only by those of the named vehicles.
pub fn costs_differ_by_named()
    ensures { CostsDifferByNamed }
{}

/// The longest common prefix of two lists has one length.
pub fn fronts_are_common()
    ensures { FrontsAreCommon }
{}
