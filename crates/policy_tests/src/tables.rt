ghost use Rattle.std.specs.Prelude.{◌≡◌};

use crate::comparing::{holds, same};
use crate::scripts::answers;
use callback_store::Meter;
use permission_core::{Object, Operation};
use permission_table::{Tables, compiled_is_check_access};
use policy_core::Policy;
use std::alloc::Global;
use std::process::Abort;

/// Whether the tables and a walk over the policy let a session move a vehicle, and how often that is asked for.
fn compare(rt: &impl Abort, tables: &Tables, policy: &Policy, rows: &[(u32, u32, bool)]) {
    for (session, vehicle, wanted) in rows {
        let mut meter = Meter::new();
        let object = Object::Vehicle(*vehicle);
        let found = tables.check(*session, Operation::Move, object, &mut meter);
        let counted = (meter.asks, meter.probes, meter.walks);
        same(
            rt,
            (*session, *vehicle, found),
            (*session, *vehicle, *wanted),
            "by the rows",
        );
        same(rt, counted, (0, 1, 0), "what the rows took");
        let walked = policy.check_plain(*session, Operation::Move, object, &mut meter);
        same(
            rt,
            (*session, *vehicle, walked),
            (*session, *vehicle, *wanted),
            "by the walk",
        );
        same(rt, meter.walks, 1, "walks");
    }
}

/// The sessions' rows are made from the policy and put in place.
fn compile(rt: &impl Abort, policy: &Policy, tables: &mut Tables, sessions: &[u32])
    requires customers { tables.old.customers ≡ 4 }
    requires vehicles { tables.old.vehicles ≡ 2 }
    ensures customers { tables.new.customers ≡ 4 }
    ensures vehicles { tables.new.vehicles ≡ 2 }
{
    holds(rt, policy.customers() == 4, "four customers");
    holds(rt, policy.vehicles() == 2, "two vehicles");
    let rows = tables.rebuild(policy, sessions).expect(rt, "memory");
    tables.put(rows);
}

/// Session 2 has the role d active, which is above c.
const OPENED: &str = "\
1 add-role d => done\n\
1 add-role c => done\n\
1 inherit d c => done\n\
1 grant c move vehicle 2 2 => done\n\
1 add-user ann => done\n\
1 assign ann d => done\n\
1 open ann d => session 2";

const OPEN: &[(u32, u32, bool)] = &[
    (2, 2, true),
    (2, 1, false),
    (2, 3, false),
    (1, 2, false),
    (9, 2, false),
];

const WITHOUT_ROLE: &[(u32, u32, bool)] = &[(2, 2, false), (1, 2, false)];

/// Gives the commands of a script, and compares the rows of all sessions after them.
fn follow(
    rt: &impl Abort,
    alloc: Global,
    policy: &mut Policy,
    tables: &mut Tables,
    script: &str,
    wanted: &[(u32, u32, bool)],
)
    requires customers { tables.old.customers ≡ 4 }
    requires vehicles { tables.old.vehicles ≡ 2 }
    ensures customers { tables.new.customers ≡ 4 }
    ensures vehicles { tables.new.vehicles ≡ 2 }
{
    answers(rt, alloc, policy, script);
    compile(rt, policy, tables, &[2, 1, 2]);
    compare(rt, tables, policy, wanted);
}

const REGAINED: &str = "\
1 assign ann d => done\n\
1 activate 2 d => done";

#[test]
fn rows_of_sessions(rt: HostRuntime) {
    let alloc = rt.alloc();
    let mut policy = Policy::opening(alloc, 4, 2).expect(&rt, "memory");
    let mut tables = Tables::new(alloc, 4, 2).expect(&rt, "memory");
    follow(&rt, alloc, &mut policy, &mut tables, OPENED, OPEN);
    let lost = "1 deassign ann d => done";
    follow(&rt, alloc, &mut policy, &mut tables, lost, WITHOUT_ROLE);
    follow(&rt, alloc, &mut policy, &mut tables, REGAINED, OPEN);
    let closed = "1 close 2 => done";
    follow(&rt, alloc, &mut policy, &mut tables, closed, WITHOUT_ROLE);
    compiled_is_check_access(&policy);
}
