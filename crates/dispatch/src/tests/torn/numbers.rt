//! Every number of every command at its ends: 0, 1, its limit, one more than that, the greatest number, and one more than that.
use crate::tests::comparing::{compare, same};
use crate::tests::torn::instances::A;
use board_program::scripted;
use std::alloc::Global;
use std::process::Abort;

/// Customers 1, 2 and 3 on vehicle 1 at version 3; session 2 of user ann with role d; a set of each kind of the roles d and e.
const BEFORE: &str = "\
1 grant root move vehicle 1 2\n\
1 grant root move customer 1 4\n\
1 grant root pin customer 1 4\n\
1 grant root freeze vehicle 1 2\n\
1 grant root audit board\n\
1 insert 1 1 1 0\n\
1 insert 2 1 2 1\n\
1 insert 3 1 3 2\n\
1 add-user ann\n\
1 add-role d\n\
1 assign ann d\n\
1 add-role e\n\
1 ssd-create s 2 d e\n\
1 dsd-create t 2 d e\n\
1 open ann d\n";

const REPLIES_BEFORE: &str = "\
done\n\
done\n\
done\n\
done\n\
done\n\
committed 1\n\
committed 2\n\
committed 3\n\
done\n\
done\n\
done\n\
done\n\
done\n\
done\n\
session 2\n";

/// A line with `_` for a number, the number's limit, and the replies at its ends, parted by strokes. In a reply `/` ends a line, and `~` is a
/// stroke.
const NUMBERS: &str = "\
_ insert 4 2 1 3 = 2 = denied no-session|committed 4|denied access vehicle 2|denied no-session|denied no-session|bad number
1 insert _ 2 1 3 = 4 = denied bad-place|denied bad-place|committed 4|denied bad-place|denied bad-place|bad number
1 insert 4 _ 1 3 = 2 = denied bad-vehicle|denied bound 1 1|committed 4|denied bad-vehicle|denied bad-vehicle|bad number
1 insert 4 2 _ 3 = 1 = denied bad-place|committed 4|committed 4|denied bad-place|denied bad-place|bad number
1 insert 4 2 1 _ = 3 = committed 4|committed 4|committed 4|denied ahead|denied ahead|bad number
_ remove 1 1 3 = 2 = denied no-session|committed 4|denied access vehicle 1|denied no-session|denied no-session|bad number
1 remove _ 1 3 = 2 = denied bad-vehicle|committed 4|denied bad-place|denied bad-vehicle|denied bad-vehicle|bad number
1 remove 1 _ 3 = 3 = denied bad-place|committed 4|committed 4|denied bad-place|denied bad-place|bad number
1 remove 1 1 _ = 3 = denied stale 1|denied stale 1|committed 4|denied ahead|denied ahead|bad number
_ shift 1 1 1 2 1 3 = 2 = denied no-session|committed 4|denied access vehicle 1|denied no-session|denied no-session|bad number
1 shift _ 1 1 2 1 3 = 2 = denied bad-vehicle|committed 4|denied bad-place|denied bad-vehicle|denied bad-vehicle|bad number
1 shift 1 _ 1 2 1 3 = 3 = denied bad-place|committed 4|denied bound 2 2|denied bad-place|denied bad-place|bad number
1 shift 1 1 _ 2 1 3 = 3 = denied bad-place|committed 4|committed 4|denied bad-place|denied bad-place|bad number
1 shift 1 1 1 _ 1 3 = 2 = denied bad-vehicle|denied bad-place|committed 4|denied bad-vehicle|denied bad-vehicle|bad number
1 shift 1 1 1 2 _ 3 = 1 = denied bad-place|committed 4|committed 4|denied bad-place|denied bad-place|bad number
1 shift 1 1 1 2 1 _ = 3 = denied stale 1|denied stale 1|committed 4|denied ahead|denied ahead|bad number
_ swap 1 1 1 2 3 = 2 = denied no-session|denied bound 1 2|denied access vehicle 1|denied no-session|denied no-session|bad number
1 swap _ 1 1 2 3 = 2 = denied bad-vehicle|denied bound 1 2|denied bad-place|denied bad-vehicle|denied bad-vehicle|bad number
1 swap 1 _ 1 2 3 = 3 = denied bad-place|denied bound 1 2|denied bound 1 2|denied bad-place|denied bad-place|bad number
1 swap 1 1 _ 2 3 = 2 = denied bad-vehicle|denied bound 1 2|denied bad-place|denied bad-vehicle|denied bad-vehicle|bad number
1 swap 1 1 1 _ 3 = 3 = denied bad-place|denied bad-place|denied bound 1 2|denied bad-place|denied bad-place|bad number
1 swap 1 1 1 2 _ = 3 = denied stale 1|denied stale 1|denied bound 1 2|denied ahead|denied ahead|bad number
_ reverse 1 1 2 3 = 2 = denied no-session|denied bound 1 2|denied access vehicle 1|denied no-session|denied no-session|bad number
1 reverse _ 1 2 3 = 2 = denied bad-vehicle|denied bound 1 2|denied bad-place|denied bad-vehicle|denied bad-vehicle|bad number
1 reverse 1 _ 3 3 = 2 = denied bad-place|denied bound 1 2|denied bound 1 2|denied bad-place|denied bad-place|bad number
1 reverse 1 1 _ 3 = 3 = denied bad-place|denied bad-place|denied bound 1 2|denied bad-place|denied bad-place|bad number
1 reverse 1 1 2 _ = 3 = denied stale 1|denied stale 1|denied bound 1 2|denied ahead|denied ahead|bad number
_ cross 1 0 2 0 3 = 2 = denied no-session|committed 4|denied access vehicle 1|denied no-session|denied no-session|bad number
1 cross _ 0 2 0 3 = 2 = denied bad-vehicle|committed 4|denied bad-place|denied bad-vehicle|denied bad-vehicle|bad number
1 cross 1 _ 2 0 3 = 3 = committed 4|committed 4|denied bad-place|denied bad-place|denied bad-place|bad number
1 cross 1 0 _ 0 3 = 2 = denied bad-vehicle|denied bad-place|committed 4|denied bad-vehicle|denied bad-vehicle|bad number
1 cross 1 0 2 _ 3 = 0 = committed 4|denied bad-place|committed 4|denied bad-place|denied bad-place|bad number
1 cross 1 0 2 0 _ = 3 = denied stale 1|denied stale 1|committed 4|denied ahead|denied ahead|bad number
_ pin 1 = 2 = refused no-session|done|refused no-access|refused no-session|refused no-session|bad number
1 pin _ = 4 = refused bad-customer|done|refused not-placed|refused bad-customer|refused bad-customer|bad number
_ unpin 1 = 2 = refused no-session|refused not-there|refused no-access|refused no-session|refused no-session|bad number
1 unpin _ = 4 = refused bad-customer|refused not-there|refused not-there|refused bad-customer|refused bad-customer|bad number
_ freeze 1 1 = 2 = refused no-session|done|refused no-access|refused no-session|refused no-session|bad number
1 freeze _ 1 = 2 = refused bad-vehicle|done|refused length|refused bad-vehicle|refused bad-vehicle|bad number
1 freeze 1 _ = 3 = refused length|done|done|refused length|refused length|bad number
_ thaw 1 0 = 2 = refused no-session|refused length|refused no-access|refused no-session|refused no-session|bad number
1 thaw _ 0 = 2 = refused bad-vehicle|refused length|refused length|refused bad-vehicle|refused bad-vehicle|bad number
1 thaw 1 _ = 3 = refused length|refused length|refused length|refused length|refused length|bad number
_ add-user x = 2 = refused no-session|done|refused no-access|refused no-session|refused no-session|bad number
_ delete-user ann = 2 = refused no-session|done|refused no-access|refused no-session|refused no-session|bad number
_ add-role x = 2 = refused no-session|done|refused no-access|refused no-session|refused no-session|bad number
_ delete-role e = 2 = refused no-session|refused in-set|refused no-access|refused no-session|refused no-session|bad number
_ assign root d = 2 = refused no-session|done|refused no-access|refused no-session|refused no-session|bad number
_ deassign ann d = 2 = refused no-session|done|refused no-access|refused no-session|refused no-session|bad number
_ inherit root d = 2 = refused no-session|done|refused no-access|refused no-session|refused no-session|bad number
_ uninherit root d = 2 = refused no-session|refused not-there|refused no-access|refused no-session|refused no-session|bad number
_ grant d view board = 2 = refused no-session|done|refused no-access|refused no-session|refused no-session|bad number
1 grant d view vehicle _ 2 = 2 = refused bad-object|done|done|refused bad-object|refused bad-object|bad number
1 grant d view vehicle 1 _ = 2 = refused bad-object|done|done|refused bad-object|refused bad-object|bad number
1 grant d view customer _ 4 = 4 = refused bad-object|done|done|refused bad-object|refused bad-object|bad number
1 grant d view customer 1 _ = 4 = refused bad-object|done|done|refused bad-object|refused bad-object|bad number
1 revoke d view vehicle _ 2 = 2 = refused bad-object|done|done|refused bad-object|refused bad-object|bad number
1 revoke d view vehicle 1 _ = 2 = refused bad-object|done|done|refused bad-object|refused bad-object|bad number
1 revoke d view customer _ 4 = 4 = refused bad-object|done|done|refused bad-object|refused bad-object|bad number
1 revoke d view customer 1 _ = 4 = refused bad-object|done|done|refused bad-object|refused bad-object|bad number
_ revoke d view board = 2 = refused no-session|done|refused no-access|refused no-session|refused no-session|bad number
1 ssd-create x _ d e = 2 = refused number|refused number|done|refused number|refused number|bad number
1 dsd-create x _ d e = 2 = refused number|refused number|done|refused number|refused number|bad number
1 ssd-number s _ = 2 = refused number|refused number|done|refused number|refused number|bad number
1 dsd-number t _ = 2 = refused number|refused number|done|refused number|refused number|bad number
_ ssd-create x 2 d e = 2 = refused no-session|done|refused no-access|refused no-session|refused no-session|bad number
_ ssd-add s root = 2 = refused no-session|done|refused no-access|refused no-session|refused no-session|bad number
_ ssd-drop s e = 2 = refused no-session|refused number|refused no-access|refused no-session|refused no-session|bad number
_ ssd-delete s = 2 = refused no-session|done|refused no-access|refused no-session|refused no-session|bad number
_ ssd-number s 2 = 2 = refused no-session|done|refused no-access|refused no-session|refused no-session|bad number
_ dsd-create x 2 d e = 2 = refused no-session|done|refused no-access|refused no-session|refused no-session|bad number
_ dsd-add t root = 2 = refused no-session|done|refused no-access|refused no-session|refused no-session|bad number
_ dsd-drop t e = 2 = refused no-session|refused number|refused no-access|refused no-session|refused no-session|bad number
_ dsd-delete t = 2 = refused no-session|done|refused no-access|refused no-session|refused no-session|bad number
_ dsd-number t 2 = 2 = refused no-session|done|refused no-access|refused no-session|refused no-session|bad number
_ migrate = 2 = refused no-session|done|refused no-access|refused no-session|refused no-session|bad number
_ open ann d = 2 = refused no-session|session 3|session 3|refused no-session|refused no-session|bad number
_ close 2 = 2 = refused no-session|done|done|refused no-session|refused no-session|bad number
1 close _ = 2 = refused not-there|done|done|refused not-there|refused not-there|bad number
1 activate _ d = 2 = refused not-there|refused not-authorized|refused already|refused not-there|refused not-there|bad number
_ activate 2 d = 2 = refused no-session|refused already|refused already|refused no-session|refused no-session|bad number
_ deactivate 2 d = 2 = refused no-session|done|done|refused no-session|refused no-session|bad number
1 deactivate _ d = 2 = refused not-there|refused not-there|done|refused not-there|refused not-there|bad number
_ check admin board = 2 = no|yes|no|no|no|bad number
1 check move vehicle _ = 2 = no|yes|yes|no|no|bad number
1 check move customer _ = 4 = no|yes|yes|no|no|bad number
_ active 2 = 2 = refused no-session|name d/end|refused no-access|refused no-session|refused no-session|bad number
1 active _ = 2 = refused not-there|name root/end|name d/end|refused not-there|refused not-there|bad number
_ users d = 2 = refused no-session|name ann/end|refused no-access|refused no-session|refused no-session|bad number
_ roles ann = 2 = refused no-session|name d/end|refused no-access|refused no-session|refused no-session|bad number
_ audit = 2 = refused no-session|\
event 1 1 1 ~ 1 grant root move vehicle 1 2 ~ done/\
event 2 1 2 ~ 1 grant root move customer 1 4 ~ done/\
event 3 1 3 ~ 1 grant root pin customer 1 4 ~ done/\
event 4 1 4 ~ 1 grant root freeze vehicle 1 2 ~ done/\
event 5 1 5 ~ 1 grant root audit board ~ done/\
event 6 1 6 ~ 1 insert 1 1 1 0 ~ committed 1/\
event 7 1 7 ~ 1 insert 2 1 2 1 ~ committed 2/\
event 8 1 8 ~ 1 insert 3 1 3 2 ~ committed 3/\
event 9 1 9 ~ 1 add-user ann ~ done/\
event 10 1 10 ~ 1 add-role d ~ done/\
event 11 1 11 ~ 1 assign ann d ~ done/\
event 12 1 12 ~ 1 add-role e ~ done/\
event 13 1 13 ~ 1 ssd-create s 2 d e ~ done/\
event 14 1 14 ~ 1 dsd-create t 2 d e ~ done/\
event 15 1 15 ~ 1 open ann d ~ session 2/\
end|refused no-access|refused no-session|refused no-session|bad number
_ list = 2 = refused no-session|end|end|refused no-session|refused no-session|bad number
_ json = 2 = refused no-session|{\"rows\":[]}|{\"rows\":[]}|refused no-session|refused no-session|bad number";

/// What a run wrote and said, and its status.
type Ended = (Vec<u8>, Vec<u8>, u8);

/// The run of the script that ends with a line.
fn ended(alloc: Global, line: &str) -> Option<Ended> {
    let script = format!(in alloc; "{BEFORE}{line}\n").ok()?;
    let mut written = Vec::new(alloc);
    let mut faults = Vec::new(alloc);
    let status = scripted(
        alloc,
        A.as_bytes(),
        &mut script.as_bytes(),
        &mut written,
        &mut faults,
    );
    Some((written, faults, status))
}

/// All replies.
fn replies(alloc: Global, reply: &str) -> Option<String> {
    let reply = reply.replace(alloc, "/", "\n").ok()?;
    let reply = reply.replace(alloc, "~", "|").ok()?;
    format!(in alloc; "{REPLIES_BEFORE}{reply}\n").ok()
}

/// Whether a reply counts as refused.
fn is_refused(reply: &str) -> bool {
    for word in ["denied ", "refused ", "bad "] {
        if reply.starts_with(word) {
            return true;
        }
    }
    false
}

/// A line has this reply.
fn compare_line(rt: &impl Abort, alloc: Global, line: &str, reply: &str) {
    let (written, faults, status) = ended(alloc, line).expect(rt, "memory");
    let replies = replies(alloc, reply).expect(rt, "memory");
    let wanted = (replies.as_str(), "", u8::from(is_refused(reply)));
    compare(rt, &written, &faults, status, wanted, line);
}

/// The value of a number at one of its ends.
fn end_of(limit: u64, index: u32) -> u64 {
    match index {
        0 => 0,
        1 => 1,
        2 => limit,
        3 => limit.saturating_add(1),
        4 => 4_294_967_295,
        _ => 4_294_967_296,
    }
}

/// The line of a form at one end.
fn line_at(alloc: Global, form: &str, limit: &str, index: u32) -> Option<String> {
    let value = end_of(limit.parse::<u64>().ok()?, index);
    let value = format!(in alloc; "{value}").ok()?;
    form.replace(alloc, "_", value.as_str()).ok()
}

/// The line, the limit and the replies of a row.
fn cut(row: &str) -> Option<(&str, &str, &str)> {
    let (form, told) = row.split_once(" = ")?;
    let (limit, replies) = told.split_once(" = ")?;
    Some((form, limit, replies))
}

/// Each of the six ends of a row has its reply.
fn compare_row(rt: &impl Abort, alloc: Global, row: &str) {
    let (form, limit, replies) = cut(row).expect(rt, "a row");
    let mut index = 0u32;
    for reply in replies.split('|') {
        let line = line_at(alloc, form, limit, index).expect(rt, "a line");
        compare_line(rt, alloc, &line, reply);
        index = index.saturating_add(1);
    }
    same(rt, index, 6, row);
}

#[test]
fn numbers_at_their_ends(rt: HostRuntime) {
    for row in NUMBERS.split('\n') {
        compare_row(&rt, rt.alloc(), row);
    }
}
