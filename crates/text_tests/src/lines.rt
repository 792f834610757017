use crate::comparing::{all_written, same, same_written};
use board_lines::{
    Command, LineFault, ReadFault, event_text, list_json, list_text, push_check, push_json,
    push_line_fault, read_line, reply_text,
};
use board_rules::{Denial, Refusal, Reply, Row};
use separation_core::Name;
use std::alloc::{AllocError, Global};
use std::process::Abort;

/// The call that a line is read as, written again.
fn again(alloc: Global, line: &str) -> Option<String> {
    match read_line(alloc, line.as_bytes()) {
        Ok(Command::Submit(call)) => event_text(alloc, &call).ok(),
        _ => None,
    }
}

/// Calls that are written as they are read, and some that are not.
const CALLS: &[(&str, &str)] = &[
    ("1 insert 4 2 3 17", "1 insert 4 2 3 17"),
    ("1 remove 2 3 17", "1 remove 2 3 17"),
    ("1 shift 2 3 1 4 5 17", "1 shift 2 3 1 4 5 17"),
    ("1 swap 2 3 4 5 17", "1 swap 2 3 4 5 17"),
    ("1 reverse 2 3 4 17", "1 reverse 2 3 4 17"),
    ("1 cross 2 3 4 5 17", "1 cross 2 3 4 5 17"),
    ("2 pin 007", "2 pin 7"),
    ("2 unpin 7", "2 unpin 7"),
    ("2 freeze 1 0", "2 freeze 1 0"),
    ("2 thaw\t1   4294967295", "2 thaw 1 4294967295"),
    ("1 add-user ann", "1 add-user ann"),
    ("1 delete-user ann", "1 delete-user ann"),
    ("1 add-role d", "1 add-role d"),
    ("1 delete-role d", "1 delete-role d"),
    ("1 assign ann d", "1 assign ann d"),
    ("1 deassign ann d", "1 deassign ann d"),
    ("1 grant d move vehicle 1 2", "1 grant d move vehicle 1 2"),
    (
        "1 revoke d override customer 3 4",
        "1 revoke d override customer 3 4",
    ),
    ("1 inherit s j", "1 inherit s j"),
    ("1 uninherit s j", "1 uninherit s j"),
    ("1 ssd-create x 2 a b", "1 ssd-create x 2 a b"),
    ("1 ssd-add x a", "1 ssd-add x a"),
    ("1 ssd-drop x a", "1 ssd-drop x a"),
    ("1 ssd-delete x", "1 ssd-delete x"),
    ("1 ssd-number x 3", "1 ssd-number x 3"),
    ("1 dsd-create x 2", "1 dsd-create x 2"),
    ("1 dsd-add x a", "1 dsd-add x a"),
    ("1 dsd-drop x a", "1 dsd-drop x a"),
    ("1 dsd-delete x", "1 dsd-delete x"),
    ("1 dsd-number x 3", "1 dsd-number x 3"),
    ("1 migrate", "1 migrate"),
    (" 1 open ann d d ", "1 open ann d d"),
    ("1 close 2", "1 close 2"),
    ("1 activate 2 d", "1 activate 2 d"),
    ("1 deactivate 2 d", "1 deactivate 2 d"),
];

#[test]
fn each_call_is_read_and_written(rt: HostRuntime) {
    for (line, text) in CALLS {
        let found = again(rt.alloc(), line).expect(&rt, "a call");
        same(&rt, found.as_str(), *text, line);
    }
}

fn fault_of(alloc: Global, line: &str) -> Option<LineFault> {
    match read_line(alloc, line.as_bytes()) {
        Err(ReadFault::Line(fault)) => Some(fault),
        _ => None,
    }
}

const FAULTS: &[(&str, LineFault)] = &[
    ("x list", LineFault::Number),
    ("+1 list", LineFault::Number),
    ("4294967296 list", LineFault::Number),
    ("x fly", LineFault::Number),
    ("1", LineFault::Word),
    ("1 fly", LineFault::Word),
    ("1 List", LineFault::Word),
    ("1 inserts 1 1 1 1", LineFault::Word),
    ("1 insert 1 1 1", LineFault::Count),
    ("1 insert x 1 1 1 1", LineFault::Count),
    ("1 list 1", LineFault::Count),
    ("1 open", LineFault::Count),
    ("1 ssd-create x", LineFault::Count),
    ("1 check move", LineFault::Count),
    ("1 check move vehicle 1 2", LineFault::Count),
    ("1 grant d! fly vehicle 1", LineFault::Count),
    ("1 insert 1 -1 1 1", LineFault::Number),
    ("1 ssd-create x y a!", LineFault::Number),
    ("1 add-user a!", LineFault::Name),
    (
        "1 add-user abcdefghijklmnopqrstuvwxyz1234567",
        LineFault::Name,
    ),
    ("1 grant d fly truck 1 2 3", LineFault::Op),
    ("1 check move truck 1 2", LineFault::Object),
    ("1 grant d move truck x", LineFault::Object),
];

#[test]
fn the_first_fault_is_named(rt: HostRuntime) {
    for (line, fault) in FAULTS {
        same(&rt, fault_of(rt.alloc(), line), Some(*fault), line);
    }
}

const FAULTS_IN_WORDS: &[(LineFault, &str)] = &[
    (LineFault::Number, "not a number"),
    (LineFault::Word, "not a command"),
    (LineFault::Count, "too few or too many words"),
    (LineFault::Name, "not a name"),
    (LineFault::Op, "not an operation"),
    (LineFault::Object, "not an object"),
];

#[test]
fn faults_in_words(rt: HostRuntime) {
    all_written(&rt, rt.alloc(), FAULTS_IN_WORDS);
    for (fault, text) in FAULTS_IN_WORDS {
        same_written(&rt, rt.alloc(), &ReadFault::Line(*fault), text);
    }
    same_written(&rt, rt.alloc(), &ReadFault::NoMemory, "out of memory");
}

fn compare_reply(rt: &impl Abort, alloc: Global, reply: Reply, wanted: &str) {
    let text = reply_text(alloc, reply).expect(rt, "memory");
    same(rt, text.as_str(), wanted, "a reply");
}

const DENIALS: &[(Denial, &str)] = &[
    (Denial::NoSession, "denied no-session"),
    (Denial::AccessVehicle(1), "denied access vehicle 1"),
    (Denial::Stale(12), "denied stale 12"),
    (Denial::AccessCustomer(1, 2), "denied access customer 1 2"),
    (Denial::Frozen(3), "denied frozen 3"),
    (Denial::Pinned(1, 2), "denied pinned 1 2"),
    (Denial::Bound(1, 2), "denied bound 1 2"),
];

#[test]
fn replies_have_their_texts(rt: HostRuntime) {
    for (denial, text) in DENIALS {
        compare_reply(&rt, rt.alloc(), Reply::Denied(*denial), text);
    }
    let set = Name::new(b"x").expect(&rt, "a name");
    for (reply, text) in [
        (Reply::Done, "done"),
        (Reply::Session(2), "session 2"),
        (Reply::Committed(4_294_967_295), "committed 4294967295"),
        (Reply::Refused(Refusal::NoUser), "refused no-user"),
        (
            Reply::Refused(Refusal::NotAuthorized),
            "refused not-authorized",
        ),
        (Reply::Refused(Refusal::NotPlaced), "refused not-placed"),
        (Reply::Refused(Refusal::Length), "refused length"),
        (Reply::Refused(Refusal::Ssd(set)), "refused ssd x"),
        (Reply::Refused(Refusal::Dsd(set)), "refused dsd x"),
    ] {
        compare_reply(&rt, rt.alloc(), reply, text);
    }
}

/// Both texts of a listing.
fn texts_of(alloc: Global, rows: &[Row]) -> Result<(String, String), AllocError> {
    Ok((list_text(alloc, rows)?, list_json(alloc, rows)?))
}

/// Compares both texts of a listing.
fn compare_listing(rt: &impl Abort, alloc: Global, rows: &[Row], lines: &str, json: &str) {
    let (text, other) = texts_of(alloc, rows).expect(rt, "memory");
    same(rt, (text.as_str(), other.as_str()), (lines, json), "texts");
}

const LISTING: &str = "\
row 1 1 1 0 28\n\
row 1 3 3 7 140\n\
row 0 0 4\n\
end\n";

const LISTING_AS_JSON: &str = "{\"rows\":[[1,1,1,0,28],[1,3,3,7,140],[0,0,4]]}";

/// Rows with two cumuls, and one without.
fn three_rows(alloc: Global) -> Result<Vec<Row>, AllocError> {
    let rows = vec![in alloc;
        Row::new(1, 1, 1, &[0, 28]),
        Row::new(1, 3, 3, &[7, 140]),
        Row::new(0, 0, 4, &[]),
    ]?;
    Ok(rows)
}

#[test]
fn listings_have_their_texts(rt: HostRuntime) {
    let alloc = rt.alloc();
    compare_listing(&rt, alloc, &[], "end\n", "{\"rows\":[]}");
    let rows = three_rows(alloc).expect(&rt, "memory");
    compare_listing(&rt, alloc, &rows, LISTING, LISTING_AS_JSON);
}

/// Puts an answer, a fault and a row behind what a text has.
fn grow(text: &mut String) -> Result<(), AllocError> {
    push_check(text, true)?;
    push_line_fault(text, LineFault::Object)?;
    push_json(text, &[Row::new(1, 3, 2, &[7])])
}

/// A program with a text of its own puts these behind what it has.
#[test]
fn texts_grow(rt: HostRuntime) {
    let mut text = String::from_str(rt.alloc(), "> ").expect(&rt, "memory");
    grow(&mut text).expect(&rt, "memory");
    let wanted = "> yesbad object{\"rows\":[[1,3,2,7]]}";
    same(&rt, text.as_str(), wanted, "a text");
}
