//! Scripts on the instance of four customers: each row is a line, ` => ` and its reply, in which a stroke ends a line.
use std::alloc::{AllocError, Global};

/// Four customers and two vehicles.
pub(crate) const A: &str =
    "A\nVEHICLE\nNUMBER CAPACITY\n2 10\nCUSTOMER\nCUST NO.\n0 0 0 0 0 100 0\n1 2 2 4 0 50 0\n2 6 6 3 0 50 0\n3 10 10 3 0 14 0\n4 3 4 5 0 50 0\n";

/// Moves, pins and freezes, and questions.
pub(crate) const MOVES: &str = "\
1 grant root audit board => done\n\
1 insert 1 1 1 0 => denied access vehicle 1\n\
1 grant root move vehicle 1 2 => done\n\
1 grant root move customer 1 4 => done\n\
1 grant root view vehicle 1 2 => done\n\
1 grant root view customer 1 4 => done\n\
1 insert 1 1 1 0 => committed 1\n\
1 insert 2 1 2 1 => committed 2\n\
1 insert 3 1 3 2 => committed 3\n\
1 list => row 1 1 1 0 28/row 1 2 2 4 84/row 1 3 3 7 140/row 0 0 4/end\n\
1 json => {\"rows\":[[1,1,1,0,28],[1,2,2,4,84],[1,3,3,7,140],[0,0,4]]}\n\
1 remove 1 2 3 => denied bound 1 2\n\
1 insert 4 1 1 0 => denied stale 1\n\
1 insert 4 2 1 9 => denied ahead\n\
1 insert 4 2 1 0 => committed 4\n\
1 shift 1 1 1 1 3 4 => committed 5\n\
1 swap 1 1 1 3 5 => denied bound 1 2\n\
1 reverse 1 1 3 5 => denied bound 1 2\n\
1 shift 1 3 1 2 1 5 => committed 6\n\
1 cross 1 1 2 0 6 => denied bound 1 1\n\
1 cross 1 0 2 0 6 => committed 7\n\
1 grant root pin customer 1 4 => done\n\
1 pin 1 => done\n\
1 pin 1 => refused already\n\
1 grant root freeze vehicle 1 2 => done\n\
1 freeze 1 1 => done\n\
1 reverse 1 1 2 7 => denied frozen 1\n\
1 thaw 1 0 => done\n\
1 remove 1 1 7 => denied pinned 1 1\n\
1 grant root override customer 1 1 => done\n\
1 remove 1 1 7 => committed 8\n\
1 unpin 1 => refused not-there";

/// Commands on users, roles, sets and sessions, and questions, after the moves.
pub(crate) const RIGHTS: &str = "\
1 add-role a => done\n\
1 add-role b => done\n\
1 add-role c => done\n\
1 add-user u => done\n\
1 assign u c => done\n\
1 assign u b => done\n\
1 ssd-create s 2 a b => done\n\
1 inherit c a => refused ssd s\n\
1 add-role d => done\n\
1 inherit d c => done\n\
1 inherit c d => refused cycle\n\
1 inherit d c => refused already\n\
1 ssd-drop s a => refused number\n\
1 delete-role a => refused in-set\n\
1 ssd-number s 2 => done\n\
1 ssd-add s d => done\n\
1 ssd-drop s d => done\n\
1 ssd-delete s => done\n\
1 add-user ann => done\n\
1 add-role e => done\n\
1 assign ann d => done\n\
1 grant d move vehicle 1 1 => done\n\
1 grant d move customer 1 4 => done\n\
1 open ann d => session 2\n\
2 insert 1 1 1 8 => committed 9\n\
1 deassign ann d => done\n\
2 remove 1 1 9 => denied access vehicle 1\n\
1 assign ann d => done\n\
1 assign ann e => done\n\
1 dsd-create x 2 d e => done\n\
1 activate 2 d => done\n\
2 activate 2 e => refused dsd x\n\
2 add-user z => refused no-access\n\
1 deactivate 2 d => done\n\
1 dsd-number x 2 => done\n\
1 dsd-add x a => done\n\
1 dsd-drop x a => done\n\
1 migrate => done\n\
1 migrate => refused already\n\
1 dsd-delete x => done\n\
1 users d => name ann/end\n\
1 roles ann => name d/name e/end\n\
1 active 1 => name root/end\n\
1 active 2 => end\n\
1 roles bob => refused no-user\n\
1 revoke d move vehicle 1 1 => done\n\
1 uninherit d c => done\n\
1 close 2 => done\n\
1 delete-role e => done\n\
1 delete-user u => done\n\
1 check admin board => yes\n\
1 check move vehicle 9 => no";

/// The end of what session 1 may do.
pub(crate) const NO_ROOT: &str = "\
1 delete-user root => done\n\
1 add-user x => refused no-session\n\
1 list => refused no-session";

const QUESTIONS: &[&str] = &[
    "1 list", "1 json", "1 users", "1 roles", "1 active", "1 check",
];

/// Whether a line is a question, which no journal has.
fn is_question(line: &str) -> bool {
    for word in QUESTIONS {
        if line.starts_with(*word) {
            return true;
        }
    }
    false
}

/// Appends the entries of a script's calls, of which so many came before. It says how many there are then.
fn push_entries(text: &mut String, script: &str, before: u32) -> Result<u32, AllocError> {
    let mut turn = before;
    for row in script.split('\n') {
        if !is_question(row) {
            let (line, reply) = row.split_once(" => ").unwrap_or((row, ""));
            turn = turn.saturating_add(1);
            write!(text, "event {turn} 1 {turn} | {line} | {reply}/")?;
        }
    }
    Ok(turn)
}

/// The row of an audit after both scripts, on desk 1 alone.
pub(crate) fn journal_of(alloc: Global) -> Option<String> {
    let mut text = String::from_str(alloc, "1 audit => ").ok()?;
    let turn = push_entries(&mut text, MOVES, 0).ok()?;
    push_entries(&mut text, RIGHTS, turn).ok()?;
    text.push_str("end").ok()?;
    Some(text)
}
