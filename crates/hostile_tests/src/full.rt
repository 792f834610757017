//! A board as large as may be: 1,000 customers and vehicles, 8 dimensions, 64 desks, 1,024 users and sessions, 256 roles, 64 sets of each
//! kind, and 1,000,000 events.
use board_text::{BoardFront, run_board_lines};
use line_engine::{Counts, RunFault};
use std::alloc::{AllocError, Global};
use std::io::{self, Read, Write};
use std::process::Abort;

/// Lines of a script, each once for each number from the first one to the last one, which stands in the place of `_`, and the reply to each.
const PARTS: [(&str, &str, u32, u32); 16] = [
    ("1 grant root audit board\n", "done\n", 1, 1),
    ("1 grant root move vehicle 1 1000\n", "done\n", 1, 1),
    ("1 grant root move customer 1 1000\n", "done\n", 1, 1),
    ("1 grant root view vehicle 1 1000\n", "done\n", 1, 1),
    ("1 grant root view customer 1 1000\n", "done\n", 1, 1),
    // Each customer on the vehicle of the same number, and then all listed: each way is as long as the number.
    ("1 insert _ _ 1 0\n", "committed _\n", 1, 1000),
    ("1 list\n", "", 1, 1),
    ("", "row _ 1 _ _ _ _ _ _ _ _ _\n", 1, 1000),
    ("", "end\n", 1, 1),
    // As many users, roles, sets and sessions as there is room for, and then one more of each.
    ("1 add-user u_\n", "done\n", 0, 1022),
    ("1 add-role r_\n", "done\n", 0, 254),
    ("1 ssd-create s_ 2 r0 r254\n", "done\n", 0, 63),
    ("1 dsd-create d_ 2 r0 r254\n", "done\n", 0, 63),
    ("1 open u1022\n", "session _\n", 2, 1024),
    ("1 open u1022\n", "refused full\n", 1, 1),
    (
        "1 add-user u\n1 add-role r\n1 ssd-create s 2 r0 r254\n1 dsd-create d 2 r0 r254\n",
        "refused full\nrefused full\nrefused full\nrefused full\n",
        1,
        1,
    ),
];

/// A script and the replies to it.
#[derive(Drop)]
struct Texts {
    lines: String,
    replies: String,
}

/// Appends a text with a number in the place of each `_`.
fn push_with(text: &mut String, form: &str, number: u32) -> Result<(), AllocError> {
    let mut is_first = true;
    for piece in form.split('_') {
        if !is_first {
            write!(text, "{number}")?;
        }
        text.push_str(piece)?;
        is_first = false;
    }
    Ok(())
}

/// Gives a line so many times, one a read.
#[derive(Drop)]
struct Again<'a> {
    line: &'a [u8],
    times: u32,
}

impl Read for Again<'_> {
    fn read(&mut self, buf: &mut [u8]) -> io::Result<usize> {
        if self.times == 0 {
            return Ok(0);
        }
        self.times -= 1;
        let count = self.line.len().min(buf.len());
        let (front, _) = self.line.split_at(count);
        buf[..count].copy_from_slice(front);
        Ok(count)
    }
}

/// Counts the bytes that are not those of a text over and over again.
#[derive(Drop)]
struct Same<'a> {
    text: &'a [u8],
    at: usize,
    others: u64,
}

impl Write for Same<'_> {
    fn write(&mut self, buf: &[u8]) -> io::Result<usize> {
        for byte in buf {
            if self.text.get(self.at) != Some(byte) {
                self.others = self.others.saturating_add(1);
            }
            self.at = self.at.saturating_add(1);
            if self.at >= self.text.len() {
                self.at = 0;
            }
        }
        Ok(buf.len())
    }

    fn flush(&mut self) -> io::Result<()> {
        Ok(())
    }
}

fn compare(rt: &impl Abort, counts: Result<Counts, RunFault>, lines: u64, others: u64) {
    let Ok(counts) = counts else {
        return assert!(rt; false);
    };
    assert_eq!(rt; (counts.lines, others), (lines, 0u64));
}

/// A line so many times has this reply each time.
fn says_again(
    rt: &impl Abort,
    alloc: Global,
    front: &mut BoardFront,
    line: &[u8],
    times: u32,
    reply: &[u8],
) {
    let mut reader = Again { line, times };
    let mut writer = Same {
        text: reply,
        at: 0,
        others: 0,
    };
    let counts = run_board_lines(&(), alloc, front, &mut reader, &mut writer);
    compare(rt, counts, u64::from(times), writer.others);
}

/// The plan, its listing and the rights.
fn all_texts(alloc: Global) -> Result<Texts, AllocError> {
    let mut lines = String::new(alloc);
    let mut replies = String::new(alloc);
    for (line, reply, first, last) in PARTS {
        for number in first..=last {
            push_with(&mut lines, line, number)?;
            push_with(&mut replies, reply, number)?;
        }
    }
    Ok(Texts { lines, replies })
}

/// A script has these replies.
fn says(rt: &impl Abort, alloc: Global, front: &mut BoardFront, texts: &Texts, lines: u64) {
    let mut writer = Same {
        text: texts.replies.as_str().as_bytes(),
        at: 0,
        others: 0,
    };
    let mut reader = texts.lines.as_str().as_bytes();
    let counts = run_board_lines(&(), alloc, front, &mut reader, &mut writer);
    compare(rt, counts, lines, writer.others);
}

fn compare_events(rt: &impl Abort, events: usize, wanted: usize) {
    assert_eq!(rt; events, wanted);
}

/// Fills a journal of 3,439 entries. The last event there is room for is taken, and the one after it is not; questions
/// are answered.
fn fills_up(rt: &impl Abort, alloc: Global, front: &mut BoardFront) {
    let thaw = b"1 thaw 1 0\n".as_slice();
    let refused = b"refused no-access\n".as_slice();
    says_again(rt, alloc, front, thaw, 996_560, refused);
    compare_events(rt, front.board.events(), 999_999);
    says_again(rt, alloc, front, thaw, 1, refused);
    compare_events(rt, front.board.events(), 1_000_000);
    let full = b"fault full\n".as_slice();
    says_again(rt, alloc, front, thaw, 2, full);
    let question = b"1 check move customer 1000\n".as_slice();
    says_again(rt, alloc, front, question, 1, b"yes\n".as_slice());
    compare_events(rt, front.board.events(), 1_000_000);
}

/// A board's plan and rights, and then its journal, are filled.
pub(crate) fn fills(rt: &impl Abort, alloc: Global, front: &mut BoardFront) {
    let Ok(texts) = all_texts(alloc) else {
        return;
    };
    says(rt, alloc, front, &texts, 3440);
    compare_events(rt, front.board.events(), 3439);
    fills_up(rt, alloc, front);
}
