//! Instances that are cut and changed, read as a plain slow reader reads them.
use crate::tests::comparing::holds;
use crate::tests::torn::plain::agrees;
use solomon_reader::read;
use std::alloc::{AllocError, Global};
use std::process::Abort;

/// Four customers and two vehicles.
pub(crate) const A: &str =
    "A\n\nVEHICLE\nNUMBER     CAPACITY\n  2          10\n\nCUSTOMER\nCUST NO.  XCOORD.  YCOORD.  DEMAND  READY TIME  DUE DATE  SERVICE TIME\n\n    0      0      0      0      0     100      0\n    1      2      2      4      0      50      0\n    2      6      6      3      0      50      0\n    3     10     10      3      0      14      0\n    4      3      4      5      0      50      0\n";

/// The same with other ends of lines, and numbers with points.
const DOTTED: &str =
    " A 1\t\r\nvehicle\r\nNumber Capacity\r\n 2.0 10.00\r\ncustomer\r\ncust\r\n0 0 0 0 0 100.0 0\r\n1 2 2 4 0 50 0\r\n\t\r\n2 6 6 3 0 50 0\r\n3 10 10 3 0 14 0";

/// Reads a text, and compares what is read. It says whether it is an instance.
fn reads_alike(rt: &impl Abort, alloc: Global, text: &[u8]) -> bool {
    let found = read(alloc, text);
    holds(rt, agrees(text, &found), "a text is read alike");
    found.is_ok()
}

#[test]
fn instances_cut_at_each_byte(rt: HostRuntime) {
    for whole in [A, DOTTED] {
        let bytes = whole.as_bytes();
        for cut in 0..=bytes.len() {
            let (text, _) = bytes.split_at(cut);
            reads_alike(&rt, rt.alloc(), text);
        }
    }
}

/// Numbers at random, the same in each run.
#[derive(Drop)]
struct Random {
    state: u64,
}

impl Random {
    /// A number below a limit, which is not 0.
    fn below(&mut self, limit: usize) -> usize {
        self.state = self
            .state
            .wrapping_mul(6364136223846793005)
            .wrapping_add(1442695040888963407);
        let drawn = (self.state >> 33) as usize;
        match limit {
            0 => 0,
            _ => drawn % limit,
        }
    }
}

const LETTERS: &[u8] = b"0123456789999..  \t\t\r\n\nACVcv-e\x00\x7f\xc3";

/// What is behind so many bytes.
fn behind(text: &[u8], count: usize) -> &[u8] {
    text.split_at(count.min(text.len())).1
}

/// A text with one change: a letter more, another letter, some bytes less, or some bytes twice.
fn changed(alloc: Global, text: &[u8], random: &mut Random) -> Result<Vec<u8>, AllocError> {
    let at = random.below(text.len().saturating_add(1)).min(text.len());
    let (front, back) = text.split_at(at);
    let kind = random.below(6);
    let letter = LETTERS
        .get(random.below(LETTERS.len()))
        .copied()
        .unwrap_or(b'0');
    let stretch = random.below(50);
    let mut new = Vec::with_capacity(alloc, 2048)?;
    new.extend_from_slice(front)?;
    if kind < 2 {
        new.push(letter)?;
    }
    if kind == 5 {
        new.extend_from_slice(back.split_at(stretch.min(back.len())).0)?;
    }
    let less = match kind {
        1 | 2 => 1,
        3 => stretch,
        _ => 0,
    };
    new.extend_from_slice(behind(back, less))?;
    Ok(new)
}

/// Changes a text up to four times, and reads it. It says whether it is an instance.
fn changes_and_reads(
    rt: &impl Abort,
    alloc: Global,
    whole: &str,
    random: &mut Random,
) -> Result<bool, AllocError> {
    let mut text = changed(alloc, whole.as_bytes(), random)?;
    for _ in 0..random.below(4) {
        text = changed(alloc, text.as_slice(), random)?;
    }
    Ok(reads_alike(rt, alloc, text.as_slice()))
}

/// Two thousand changed texts, of which some are instances and most are not.
#[test]
fn changed_instances(rt: HostRuntime) {
    let mut random = Random { state: 39 };
    let mut instances = 0u32;
    for _ in 0..1000u32 {
        for whole in [A, DOTTED] {
            if changes_and_reads(&rt, rt.alloc(), whole, &mut random) == Ok(true) {
                instances = instances.wrapping_add(1);
            }
        }
    }
    holds(&rt, instances > 200, "some are instances");
    holds(&rt, instances < 1800, "some are none");
}
