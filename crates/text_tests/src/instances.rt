use crate::comparing::{all_written, same};
use solomon_reader::{Kind, Node, ReadFault, read};
use std::alloc::{AllocError, Global};
use std::process::Abort;

/// An instance with a depot and four customers: lines 2, 6 and 9 are blank.
const LINES: [&str; 14] = [
    "A",
    "",
    "VEHICLE",
    "NUMBER     CAPACITY",
    "  2          10",
    "",
    "CUSTOMER",
    "CUST NO.  XCOORD.  YCOORD.  DEMAND  READY TIME  DUE DATE  SERVICE TIME",
    "",
    "    0      0      0      0      0     100      0",
    "    1      2      2      4      0      50      0",
    "    2      6      6      3      0      50      0",
    "    3     10     10      3      0      14      0",
    "    4      3      4      5      0      50      0",
];

const WHOLE: (usize, usize) = (1, 14);

/// The lines of the instance's text from one to another, counted from 1, with another text in place of one line, and an end behind each.
fn text_of(
    alloc: Global,
    lines: (usize, usize),
    changed: (usize, &str),
    end: &str,
) -> Result<String, AllocError> {
    let mut text = String::new(alloc);
    let mut at = 0usize;
    for line in LINES {
        at = at.wrapping_add(1);
        if lines.0 <= at && at <= lines.1 {
            text.push_str(if at == changed.0 { changed.1 } else { line })?;
            text.push_str(end)?;
        }
    }
    Ok(text)
}

/// The nodes of those lines.
const NODES: &[Node] = &[
    Node {
        x: 0,
        y: 0,
        demand: 0,
        ready: 0,
        due: 100,
        service: 0,
    },
    Node {
        x: 2,
        y: 2,
        demand: 4,
        ready: 0,
        due: 50,
        service: 0,
    },
    Node {
        x: 6,
        y: 6,
        demand: 3,
        ready: 0,
        due: 50,
        service: 0,
    },
    Node {
        x: 10,
        y: 10,
        demand: 3,
        ready: 0,
        due: 14,
        service: 0,
    },
    Node {
        x: 3,
        y: 4,
        demand: 5,
        ready: 0,
        due: 50,
        service: 0,
    },
];

/// A name, vehicles and their capacity, and nodes.
type Wanted<'a> = (&'a str, u32, u32, &'a [Node]);

/// Compares the instance that a text is read as.
fn compare_read(rt: &impl Abort, alloc: Global, text: &[u8], wanted: Wanted<'_>) {
    let read = read(alloc, text).expect(rt, "an instance");
    let found = (
        read.name.as_str(),
        read.vehicles,
        read.capacity,
        read.nodes.as_slice(),
    );
    same(rt, found, wanted, "an instance");
}

/// A name of 64 bytes, and one of 65.
const LONG: &str = "xxxxxxxxxxxxxxxxxxxxxxxxxxxxxxxxxxxxxxxxxxxxxxxxxxxxxxxxxxxxxx ~";

const TOO_LONG: &str = "xxxxxxxxxxxxxxxxxxxxxxxxxxxxxxxxxxxxxxxxxxxxxxxxxxxxxxxxxxxxxxx ~";

/// Forms that mean the same: a line with another text, the ends of all lines, and the name.
const FORMS: &[(usize, &str, &str, &str)] = &[
    (0, "", "\n", "A"),
    (0, "", "\r\n", "A"),
    (0, "", " \t\r\n", "A"),
    (1, " \tA\t ", "\n", "A"),
    (1, LONG, "\n", LONG),
    (1, LONG, " \n", LONG),
    (2, " \t ", "\n", "A"),
    (3, "vehicle", "\n", "A"),
    (4, "\tNumber Capacity ", "\n", "A"),
    (5, "2.0 10.000", "\n", "A"),
    (7, "CusTomer", "\n", "A"),
    (8, "cust", "\n", "A"),
    (9, "\n \n\n", "\n", "A"),
    (11, "1 2.00 2 4 0 50 0", "\n", "A"),
    (11, "0000001\t0000002.0\t2\t4\t0\t50\t0", "\n", "A"),
    (14, "4 3 4 5 0 50 0.000000000", "\n", "A"),
];

#[test]
fn forms_that_mean_the_same(rt: HostRuntime) {
    for (number, line, end, name) in FORMS {
        let text = text_of(rt.alloc(), WHOLE, (*number, line), end).expect(&rt, "memory");
        compare_read(&rt, rt.alloc(), text.as_bytes(), (name, 2, 10, NODES));
    }
}

type Found = Option<(Kind, usize)>;

fn fault_in(alloc: Global, text: &[u8]) -> Found {
    match read(alloc, text) {
        Err(ReadFault::At(kind, line)) => Some((kind, line)),
        _ => None,
    }
}

/// The fault in such lines.
fn fault_of(alloc: Global, lines: (usize, usize), changed: (usize, &str)) -> Found {
    match text_of(alloc, lines, changed, "\n") {
        Ok(text) => fault_in(alloc, text.as_bytes()),
        Err(_) => None,
    }
}

const FAULTS: &[(usize, &str, Kind)] = &[
    (1, "A\tB", Kind::Name),
    (1, "A\x7f", Kind::Name),
    (1, "A\r\r", Kind::Name),
    (1, TOO_LONG, Kind::Name),
    (2, "\r\r", Kind::Vehicle),
    (3, "VEHICLES", Kind::Vehicle),
    (3, "VEHICLE 1", Kind::Vehicle),
    (3, "VEHICLE\r\r", Kind::Vehicle),
    (4, "NUMBER", Kind::Fleet),
    (4, "NUMBER CAPACITY 2", Kind::Fleet),
    (4, "CAPACITY NUMBER", Kind::Fleet),
    (5, "2", Kind::Fleet),
    (5, "2 10 1", Kind::Fleet),
    (5, "2 x", Kind::Number),
    (5, "0 x", Kind::Number),
    (5, "0 10", Kind::Count),
    (5, "1001 10", Kind::Count),
    (7, "CUSTOMERS", Kind::Customer),
    (7, "CUSTOMER 5", Kind::Customer),
    (8, "CUSTNO.", Kind::Heading),
    (10, "0 0 0 0 0 100", Kind::Fields),
    (10, "0 0 0 0 0 100 0 0", Kind::Fields),
    (11, "1 2.50 2 4 0 50 0", Kind::Number),
    (11, "1 2. 2 4 0 50 0", Kind::Number),
    (11, "1 .0 2 4 0 50 0", Kind::Number),
    (11, "1 2.0.0 2 4 0 50 0", Kind::Number),
    (11, "1 12345678 2 4 0 50 0", Kind::Number),
    (11, "1 -2 2 4 0 50 0", Kind::Number),
    (11, "1 2e0 2 4 0 50 0", Kind::Number),
    (11, "2 x 2 4 0 50 0", Kind::Number),
    (12, "3 6 6 3 0 50 0", Kind::Order),
    (12, "3 6 6 3 51 50 0", Kind::Order),
    (13, "3 10 10 3 15 14 0", Kind::Window),
    (10, "0 0 0 1 101 100 0", Kind::Window),
    (10, "0 0 0 1 0 100 0", Kind::Depot),
];

#[test]
fn each_check_answers_its_fault(rt: HostRuntime) {
    for (line, form, kind) in FAULTS {
        let found = fault_of(rt.alloc(), WHOLE, (*line, form));
        same(&rt, found, Some((*kind, *line)), form);
    }
}

/// The first and the last of the lines that are there, and the fault.
const PARTS: &[(usize, usize, Kind, usize)] = &[
    (1, 0, Kind::Name, 1),
    (1, 1, Kind::Vehicle, 2),
    (1, 2, Kind::Vehicle, 3),
    (1, 3, Kind::Fleet, 4),
    (1, 4, Kind::Fleet, 5),
    (1, 5, Kind::Customer, 6),
    (1, 6, Kind::Customer, 7),
    (1, 7, Kind::Heading, 8),
    (1, 8, Kind::End, 9),
    (1, 9, Kind::End, 10),
    (1, 10, Kind::End, 11),
    (2, 14, Kind::Vehicle, 3),
];

#[test]
fn a_text_cut_after_a_line(rt: HostRuntime) {
    for (first, last, kind, line) in PARTS {
        let found = fault_of(rt.alloc(), (*first, *last), (0, ""));
        same(&rt, found, Some((*kind, *line)), "a part");
    }
    let found = fault_in(rt.alloc(), b"\n\r");
    same(&rt, found, Some((Kind::Name, 3)), "ends of lines");
    let text = text_of(rt.alloc(), (1, 13), (0, ""), "\n").expect(&rt, "memory");
    let (four, _) = NODES.split_at(4);
    compare_read(&rt, rt.alloc(), text.as_bytes(), ("A", 2, 10, four));
}

/// At how many bytes the text may be cut, so that it is an instance.
fn instances_in(alloc: Global, text: &[u8]) -> u32 {
    let mut instances = 0u32;
    for cut in 0..=text.len() {
        let (front, _) = text.split_at(cut);
        if fault_in(alloc, front).is_none() {
            instances = instances.wrapping_add(1);
        }
    }
    instances
}

#[test]
fn a_text_cut_at_each_byte(rt: HostRuntime) {
    let text = text_of(rt.alloc(), WHOLE, (0, ""), "\n").expect(&rt, "memory");
    // Line 11 is whole from its last digit on. The four blanks that begin each later line change
    // nothing, and then that line is whole from its last digit on: 2 + 3 * 6.
    let found = instances_in(rt.alloc(), text.as_bytes());
    same(&rt, found, 20, "instances");
}

const OF_SOLOMON: &str =
    "C101\n\nVEHICLE\nNUMBER     CAPACITY\n  25         200\n\nCUSTOMER\nCUST NO.   XCOORD.    YCOORD.    DEMAND   READY TIME   DUE DATE   SERVICE   TIME\n \n    0      40         50          0          0       1236          0   \n    1      45         68         10        912        967         90   \n    2      45         70         30        825        870         90   \n";

const OF_HOMBERGER: &str =
    "c1_2_1\r\n\r\nVEHICLE\r\nNUMBER     CAPACITY\r\n  50          200\r\n\r\nCUSTOMER\r\nCUST NO.  XCOORD.   YCOORD.    DEMAND   READY TIME  DUE DATE   SERVICE TIME\r\n\r\n    0      70         70          0          0       1351          0 \r\n    1      33         78         20        750        809         90 \r\n\r\n";

/// A depot and two customers.
const NODES_OF_SOLOMON: &[Node] = &[
    Node {
        x: 40,
        y: 50,
        demand: 0,
        ready: 0,
        due: 1236,
        service: 0,
    },
    Node {
        x: 45,
        y: 68,
        demand: 10,
        ready: 912,
        due: 967,
        service: 90,
    },
    Node {
        x: 45,
        y: 70,
        demand: 30,
        ready: 825,
        due: 870,
        service: 90,
    },
];

/// A depot and one customer.
const NODES_OF_HOMBERGER: &[Node] = &[
    Node {
        x: 70,
        y: 70,
        demand: 0,
        ready: 0,
        due: 1351,
        service: 0,
    },
    Node {
        x: 33,
        y: 78,
        demand: 20,
        ready: 750,
        due: 809,
        service: 90,
    },
];

#[test]
fn layouts_of_solomon_and_of_homberger(rt: HostRuntime) {
    let solomon = ("C101", 25, 200, NODES_OF_SOLOMON);
    compare_read(&rt, rt.alloc(), OF_SOLOMON.as_bytes(), solomon);
    let homberger = ("c1_2_1", 50, 200, NODES_OF_HOMBERGER);
    compare_read(&rt, rt.alloc(), OF_HOMBERGER.as_bytes(), homberger);
}

const KINDS: &[(Kind, &str)] = &[
    (Kind::Name, "name"),
    (Kind::Vehicle, "vehicle"),
    (Kind::Fleet, "fleet"),
    (Kind::Customer, "customer"),
    (Kind::Heading, "heading"),
    (Kind::Fields, "fields"),
    (Kind::Number, "number"),
    (Kind::Order, "order"),
    (Kind::Window, "window"),
    (Kind::Depot, "depot"),
    (Kind::Count, "count"),
    (Kind::End, "end"),
];

const READ_FAULTS: &[(ReadFault, &str)] = &[
    (ReadFault::At(Kind::Count, 1011), "count line 1011"),
    (ReadFault::NoMemory, "out of memory"),
];

#[test]
fn faults_in_words(rt: HostRuntime) {
    all_written(&rt, rt.alloc(), KINDS);
    all_written(&rt, rt.alloc(), READ_FAULTS);
}
