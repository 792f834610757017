//! What words ask for, and which of them names which file.

use crate::doing::perform;
use crate::tests::cases::{A, B, GRANTED};
use crate::tests::comparing::{same, text_in};
use crate::words::{run, run_words};
use std::alloc::Global;
use std::fs;
use std::io::{self, Eprint, ErrorKind};
use std::process::Abort;
use std::rt::Files;
use std::sync::Wait;
use std::thread::Threads;
use std::time::Clock;

/// Words, what is to be written, said and noted of them, and the status.
type Case<'a> = (&'a [&'a str], &'a str, &'a str, &'a str, u8);

const CANNOT: &str = "dispatch: cannot read a\n";

const NO_NAME: &str = "dispatch: instance fault name line 1\n";

const UNREAD: &[Case<'static>] = &[
    (&["dispatch", "check", "a"], "", CANNOT, "", 3),
    (&["dispatch", "run", "a", "b"], "", CANNOT, "", 3),
    (
        &["dispatch", "run", "a", "b", "--live", "c"],
        "",
        CANNOT,
        "",
        3,
    ),
    (&["dispatch", "draw", "a", "b"], "", CANNOT, "", 3),
    (&["dispatch", "sums", "a", "b"], "", CANNOT, "", 3),
    (&["dispatch", "run", "/dev/null", "b"], "", NO_NAME, "", 3),
    (&["dispatch"], "", NO_NAME, "", 3),
];

/// Words that ask for nothing: what is written, what the faults begin with, and the status.
const NOTHING: &[(&[&str], &str, &str, u8)] = &[
    (&["dispatch", "chek"], "", "error: unrecognized", 2),
    (&["dispatch", "--version"], "dispatch 0.1.0\n", "", 0),
    (
        &["dispatch", "run", "a", "b", "--workers=64"],
        "",
        "error: invalid value for '--workers <N>'",
        2,
    ),
];

/// What was written, said and noted, and the status.
struct Said {
    written: Vec<u8>,
    faults: Vec<u8>,
    notes: Vec<u8>,
    status: u8,
}

// Written by hand: a derived drop is expanded, down to each list, at every place where a value is dropped.
impl Drop for Said {
    fn drop(self) {
        let Said {
            written: _,
            faults: _,
            notes: _,
            status: _,
        } = self;
    }
}

fn nothing_said(alloc: Global) -> Said {
    Said {
        written: Vec::new(alloc),
        faults: Vec::new(alloc),
        notes: Vec::new(alloc),
        status: 0,
    }
}

/// Does what words ask for.
fn performed<
    H: Threads + Wait + Clock + Eprint + AllocGlobal + Files + Copy + Drop + Send + Sync + 'static,
>(rt: H, words: &[&str]) -> Said {
    let mut said = nothing_said(rt.alloc());
    said.status = perform(
        rt,
        words,
        &mut b"".as_slice(),
        &mut said.written,
        &mut said.faults,
        &mut said.notes,
    );
    said
}

/// Compares what is written, said and noted, and the status.
fn compare(rt: &impl Abort, said: &Said, case: Case<'_>) {
    let (_, written, faults, notes, status) = case;
    let found = (
        text_in(&said.written),
        text_in(&said.faults),
        text_in(&said.notes),
        said.status,
    );
    same(rt, found, (written, faults, notes, status), "words");
}

/// The same of each case.
fn compare_all<
    H: Threads
        + Wait
        + Clock
        + Eprint
        + AllocGlobal
        + Abort
        + Files
        + Copy
        + Drop
        + Send
        + Sync
        + 'static,
>(rt: H, cases: &[Case<'_>]) {
    for case in cases {
        compare(&rt, &performed(rt, case.0), *case);
    }
}

/// Compares what is written and the status. The faults are wanted to begin with a text, and without one to be empty.
fn compare_begun(rt: &impl Abort, said: &Said, written: &str, faults: &str, status: u8) {
    let found = (
        text_in(&said.written),
        said.faults.is_empty(),
        said.faults.starts_with(faults.as_bytes()),
        said.status,
    );
    let wanted = (written, faults.is_empty(), true, status);
    same(rt, found, wanted, "words that ask for nothing");
}

#[test]
fn words_that_ask_for_nothing(rt: HostRuntime) {
    for (words, written, said, status) in NOTHING {
        compare_begun(&rt, &performed(rt, words), written, said, *status);
    }
}

#[test]
fn words_name_files_in_order(rt: HostRuntime) {
    compare_all(rt, UNREAD);
}

/// An error in place of the words: what is said, and the status.
const ERRORS: &[(ErrorKind, &str, u8)] = &[
    (
        ErrorKind::InvalidData,
        "error: a word of the command line is not UTF-8\n",
        2,
    ),
    (ErrorKind::OutOfMemory, "dispatch: open fault\n", 3),
];

#[test]
fn words_that_cannot_be_read(rt: HostRuntime) {
    for (kind, faults, status) in ERRORS {
        let mut said = nothing_said(rt.alloc());
        said.status = run_words(
            rt,
            Err(io::Error::from(*kind)),
            &mut b"".as_slice(),
            &mut said.written,
            &mut said.faults,
            &mut said.notes,
        );
        compare(&rt, &said, (&[], "", faults, "", *status));
    }
}

/// A test is run in a process of its own, whose words are a name and the test's path, and whose standard input is empty. The path is no
/// subcommand, so the status is 2; without it the words would ask for the joined form, which ends with 3 on no input.
#[test]
fn the_words_of_the_process(rt: HostRuntime) {
    let status = run(
        rt,
        &mut rt.stdin(),
        &mut rt.stdout(),
        &mut rt.stderr(),
        &mut rt.stderr(),
    );
    same(&rt, status, 2, "the status");
}

const INSTANCE_FILE: &str = "worker_run_tests_words_instance";

const SCRIPT_FILE: &str = "worker_run_tests_words_script";

const LIVE_FILE: &str = "worker_run_tests_words_live";

const TRIED_NOTHING: &str =
    "bad word\nworker 1 tried 0 committed 0 denied 0 refused 0\nversion 0\n";

const TRIED_NOTHING_LIVE: &str =
    "bad word\nend\nworker 1 tried 0 committed 0 denied 0 refused 0\nversion 0\n";

const NO_COMMAND: &str = "line 1: 'fly' is not a command\n";

/// Runs a script, alone or with workers who do no round, and with notes or without.
const NOTED: &[Case<'static>] = &[
    (
        &["dispatch", "run", INSTANCE_FILE, SCRIPT_FILE],
        "bad word\n",
        "",
        "",
        1,
    ),
    (
        &["dispatch", "run", INSTANCE_FILE, SCRIPT_FILE, "--explain"],
        "bad word\n",
        "",
        NO_COMMAND,
        1,
    ),
    (
        &[
            "dispatch",
            "run",
            INSTANCE_FILE,
            SCRIPT_FILE,
            "--workers=1",
            "--rounds=0",
            "--progress",
        ],
        TRIED_NOTHING,
        "",
        "",
        1,
    ),
    (
        &[
            "dispatch",
            "run",
            INSTANCE_FILE,
            SCRIPT_FILE,
            "--workers=1",
            "--rounds=0",
            "--explain",
        ],
        TRIED_NOTHING,
        "",
        NO_COMMAND,
        1,
    ),
    (
        &[
            "dispatch",
            "run",
            INSTANCE_FILE,
            SCRIPT_FILE,
            "--workers=1",
            "--rounds=0",
            "--explain",
            "--live",
            LIVE_FILE,
        ],
        TRIED_NOTHING_LIVE,
        "",
        NO_COMMAND,
        1,
    ),
    (
        &[
            "dispatch",
            "run",
            INSTANCE_FILE,
            SCRIPT_FILE,
            "--live",
            LIVE_FILE,
        ],
        "bad word\nend\n",
        "",
        "",
        1,
    ),
];

fn write_file<R: Files + AllocGlobal + Abort>(rt: &R, file: &str, text: &str) {
    fs::write(rt, file, text).expect(rt, "a file");
}

fn remove_file<R: Files + AllocGlobal + Abort>(rt: &R, file: &str) {
    fs::remove_file(rt, file).expect(rt, "a file");
}

/// Lines of the script have notes where they are asked for, and lines of the live script never.
#[test]
fn notes_where_they_are_asked_for(rt: HostRuntime) {
    write_file(&rt, INSTANCE_FILE, A);
    write_file(&rt, SCRIPT_FILE, "1 fly\n");
    write_file(&rt, LIVE_FILE, "1 list\n");
    compare_all(rt, NOTED);
    remove_file(&rt, LIVE_FILE);
    remove_file(&rt, SCRIPT_FILE);
    remove_file(&rt, INSTANCE_FILE);
}

const SEED_INSTANCE: &str = "worker_run_tests_seed_instance";

const SEED_SCRIPT: &str = "worker_run_tests_seed_script";

/// The replies to the script, and the lines of a worker who did nothing.
const UNCHANGED: &str = "\
done\n\
done\n\
done\n\
done\n\
committed 1\n\
committed 2\n\
committed 3\n\
worker 1 tried 0 committed 0 denied 0 refused 0\n\
version 3\n";

const SEEDED: &[Case<'static>] = &[(
    &[
        "dispatch",
        "run",
        SEED_INSTANCE,
        SEED_SCRIPT,
        "--workers=1",
        "--rounds=0",
        "--seed=5",
    ],
    UNCHANGED,
    "",
    "",
    0,
)];

/// The numbers of rounds and of the seed are not one another's: without rounds a worker proposes nothing.
#[test]
fn rounds_and_a_seed(rt: HostRuntime) {
    write_file(&rt, SEED_INSTANCE, B);
    write_file(&rt, SEED_SCRIPT, GRANTED);
    compare_all(rt, SEEDED);
    remove_file(&rt, SEED_SCRIPT);
    remove_file(&rt, SEED_INSTANCE);
}
