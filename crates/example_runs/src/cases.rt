//! A case: a line of a verb and words `NAME=VALUE`, with one space before each of them.

/// What is run, over which files, by which workers, and how it is read and written.
#[derive(Clone, Copy, Drop)]
pub(crate) struct Case<'a> {
    pub verb: &'a str,
    /// Names of files. The script is a script's, or the rows of a listing.
    pub instance: &'a str,
    pub script: &'a str,
    pub live: &'a str,
    /// The words of a command line, with `|` between them.
    pub words: &'a str,
    pub workers: u32,
    pub rounds: u32,
    pub seed: u32,
    /// Whether refusals are explained: 1 or 0.
    pub explain: u32,
    /// So many line feeds and then so many spaces, with a line feed behind them, stand before an instance.
    pub feeds: u32,
    pub spaces: u32,
    /// How often the script is given (the live script, where there is one), how many bytes a read at most, and after how many reads it fails.
    pub times: u32,
    pub gives: u32,
    pub reads: u32,
    /// How many bytes a write takes, how many writes and flushes there are before one fails, and after how many bytes a writer forgets.
    pub takes: u32,
    pub writes: u32,
    pub flushes: u32,
    pub tail: u32,
}

const PLAIN: Case<'static> = Case {
    verb: "",
    instance: "",
    script: "",
    live: "",
    words: "",
    workers: 0,
    rounds: 100,
    seed: 1,
    explain: 0,
    feeds: 0,
    spaces: 0,
    times: 1,
    gives: u32::MAX,
    reads: u32::MAX,
    takes: u32::MAX,
    writes: u32::MAX,
    flushes: u32::MAX,
    tail: u32::MAX,
};

/// The case with one of its numbers.
fn with_number<'a>(case: Case<'a>, name: &str, number: u32) -> Option<Case<'a>> {
    let mut case = case;
    match name {
        "workers" => case.workers = number,
        "rounds" => case.rounds = number,
        "seed" => case.seed = number,
        "explain" => case.explain = number,
        "feeds" => case.feeds = number,
        "spaces" => case.spaces = number,
        "times" => case.times = number,
        "gives" => case.gives = number,
        "reads" => case.reads = number,
        "takes" => case.takes = number,
        "writes" => case.writes = number,
        "flushes" => case.flushes = number,
        "tail" => case.tail = number,
        _ => return None,
    }
    Some(case)
}

/// The case with one more word.
fn with_word<'a>(case: Case<'a>, word: &'a str) -> Option<Case<'a>> {
    let (name, value) = word.split_once("=")?;
    let mut case = case;
    match name {
        "instance" => case.instance = value,
        "script" => case.script = value,
        "live" => case.live = value,
        _ => return with_number(case, name, value.parse::<u32>().ok()?),
    }
    Some(case)
}

/// The case of a line, if it is one. The words of a command line come last.
pub(crate) fn case_of(line: &str) -> Option<Case<'_>> {
    let (front, words) = line.split_once(" words=").unwrap_or((line, ""));
    let mut left = front.split(' ');
    let mut case = PLAIN;
    case.verb = left.next()?;
    case.words = words;
    for word in left {
        case = with_word(case, word)?;
    }
    Some(case)
}
