//! The limits of a board, of its inputs and of the program. Code, clauses and definitions cite them by name.
#![tactic(auto)]

/// How many customers a board has at most. A search gathers the ways between the stops of two routes, a million of them where one vehicle
/// serves all.
pub const MOST_CUSTOMERS: u32 = 1_000;

/// How many vehicles a board has at most. Among the objects of permissions their numbers come before those of customers.
pub const MOST_VEHICLES: u32 = 1_000;

/// How many nodes there are at most: the customers and the depot.
pub const MOST_NODES: u32 = MOST_CUSTOMERS + 1;

/// How many stops a vehicle has at most: the customers of its route, with the depot before and behind them.
pub const MOST_STOPS: u32 = MOST_CUSTOMERS + 2;

/// How many callbacks a registry has at most: one for each dimension, one for the cost, and some to spare.
pub const MOST_CALLBACKS: u32 = 16;

/// How many dimensions a board has at most. A row of a listing keeps a value for each in place.
pub const MOST_DIMENSIONS: usize = 8;

/// The largest answer of a callback, in the unit of its dimension or of the cost. It fits into 32 bits, and the sum of a
/// route's into 64.
pub const LARGEST_ANSWER: u64 = 1_000_000_000;

/// The largest cumul, in the unit of its dimension, and so the largest capacity, slack and end of a range. A cumul, a way and a slack
/// together fit into 64 bits.
pub const LARGEST_CUMUL: u64 = 1_000_000_000_000;

/// The largest cost of a route: as many ways as there are nodes, each with the largest answer.
pub const LARGEST_ROUTE_COST: u64 = MOST_NODES as u64 * LARGEST_ANSWER;

/// How many events a board's journal has at most. Versions, entries and turns are then counted in 32 bits with room to spare.
pub const MOST_EVENTS: u32 = 16_777_216;

/// How many events the journal of the program has at most. Its records then take some 50 MB.
pub const MOST_PROGRAM_EVENTS: u32 = 1_000_000;

/// How many desks a board has at most. Each is for one thread, with a reader of its own.
pub const MOST_DESKS: u32 = 64;

/// How many search workers a board has at most: each has a desk of its own beside the board's first one.
pub const MOST_WORKERS: u32 = MOST_DESKS - 1;

/// How many rounds a search worker of the program does at most.
pub const MOST_ROUNDS: u32 = 1_000_000;

/// How many users a policy has at most. A command may look at each of them.
pub const MOST_USERS: usize = 1_024;

/// How many roles a policy has at most. A role is then one byte, and a set of roles four words.
pub const MOST_ROLES: usize = 256;

/// How many SSD sets a policy has at most, and how many DSD sets. Which of them have a role is then one word.
pub const MOST_SETS: usize = 64;

/// How many sessions of a policy are open at a time at most. A command may look at each of them.
pub const MOST_SESSIONS: usize = 1_024;

/// How many bytes the name of a user, a role or a set of roles has at most. It is then stored in place, and takes no memory of its own.
pub const LONGEST_NAME: usize = 32;

/// How many bytes the name of an instance has at most.
pub const LONGEST_INSTANCE_NAME: usize = 64;

/// How many digits a number of an instance has at most, without a dot and zeros.
pub const MOST_DIGITS: usize = 7;

/// The largest number of an instance, in the file's unit: the largest one of so many digits. Squares of travel then fit into 64 bits.
pub const LARGEST_FIELD: u32 = 9_999_999;

/// The latest time of an instance, in tenths of the file's unit.
pub const LATEST_TIME: u64 = LARGEST_FIELD as u64 * 10;

/// The longest travel between two places of an instance, in tenths of the file's unit: from corner to corner of the square with the largest
/// coordinate as its side, rounded down.
pub const LONGEST_TRAVEL: u64 = 141_421_342;

/// How many bytes the file of an instance has at most, and that of a listing.
pub const LARGEST_FILE: usize = 16_777_216;

/// How many bytes a line of a script has at most, without its line feed.
pub const LONGEST_LINE: usize = 4_096;

/// How many lines a run reads at most, skipped ones counted.
pub const MOST_LINES: u64 = 4_294_967_296;
