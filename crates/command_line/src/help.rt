//! What `--help` says, besides what `clap` makes of the forms of the command.

/// What the program is.
pub(crate) const PROGRAM: &str = "\
A dispatch board: one fleet, one plan, and who may change it.

With no command, dispatch reads an instance, a line %% and a script from standard input, and writes
the replies to the script's lines to standard output. `dispatch run` reads them from two files.

Status:
  0  all was done
  1  some line was denied, refused, faulty or bad
  2  the words of the command line are wrong
  3  a file or an instance is at fault, or a board could not be opened or run on

What ends a run early is reported on standard error:
  dispatch: cannot read PATH             the file is not there or may not be read; of INSTANCE and ROWS
                                         also a folder, one that fails while it is read, or is too long
  dispatch: instance fault KIND line N   `dispatch check --help` has the format
  dispatch: open fault                   memory ran out before or after the script, or for a worker
  dispatch: run fault KIND               read, write, long-line or no-memory, at some line
  dispatch: rows fault line N            of `dispatch draw` and `dispatch sums`: no such row, or no rows";

/// What `dispatch check` does.
pub(crate) const CHECK: &str = "\
Reads an instance and prints its name, sizes and horizon. Only the format is checked: a customer that no
vehicle can carry, or reach in time, passes, and can never be planned.

INSTANCE may be /dev/stdin; a `-` names a file. `dispatch: cannot read INSTANCE`, with status 3, says
that the file is not there, may not be read, is a folder, fails while it is read, or has more than
16,777,216 bytes.";

/// What `dispatch run` does.
pub(crate) const RUN: &str = "\
Opens the board of an instance, and answers the lines of a script.

INSTANCE or SCRIPT may be /dev/stdin; a `-` names a file. `dispatch: cannot read PATH`, with status 3,
says that the file is not there or may not be read, or, of INSTANCE alone, that it is a folder, fails
while it is read, or has more than 16,777,216 bytes. `dispatch: run fault read` says that a SCRIPT of
any size is a folder or fails while it is read. The instance is judged before SCRIPT and the live file
are opened, and each reply is written before the next read: with /dev/stdin as SCRIPT the board is
worked at from a terminal.

With --workers N the board has N workers beside it, each with a desk and a session of its own. Before
SCRIPT, session 1 makes the user `worker` and the role `worker`, and opens session 2 for worker 1,
session 3 for worker 2, and so on. The role may do nothing at first. What workers may touch is what
SCRIPT grants it, as here two vehicles and four customers:
  1 grant worker move vehicle 1 2
  1 grant worker move customer 1 4

SCRIPT runs alone. Then each worker does its rounds, while the lines of --live FILE are answered. In a
round a worker draws two vehicles, looks for the allowed move near them that saves the most
travel, and proposes it, if one saves any. At the end there is a line for each worker, and one for the plan:
  worker I tried T committed C denied D refused R
  version V
T of worker I's rounds were not idle: C proposed a move that was committed, D one that was denied, and
R met a fault, as a full journal; in the others no allowed move saved anything. V is the number of all
commits. `dispatch: open fault` also says that workers could not be set up or started.

Two switches write more to standard error, and change nothing else. With --progress it gets a line each
time that another twentieth of all workers' rounds is done; COMMITS are the workers' commits so far:
  progress ROUNDS of TOTAL rounds, COMMITS commits, SECONDS s
With --explain it gets a line behind the reply of each line of SCRIPT that was denied, refused, faulty
or bad, and where SCRIPT ends early, with the number of that line and what the reply means:
  line N: MEANING
Lines of the live file have no such note.";

/// What an instance's path names.
pub(crate) const INSTANCE_PATH: &str = "A file in Solomon's format, of at most 16,777,216 bytes";

/// The options of a run.
pub(crate) const WORKERS: &str =
    "How many workers search beside the board's desk 1: 0 to 63 [default: 0]";

pub(crate) const ROUNDS: &str = "How many rounds each worker does: 0 to 1000000 [default: 100]";

pub(crate) const SEED: &str = "Worker I draws by this number plus I: 0 to 4294967295 [default: 1]";

pub(crate) const LIVE: &str = "A file of lines that are answered while the workers search";

pub(crate) const PROGRESS: &str = "Say on standard error how far the workers are";

pub(crate) const EXPLAIN: &str =
    "Say on standard error what each refusal of a line of SCRIPT means";

/// What the rows of a plan are.
pub(crate) const ROWS_PATH: &str =
    "The output of a run, with a listing, of at most 16,777,216 bytes";

pub(crate) const DRAW_SHORT: &str = "Draws the plan that a run listed last";

pub(crate) const DRAW: &str = "\
Draws the plan that a run listed last, as one SVG: a map, a table and a timeline.

ROWS is the output of a run, in a file or on /dev/stdin. Its last listing with a row is drawn, from
`row` lines up to `end`, and all other lines are skipped:
  dispatch run INSTANCE SCRIPT | dispatch draw INSTANCE /dev/stdin > plan.svg

`dispatch: rows fault line N`, with status 3, says that line N is a row that the instance cannot have:
a vehicle, customer or place that is not there, a customer twice, or planned rows out of order. Where no
listing has a row, N is the number of lines plus 1.";

pub(crate) const SUMS_SHORT: &str = "Sums up the plan that a run listed last";

pub(crate) const SUMS: &str = "\
Sums up the plan that a run listed last: a line for each vehicle that has a stop, with its stops, load,
start, return and distance, and one for the plan. Times and distances are tenths.

ROWS is the output of a run, in a file or on /dev/stdin. Its last listing with a row is summed up, from
`row` lines up to `end`, and all other lines are skipped:
  dispatch run INSTANCE SCRIPT | dispatch sums INSTANCE /dev/stdin

`dispatch: rows fault line N`, with status 3, says that line N is a row that the instance cannot have:
a vehicle, customer or place that is not there, a customer twice, or planned rows out of order. Where no
listing has a row, N is the number of lines plus 1.";

/// The format of an instance.
pub(crate) const INSTANCE: &str = "\
An instance, in Solomon's format:
  NAME                                    1 to 64 printable characters
  VEHICLE
  NUMBER CAPACITY
  vehicles capacity                       1 to 1,000 vehicles
  CUSTOMER
  CUST NO. ...                            a line whose first word is CUST
  number x y demand ready due service     0, the depot, whose demand is 0; then 1 to 1,000 customers

  A number is 1 to 7 digits; a dot and zeros may follow. Blank lines are skipped. Keywords match in
  upper and lower case. No vehicle may carry more than the capacity, and a customer's service
  begins between its ready time and its due date.

Times:
  The board counts in tenths of the file's unit: ready times, due dates and service times are
  multiplied by 10, and so is the distance, rounded down to a whole number. The horizon is the depot's due date.

Faults, as `dispatch: instance fault KIND line N`:
  name, vehicle, fleet, customer, heading, fields, number, order, window, depot, count, end

docs/INSTANCES.md has each fault with what it looks like in a file.";

/// The lines of a script.
pub(crate) const LINES: &str = "\
Lines of a script, SESSION COMMAND ARGUMENTS:
  plan       insert C V P BASE                      put C, which stands nowhere, at place P of V
             remove V P BASE                        take away the customer at P
             shift V P LENGTH TO AT BASE            move LENGTH customers to place AT of TO
             swap V P OTHER AT BASE                 exchange two customers
             reverse V FIRST LAST BASE              reverse the order of a stretch
             cross V KEEP OTHER KEEP_OTHER BASE     exchange the tails of two routes
  pins       pin C, unpin C, freeze V LENGTH, thaw V LENGTH
  users      add-user U, delete-user U, assign U R, deassign U R
  roles      add-role R, delete-role R, inherit SENIOR JUNIOR, uninherit SENIOR JUNIOR
  rights     grant R OPERATION RANGE, revoke R OPERATION RANGE
  ssd sets   ssd-create X N R.., ssd-add X R, ssd-drop X R, ssd-delete X, ssd-number X N
  dsd sets   dsd-create X N R.., dsd-add X R, dsd-drop X R, dsd-delete X, dsd-number X N, migrate
  sessions   open U R.., close S, activate S R, deactivate S R
  questions  list, json, audit, check OPERATION OBJECT, users R, roles U, active S

  C customer, V vehicle, P place from 1, U user, R role, X set, S session, N number; BASE the N of
  the last `committed N`, 0 at first.
  OPERATION  view, move, pin, freeze, admin, audit, override
  OBJECT     board, vehicle V, customer C
  RANGE      board, vehicle FIRST LAST, customer FIRST LAST, both ends included

  Words are separated by spaces and tabs; commands, operations and the kinds of objects are in lower
  case, and names keep theirs. Blank lines, and lines that begin with #, are skipped. A name is 1
  to 32 letters, digits, _, - and dots; a number 1 to 10 digits, at most 4294967295. Session 1 is
  there at first: its user and role are root, which may administer the policy and nothing else until
  it grants itself more.

Replies:
  A listing has a line `row V P C LOAD TIME` for each planned customer and `row 0 0 C` for the others,
  of those that the session may view, and then `end`. Times are tenths of the file's unit.

Limits:
  a line 4,096 bytes; an instance 16,777,216 bytes, 1,000 customers, 1,000 vehicles; a board 1,000,000
  events (lines that are neither questions nor bad), 1,024 users, 256 roles, 64 sets of each kind,
  1,024 sessions

docs/SCRIPT.md has every command and reply, and docs/INSTANCES.md the format of instances.";
