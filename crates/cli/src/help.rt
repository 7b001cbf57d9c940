use grid::{MAX_BOXES, MAX_COLS, MAX_ROWS};
use lurd::MAX_MOVES;
use std::alloc::{AllocError, Global};
use xsb::MAX_FILE;

/// The text that `--version` prints after the program's name.
pub const VERSION: &str = "0.1.0";

/// The last parts of the help texts of the program and its subcommands.
#[derive(Drop)]
pub struct Notes {
    pub program: String,
    pub check: String,
    pub replay: String,
    pub solve: String,
    pub best: String,
    pub prove: String,
}

impl Notes {
    /// The texts, with the limits filled in.
    pub fn new(alloc: Global) -> Result<Notes, AllocError> {
        Ok(Notes {
            program: program_notes(alloc)?,
            check: check_notes(alloc)?,
            replay: replay_notes(alloc)?,
            solve: solve_notes(alloc)?,
            best: best_notes(alloc)?,
            prove: prove_notes(alloc)?,
        })
    }
}

/// The notations, in the help of the program.
const NOTATIONS: &str = "\
FILE is a collection in XSB notation: # wall, @ player, + player on a goal,
$ box, * box on a goal, . goal; space, - and _ floor. Other lines are text; a
line '; NAME' before a level names it. SOLUTION has moves in LURD notation:
l, u, r, d without a push, L, U, R, D with one. Either may be /dev/stdin.";

/// The exit statuses, in the help of the program.
const STATUSES: &str = "\
Exit status:
  0  good: all levels lawful, the level shown, mapped or solved, the solution
     solves it or is optimal; help or the version was asked for
  1  as the report says: 'fault' (of a level), 'no level', 'unsolvable', 'none
     within' (so few pushes), 'too many boxes'; of a solution 'not optimal' (it
     is beaten), 'unsolved', 'blocked', 'wrong case', 'bad', 'too many moves'
  2  a fault of the command line
  3  a file cannot be opened, read or written, or is too long
  4  a search ended at its limit of positions or seconds
  5  out of memory";

/// Examples, in the help of the program.
const EXAMPLES: &str = "\
Examples:
  sokopar check levels.xsb
  sokopar solve levels.xsb 1";

/// The end of the help of the program: notations, limits, statuses and examples.
fn program_notes(alloc: Global) -> Result<String, AllocError> {
    format!(in alloc;
        "{NOTATIONS}\n\n\
        Limits:\n  \
          {MAX_ROWS} rows and {MAX_COLS} columns a level, {MAX_BOXES} boxes to solve it\n  \
          {MAX_MOVES} moves a solution\n  \
          {MAX_FILE} bytes a file\n\n\
        {STATUSES}\n\n{EXAMPLES}"
    )
}

/// The faults of levels except those of size, in the help of `check`.
const FAULTS: &str = "
  3 NoPlayer    No player, as in ####|#$.#|####. Add a @ (or a + on a goal). Or
                the level was split in two: see below.
  4 TwoPlayers  More than one player, as in ######|#@$.@#|######. Keep one. Or
                two levels were joined: see below.
  5 NoBox       No box, as in ###|#@#|###. Add boxes, $ (or * on a goal).
  6 Counts B G  B boxes and G goals, but there must be as many goals as boxes:
                #####|#@$ #|##### has 6 Counts 1 0. Add what is missing; + and
                * are goals too.
  7 Open        The player could walk out of the level if no box were in the
                way, as in ####|#@$.|####. Close the wall around the room.";

/// Reasons why levels are not found, in the help of `check`.
const MISSING: &str = "\
If a level is missing, split or joined to another:
  A line is text if it has no wall, or has a tab, a letter, a comment after the
  row or any other byte that is no cell, digit or bar. Text ends a level. Two
  levels need a line of text between them; an empty line will do. Lines end with
  LF or CRLF. The encoding is ASCII or UTF-8.

If the report is '0 levels, 0 good' (status 0), no line of FILE is a row. Usual
causes: FILE is UTF-16, or packed (gzip, zip), its lines end with CR alone, or
they are quoted, as in mail (> ####). Convert FILE first. 'sokopar explain'
then says which line looks like a board of other characters.";

/// The end of the help of `check`: its lines, the faults, why levels are not found, and an example.
fn check_notes(alloc: Global) -> Result<String, AllocError> {
    format!(in alloc;
        "Each line has the number of a level, the line of FILE on which it begins, 'ok'\n\
        with rows x columns and boxes, or 'fault' with the fault, and the level's name.\n\n\
        The faults (a level with several has the first of these; | begins a new row):\n  \
          1 TooTall     More than {MAX_ROWS} rows. If these are two levels, put an empty line\n                \
                        between them.\n  \
          2 TooWide     More than {MAX_COLS} columns. Look for a count that is too great, as in\n                \
                        2550#.\
        {FAULTS}\n\n{MISSING}\n\n\
        'sokopar explain FILE N' says where and why level N is faulty.\n\n\
        Examples (FILE is one file; the second one checks many):\n  \
          sokopar check levels.xsb\n  \
          for f in *.xsb; do echo \"$f\"; sokopar check \"$f\"; done"
    )
}

/// The end of the help of `show`.
pub const SHOW: &str = "\
Without N it shows all levels, or those from A to B: a line '; NAME', plain rows
and an empty line for each. A faulty level is a comment with the line of check;
then the exit status is 1. Reading this gives the same lawful levels and names.
A level of which a row has no wall is one line, with | between its rows.

Examples:
  sokopar show levels.xsb 1
  sokopar show levels.xsb --from 1 --to 10 > ten.xsb";

/// The squares of the map, in the help of `dead`.
pub const DEAD: &str = "\
The map has # for walls, . for goals and x for dead squares. The player can
reach a dead square once the boxes are taken away, and no play brings a box from
it to a goal, so a box on it leaves the level unsolvable. The map may lack some
such squares: it sets the player down anew before each push. Other squares are
blank, also those of the boxes and the player.

Example:
  sokopar dead levels.xsb 1";

/// The verdicts, in the help of `replay`.
const VERDICTS: &str = "\
Verdicts on a solution (moves count from 1; the examples are for the level
#####|#@$.#|#####):
  solved P pushes, S moves    All boxes are on goals at the end: R
  unsolved P pushes, S moves  All moves are possible, but a box is not on a goal
                              at the end: the empty file. Moves are missing, or
                              SOLUTION is for another level.
  blocked at I                Move I is impossible: a wall is in the way, or a
                              wall or another box is behind the box. L is
                              blocked at 1. Is the level the right one, and not
                              turned?
  wrong case at I             Move I pushes a box and is a small letter, or it
                              pushes none and is a capital letter: r has the
                              wrong case at 1. Write capital letters for pushes.";

/// The faults of solution texts that name no limit, in the help of `replay`.
const TEXT_FAULTS: &str = "
  bad byte at A   Byte A of SOLUTION is no letter of l, u, r, d, L, U, R, D, no
                  digit, blank or end of a line: Rx has one at 2. Leave out
                  titles, comments, and the first line that solve writes.
  bad count at A  The digits from byte A on are no count. A count has 1 to 4
                  digits, is not 0, and a letter comes right after it: 3r means
                  rrr. 0R and 2 R have no count.";

/// The reports on a folder, in the help of `replay`.
const REPLAYED: &str = "\
With --solutions FOLDER in place of N and SOLUTION, replay goes through FILE, or
its levels from --from to --to. It prints a line for each level N of which the
folder has a file N.lurd, with the verdict after N, and the totals. With --table
it prints a table. All is as 'sokopar prove --help' says, without a search. The
exit status is 0 if all that have a solution are solved.";

/// The end of the help of `explain`.
pub(crate) const EXPLAIN: &str = "\
With N, explain tells of level N, also if nothing is found against it, and shows
it. In a level that check calls ok, x is then a dead square, and ! a box on one.
Without N it goes through FILE, and tells of each level against which it finds
something. Both name lines that may be meant as rows and are none: they have a
wall and another character, or cells and no wall. Such a line ends a level.
Places are lines and columns of FILE, counted from 1.

If a command reports the fault of a level, explain FILE N says where and why,
and names its other faults, each after 'also'. For a level that check calls ok
it says if the start is solved, and if it is unsolvable because boxes or goals
are out of the player's reach, boxes are on dead squares or frozen, the player
cannot move, or some boxes together get to fewer goals than they are. If nothing
is found, the level may still be unsolvable.

The exit status is 0 if each level is lawful and nothing was found, else 1.";

/// The end of the help of `replay`: verdicts, the faults of texts, and an example.
fn replay_notes(alloc: Global) -> Result<String, AllocError> {
    format!(in alloc;
        "{VERDICTS}\n\n\
        Reports if SOLUTION is no text of moves (bytes count from 1):\
        {TEXT_FAULTS}\n  \
          too many moves  More than {MAX_MOVES} moves, the most that replay takes.\n  \
          file too long   More than {MAX_FILE} bytes (on standard error).\n\n\
        If FILE has no level N, the report is 'no level N'. If the level has a fault, it\n\
        is that fault: see 'sokopar check --help'.\n\n\
        SOLUTION may be /dev/stdin. The first line that solve, best and prove write is a\n\
        verdict: --lurd leaves it out.\n\n\
        {REPLAYED}\n\n\
        Example:\n  \
          sokopar solve levels.xsb 1 --lurd |\n      \
              sokopar replay levels.xsb 1 /dev/stdin\n  \
          sokopar replay levels.xsb --solutions solutions"
    )
}

/// The solution that `solve` finds, and pushes and moves, in the help of `solve`.
const ANSWERS: &str = "\
The first line says what was found:
  solved P pushes, S moves, Q positions  The second line is the solution.
  unsolvable, Q positions                There is no solution.
  none within M pushes, Q positions      No solution has M pushes or fewer.
  limit L reached                        Undecided: give a greater --limit, or
                                         use best, which usually needs fewer.";

/// Which solution has the fewest pushes, time and memory of a search, and examples, in the help of `solve`.
const SEARCH: &str = "\
No solution has fewer pushes than the one that solve writes. Others may have
fewer moves: the solution with the fewest pushes need not be the one with the
fewest moves. Each step of the player is a move. A step that pushes a box is
also a push.

The report is the same for every number of workers and locks. Usually fastest
with as many locks as workers: --workers 4 --locks 4 on four processors.

A position takes up to 150 bytes and 1 to 5 microseconds. So the default limit
needs at most about 150 MB and 5 seconds, and 100000000 positions 15 GB and up
to 10 minutes. With more than 11 boxes a position takes up to 240 bytes, with
more than 35 up to 370, and in the largest rooms some 50 microseconds.

With --max-pushes M the search looks only for solutions with at most M pushes.
It needs fewer positions, since it leaves out those from which the boxes need
more.

With --lurd, solve prints only the solution, and nothing if it has none. The
exit status is the same.

Examples:
  sokopar solve levels.xsb 1 --limit 5000000
  sokopar solve levels.xsb 1 --max-pushes 40
  sokopar solve levels.xsb 1 --lurd |
      sokopar replay levels.xsb 1 /dev/stdin";

/// The end of the help of `solve`.
fn solve_notes(alloc: Global) -> Result<String, AllocError> {
    format!(in alloc;
        "{ANSWERS}\n  \
          too many boxes                         The level has more than {MAX_BOXES} boxes.\n\n\
        {SEARCH}"
    )
}

/// The reports, in the help of `best`.
const FEWEST: &str = "\
The first line says what was found:
  optimal P pushes, S moves              The second line is a solution with P
                                         pushes. No solution has fewer.
  unsolvable                             There is no solution.
  none within M pushes                   No solution has M pushes or fewer.
  found P pushes, S moves, limit L reached, at least K pushes
                                         Undecided: the second line is a
                                         solution. None has fewer than K pushes.
  limit L reached, at least K pushes     Undecided: give a greater --limit. No
                                         solution has fewer than K pushes.";

/// The reports with `--moves`, in the help of `best`.
const FEWEST_MOVES: &str = "\
With --moves, best then looks for the fewest moves among the solutions with P
pushes, and the first line of a solution is one of these (exit status 0 and 4):
  optimal P pushes, optimal S moves      No solution with P pushes has fewer
                                         moves.
  optimal P pushes, S moves, limit L reached
                                         The moves are undecided. The second
                                         line is a solution with P pushes.";

/// The reports on all levels, in the help of `best`.
const ALL_LEVELS: &str = "\
Without N, best searches all levels of FILE, or those from --from to --to, one
after the other. It prints a line as soon as a level is decided, and the totals:
  7 optimal P pushes, S moves  SOLUTION  Level 7: as above, on one line.
  8 unsolvable                           Level 8: the first line as above.
  9 fault K WORD                         Level 9 has a fault.
  T levels, .. optimal, .. unsolvable, .. open, .. not judged
Open are the levels with 'limit L reached' or 'out of memory', not judged those
with a fault or too many boxes. The exit status is 0 if all are optimal, else 5
if one ran out of memory, else 4 if one is open, else 1.

With --table, best prints a table for a spreadsheet or for cut: a line of names
and a line for each level, with a tab between two columns, and no totals. The
verdict is one word, such as optimal, open, unsolvable or fault; the next column
says what is proved of the numbers: pushes, or pushes and moves.";

/// The limit of seconds, and the lines on standard error, in the help of `best` and `prove`.
const CLOCK: &str = "\
With --seconds T, each search also ends once it has run T seconds: that for the
fewest pushes, that for the fewest moves, and one near a solution. The report
then says 'limit T seconds reached' in place of 'limit L reached', a table 'T s'
in the column of the limit. It may differ from run to run.

With --progress, lines on standard error show how far a search is: once its
bound rises, else every ten seconds, and at most one line a second.
  level N of B: at least K pushes, given P, Q of L positions, T s
  near the solution: P pushes, S moves
No solution of level N has fewer than K pushes, the given one has P, and the
search has found Q positions in T seconds. The other line is for a search near a
solution, which has found a better one. These lines are tested, but not proved.";

/// How `best` compares with `solve`, its memory, and examples, in the help of `best`.
const BEST: &str = "\
Several solutions can have the fewest pushes. Without --moves, best writes one
of them, which is not always the one with the fewest moves. 'sokopar solve'
writes the first of them in a fixed order and counts positions, and usually
needs more positions.

With --max-pushes M the search looks only for solutions with at most M pushes.

The search counts the positions that it stores, and stops when they exceed the
limit. In rooms of ordinary size a position takes as much memory as in 'sokopar
solve', and tables take up to 270 MB more. A position takes 10 to 60
microseconds, so the default limit takes up to a minute. In open rooms with 30
boxes or more it takes up to 200 microseconds. More workers than free processors
make the search slower.

--moves may take two to five times as long, on few levels much more. Its search
has the same limit, for positions with the exact square of the player.

With --lurd and N, best prints only the solution, and nothing if it has none.
The exit status is the same.

Examples:
  sokopar best levels.xsb 1
  sokopar best levels.xsb 1 --moves
  sokopar best levels.xsb 1 --limit 5000000
  sokopar best levels.xsb --from 5 --to 10
  sokopar best levels.xsb 2 --lurd | sokopar prove levels.xsb 2 /dev/stdin";

/// The end of the help of `best`.
fn best_notes(alloc: Global) -> Result<String, AllocError> {
    format!(in alloc;
        "{FEWEST}\n  \
          too many boxes                         The level has more than {MAX_BOXES} boxes.\n\n\
        {FEWEST_MOVES}\n\n{ALL_LEVELS}\n\n{CLOCK}\n\n{BEST}"
    )
}

/// The reports on a solution, in the help of `prove`.
const JUDGEMENTS: &str = "\
If SOLUTION solves the level, the first line says whether it has the fewest
pushes. P and S are its pushes and moves:
  optimal P pushes, S moves              No solution has fewer pushes.
  not optimal P pushes, S moves, optimal F pushes, T moves
                                         The second line is a solution with F
                                         pushes. No solution has fewer.
  not optimal .., found F pushes, T moves, limit L .., at least K pushes
                                         The second line is a solution with F
                                         pushes and T moves. No solution has
                                         fewer than K pushes.
  limit L reached, at least K pushes, given P pushes, S moves
                                         Undecided: give a greater --limit. No
                                         solution has fewer than K pushes.";

/// The reports with `--moves`, in the help of `prove`.
const MOVES_JUDGED: &str = "\
With --moves, it also says whether the solution has, of all with the fewest
pushes, the fewest moves. The exit status is 0 for the first of these lines, 1
if the line begins with 'not', else 4:
  optimal P pushes, optimal S moves      No solution has fewer pushes, and none
                                         with P pushes has fewer moves.
  optimal P pushes, S moves, limit L reached
                                         No solution has fewer pushes. The moves
                                         are undecided.
  not optimal P pushes, S moves, optimal F pushes, optimal T moves
                                         The second line is a solution with F
                                         pushes and T moves. No solution has
                                         fewer pushes, and none with F pushes
                                         has fewer moves.
  not optimal P pushes, S moves, optimal F pushes, T moves, limit L reached
                                         The second line is a solution with F
                                         pushes. No solution has fewer. The
                                         moves are undecided.
  not optimal .., optimal P pushes, found T moves, limit L reached
                                         The second line is a solution with P
                                         pushes and T moves. No solution has
                                         fewer pushes. The moves are undecided.";

/// The reports on a folder, in the help of `prove`.
const FOLDER: &str = "\
With --solutions FOLDER in place of N and SOLUTION, prove goes through FILE, or
its levels from --from to --to. It prints a line for each level N of which the
folder has a file N.lurd, as soon as that is decided, and the totals:
  7 optimal P pushes, S moves            Level 7: as above, on one line.
  8 cannot read                          The file cannot be opened or read.
  T levels, .. optimal, .. beaten, ..    The totals, also how many are open, not
                                         judged and without a solution.
  no solution in FOLDER                  In place of the totals, if there is none.
The exit status is 0 if all that have a solution are optimal, else 5 if one ran
out of memory, else 3 if one cannot be read, else 4 if one is open, else 1.

With --table, prove prints a table as best does. The verdict is optimal, beaten
(a better solution is in the last column), open, or why there is none.";

/// How `prove` compares with `replay` and `best`, its memory, and examples, in the help of `prove`.
const PROOF: &str = "\
If SOLUTION does not solve the level, prove writes what 'sokopar replay' writes,
with the same exit status.

A known solution bounds the search: prove usually needs fewer positions than
'sokopar best'. The search counts the positions that it stores, and stops when
they exceed the limit. A position takes as much time and memory as in 'sokopar
best', and workers and --moves cost as much as there.

With --lurd, prove prints only the better solution that it finds, and nothing if
it finds none. The exit status is the same.

Examples:
  sokopar prove levels.xsb 1 solution.lurd
  sokopar prove levels.xsb 1 solution.lurd --moves
  sokopar prove levels.xsb 1 solution.lurd --limit 50000000
  sokopar prove levels.xsb --solutions solutions";

/// The end of the help of `prove`.
fn prove_notes(alloc: Global) -> Result<String, AllocError> {
    format!(in alloc;
        "{JUDGEMENTS}\n  \
          too many boxes                         The level has more than {MAX_BOXES} boxes.\n\n\
        {MOVES_JUDGED}\n\n{FOLDER}\n\n{CLOCK}\n\n{PROOF}"
    )
}
