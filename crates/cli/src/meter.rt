ghost use Rattle.std.specs.Prelude.{⊤};

use grid::Level;
use sokopar::{Progress, Watch};
use std::fmt;
use std::time::{Clock, Instant};

/// Says how long searches have run. If that is wanted, it writes on standard error how far they are, at most one line a
/// second: once the proved bound rises, else after ten seconds, and for each better solution. It reads the clock only for
/// these lines, and when it is asked how long a search has run. If the clock cannot be read, no time counts as over.
#[derive(Drop)]
pub(crate) struct Meter<'a, R> {
    rt: &'a R,
    is_wanted: bool,
    // the limit of positions
    limit: u32,
    // the number of the last level, of several
    last: Option<u32>,
    number: u32,
    // the pushes of the given solution
    given: Option<usize>,
    // what the last line said
    at_least: u32,
    // when the search first asked for its time
    start: Option<Instant>,
    // when the last line was written, or before the first one the first search began
    written: Option<Instant>,
}

/// The seconds after which a line may come, and without a greater bound.
const SOON: u32 = 1;

const LATE: u32 = 10;

/// A number after a word, if there is one.
#[derive(Clone, Copy)]
struct IfAny(&'static str, Option<usize>);

impl fmt::Display for IfAny {
    fn fmt<W: fmt::Write>(&self, f: &mut fmt::Formatter<W>) -> fmt::Result {
        match self.1 {
            Some(number) => write!(f, "{}{number}", self.0),
            None => Ok(()),
        }
    }
}

/// The whole seconds from one time to another.
fn seconds_between(from: Instant, to: Instant) -> u32 {
    u32::try_from(to.duration_since(from).as_secs()).unwrap_or(u32::MAX)
}

impl<'a, R: Clock + Eprint> Meter<'a, R> {
    /// A meter of searches with a limit of positions, which writes lines if they are wanted.
    pub(crate) fn new(rt: &'a R, is_wanted: bool, limit: u32) -> Meter<'a, R> {
        Meter {
            rt,
            is_wanted,
            limit,
            last: None,
            number: 0,
            given: None,
            at_least: 0,
            start: None,
            written: None,
        }
    }

    // Whether a line may come once this many seconds are over since the last one. If so it counts as written.
    fn is_due(&mut self, seconds: u32) -> bool {
        let Ok(now) = Instant::now(self.rt) else {
            return false;
        };
        let Some(before) = self.written else {
            self.written = Some(now);
            return false;
        };
        let is_due = seconds_between(before, now) >= seconds;
        if is_due {
            self.written = Some(now);
        }
        is_due
    }

    // Writes how far a search for the fewest pushes is. A line that cannot be written changes nothing else.
    fn write_bound(&mut self, at_least: u32, found: usize) {
        let number = self.number;
        let limit = self.limit;
        let last = IfAny(" of ", self.last.map(|last| last as usize));
        let given = IfAny(", given ", self.given);
        let seconds = self.seconds();
        let _ = eprintln!(self.rt;
            "level {number}{last}: at least {at_least} pushes{given}, {found} of {limit} positions, {seconds} s"
        );
    }
}

impl<'a, R: Clock + Eprint> Progress for Meter<'a, R> {
    ghost told = { λ _ _. ⊤ };

    fn note(&mut self, _level: &Level, at_least: u32, found: usize) {
        if !self.is_wanted {
            return;
        }
        let wait = if at_least > self.at_least { SOON } else { LATE };
        if self.is_due(wait) {
            self.at_least = at_least;
            self.write_bound(at_least, found);
        }
    }

    fn better(&mut self, pushes: usize, moves: usize) {
        if self.is_wanted && self.is_due(SOON) {
            let _ = eprintln!(self.rt; "near the solution: {pushes} pushes, {moves} moves");
        }
    }

    fn seconds(&mut self) -> u32 {
        let Ok(now) = Instant::now(self.rt) else {
            return 0;
        };
        let Some(start) = self.start else {
            self.start = Some(now);
            return 0;
        };
        seconds_between(start, now)
    }
}

impl<'a, R: Clock + Eprint> Watch for Meter<'a, R> {
    fn wants_last(&self) -> bool {
        self.is_wanted
    }

    fn end_at(&mut self, number: u32) {
        self.last = Some(number);
    }

    fn begin(&mut self, number: u32) {
        self.number = number;
        self.given = None;
        self.at_least = 0;
    }

    fn compare(&mut self, pushes: usize) {
        self.given = Some(pushes);
    }

    fn restart(&mut self) {
        self.start = None;
        if self.is_wanted {
            let _ = self.seconds();
        }
    }
}
