ghost use Rattle.std.specs.Prelude.{◌≡◌};
ghost use Rattle.cli.specs.Performing.{trouble_status};
ghost use Rattle.cli.specs.declared.trouble.Trouble.TheVariants.{Run};

use sokopar::RunFault;
use std::fmt;

/// Why there is no report.
#[derive(Clone, Copy, Debug)]
pub enum Trouble<'a> {
    /// The file at this path cannot be opened.
    Open(&'a str),
    /// The run had a fault.
    Run(RunFault),
}

impl Trouble<'_> {
    /// The exit status: 5 if out of memory, otherwise 3.
    pub fn status(&self) -> u8
        ensures { result ≡ trouble_status self.now }
    {
        match self {
            Trouble::Run(RunFault::OutOfMemory) => 5,
            _ => 3,
        }
    }
}

impl From<RunFault> for Trouble<'_> {
    ghost from_gives = { λ fault trouble. trouble ≡ Run fault };

    fn from(fault: RunFault) -> Self {
        Trouble::Run(fault)
    }
}

impl fmt::Display for Trouble<'_> {
    fn fmt<W: fmt::Write>(&self, f: &mut fmt::Formatter<W>) -> fmt::Result {
        match self {
            Trouble::Open(path) => write!(f, "cannot open {path}"),
            Trouble::Run(fault) => write!(f, "{fault}"),
        }
    }
}
