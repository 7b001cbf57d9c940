ghost use Rattle.std.specs.Prelude.{◌≡◌, ◌⊎◌, ℕ, List, [], Result, Option, IfErr, IfOk, IfSome};

use crate::fault::RunFault;
use crate::source::Source;

/// A folder of solutions.
pub trait Folder {
    ghost use Rattle.sokopar.specs.declared.fault.RunFault.{RunFault};

    type File: Source + Drop;

    // what opening the solution of a level gave: a file, or that there is none, or why it failed
    ghost opened: { Self → ℕ → Result (Option Self.File) RunFault → Type 0 };

    // the path of the folder
    ghost path_seen: { Self → List ℕ };

    /// The path of the folder, as reports name it.
    fn path(&self) -> &[u8]
        ensures path { result.now ≡ path_seen self.now };

    /// Opens the solution of a level; `None` if there is no such file. Fails with [`RunFault::Read`] if it cannot be
    /// opened, or with [`RunFault::OutOfMemory`].
    fn open(&self, number: u32) -> Result<Option<Self::File>, RunFault>
        ensures opened { opened self.now number result }
        ensures fresh { IfOk result (λ file. IfSome file (λ file. (Self.File.seen file).acts ≡ [])) }
        ensures fault { IfErr result (λ fault. (fault ≡ RunFault.OutOfMemory) ⊎ (fault ≡ RunFault.Read)) };
}
