ghost use Rattle.std.specs.Prelude.{◌≡◌, ◌⊎◌, ℕ, List, [], Option, IfOk, IfErr, IfSome, ⊤};
ghost use Rattle.cli.specs.Performing.{CannotOpen, IsOpened, MayOpen, OpensSolution};

use crate::steady::Steady;
use crate::trouble::Trouble;
use sokopar::{Folder, Reader, RunFault, Source};
use std::alloc::Global;
use std::rt::Files;
use std::{fs, io};

/// Where the program finds its files.
pub(crate) trait System {
    type File: Source + Drop;

    // what holds of what opening a path gave: a file, or that there is none
    ghost opens: { List ℕ → Option Self.File → Type 0 };

    // what holds of a path whose opening failed
    ghost refuses: { List ℕ → Type 0 };

    /// Opens the file at a path.
    fn open<'a>(&self, path: &'a str) -> Result<Self::File, Trouble<'a>>
        ensures ok { IfOk result (λ file. IsOpened opens Self.File.seen path.now file) }
        ensures err { IfErr result (λ trouble. CannotOpen refuses path.now trouble) };

    /// Fails if the path leads to no folder, or if out of memory.
    fn find_folder<'a>(&self, path: &'a str) -> Result<(), Trouble<'a>>
        ensures { IfErr result (λ trouble. CannotOpen refuses path.now trouble) };

    /// Opens the file at a path; `None` if there is no such file. Fails with [`RunFault::Read`] if it cannot be opened,
    /// or with [`RunFault::OutOfMemory`].
    fn open_if_any(&self, path: &str) -> Result<Option<Self::File>, RunFault>
        ensures opened { MayOpen opens refuses path.now result }
        ensures fresh { IfOk result (λ file. IfSome file (λ file. (Self.File.seen file).acts ≡ [])) }
        ensures fault { IfErr result (λ fault. (fault ≡ RunFault.OutOfMemory) ⊎ (fault ≡ RunFault.Read)) };
}

/// The solutions of a folder: that of level N is the file `N.lurd`.
#[derive(Drop)]
pub(crate) struct Solutions<'s, S> {
    pub(crate) system: &'s S,
    pub(crate) alloc: Global,
    /// The path of the folder.
    pub(crate) folder: &'s str,
}

impl<'s, S: System> Folder for Solutions<'s, S> {
    type File = S::File;

    ghost opened = { λ it. OpensSolution S.opens S.refuses it.folder.now };

    ghost path_seen = { λ it. it.folder.now };

    fn path(&self) -> &[u8] {
        self.folder.as_bytes()
    }

    fn open(&self, number: u32) -> Result<Option<S::File>, RunFault> {
        let folder = self.folder;
        let path = format!(in self.alloc; "{folder}/{number}.lurd")?;
        self.system.open_if_any(path.as_str())
    }
}

/// The files of the system. Nothing is known of a file that opening a path gave, or of a path whose opening failed: std
/// promises nothing of them.
impl<R: Files> System for &R {
    type File = Reader<Steady<R::File>>;

    ghost opens = { λ _ _. ⊤ };

    ghost refuses = { λ _. ⊤ };

    fn open<'b>(&self, path: &'b str) -> Result<Reader<Steady<R::File>>, Trouble<'b>> {
        match fs::open(*self, path) {
            Ok(file) => Ok(Reader::new(Steady::new(file))),
            Err(error) if error.kind() == io::ErrorKind::OutOfMemory => {
                Err(Trouble::Run(RunFault::OutOfMemory))
            }
            Err(_) => Err(Trouble::Open(path)),
        }
    }

    fn find_folder<'b>(&self, path: &'b str) -> Result<(), Trouble<'b>> {
        match fs::metadata(*self, path) {
            Ok(found) if found.is_dir() => Ok(()),
            Ok(_) => Err(Trouble::Open(path)),
            Err(error) if error.kind() == io::ErrorKind::OutOfMemory => {
                Err(Trouble::Run(RunFault::OutOfMemory))
            }
            Err(_) => Err(Trouble::Open(path)),
        }
    }

    fn open_if_any(&self, path: &str) -> Result<Option<Reader<Steady<R::File>>>, RunFault> {
        match fs::open(*self, path) {
            Ok(file) => Ok(Some(Reader::new(Steady::new(file)))),
            Err(error) => match error.kind() {
                io::ErrorKind::NotFound => not_there(*self, path),
                io::ErrorKind::OutOfMemory => Err(RunFault::OutOfMemory),
                _ => Err(RunFault::Read),
            },
        }
    }
}

/// What opening a path gives that leads to no file: none, unless a link is there.
fn not_there<R: Files, F>(files: &R, path: &str) -> Result<Option<F>, RunFault>
    ensures none { IfOk result (λ file. file ≡ None) }
    ensures fault { IfErr result (λ fault. (fault ≡ RunFault.OutOfMemory) ⊎ (fault ≡ RunFault.Read)) }
{
    match fs::symlink_metadata(files, path) {
        Ok(_) => Err(RunFault::Read),
        Err(error) => match error.kind() {
            io::ErrorKind::NotFound => Ok(None),
            io::ErrorKind::OutOfMemory => Err(RunFault::OutOfMemory),
            _ => Err(RunFault::Read),
        },
    }
}
