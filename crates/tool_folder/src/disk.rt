// The folder of the disk.
ghost use Rattle.std.specs.Prelude.{◌≡◌, ◌≢◌, ◌≤◌, ◌↔◌, List, ℕ, [], Ok, None, Some, IfOk, IsErrOf, MatchResult};
ghost use Rattle.std.specs.IoError.{error_kind};
ghost use Rattle.sts_base.specs.Faults.{Rose};
ghost use Rattle.tool_folder.specs.Fetching.{IsWithinLimit};
ghost use Rattle.tool_folder.specs.Noting.{HasNoted, names_in};

use crate::noting::note;
use crate::reading::read_up_to;
use crate::{FetchFault, Folder, Found};
use std::alloc::Global;
use std::io::ErrorKind;
use std::rt::Files;
use std::{fs, io};
use sts_base::{NoMemory, Seq};

/// The files of the operating system, named by their paths. It tells no content. A path that names nothing is
/// `Missing`; a directory and every other error of the operating system are faults, but for want of memory. Each name is noted before the file
/// is opened, and without memory for that nothing is opened. Of the last fetch it keeps the error that opening the file met.
#[derive(Drop)]
pub struct DiskFolder<R: Files + Drop> {
    rt: R,
    asked: Seq<String>,
    faults: u64,
    met: Option<ErrorKind>,
}

impl<R: Files + Drop> DiskFolder<R> {
    /// The folder, which was asked for nothing, without faults. It takes no memory.
    pub fn new(alloc: Global, rt: R) -> DiskFolder<R>
        ensures asked { result.asked ≡ [] }
        ensures faults { result.faults ≡ 0 }
    {
        DiskFolder {
            rt,
            asked: Seq::new(alloc),
            faults: 0,
            met: None,
        }
    }

    /// What there is of a file, or the error that the operating system told. `Missing` is the answer exactly where opening the file met the error
    /// that there is none.
    fn found(&mut self, alloc: Global, name: &str, limit: usize) -> io::Result<Found>
        ensures within { IfOk result (λ found. IsWithinLimit limit found) }
        ensures missing { (result ≡ Ok Found.Missing) ↔ (self.new.met ≡ Some ErrorKind.NotFound) }
        ensures asked { self.new.asked ≡ self.old.asked }
        ensures faults { self.new.faults ≡ self.old.faults }
    {
        let opened = fs::File::open(&self.rt, name);
        self.met = error_met(&opened);
        match unless_missing(opened)? {
            Some(mut file) => read_up_to(alloc, &mut file, limit),
            None => Ok(Found::Missing),
        }
    }

    /// What an error of the operating system comes to: want of memory, or else a fault, which is counted.
    fn failed(&mut self, error: &io::Error) -> FetchFault
        ensures memory { (result ≡ FetchFault.NoMemory) ↔ (error_kind error.now ≡ ErrorKind.OutOfMemory) }
        ensures counted { result ≡ FetchFault.Failed → Rose self.old.faults self.new.faults }
        ensures uncounted { result ≡ FetchFault.NoMemory → self.new.faults ≡ self.old.faults }
        ensures later { self.old.faults ≤ self.new.faults }
        ensures asked { self.new.asked ≡ self.old.asked }
        ensures met { self.new.met ≡ self.old.met }
    {
        if error.kind() == ErrorKind::OutOfMemory {
            return FetchFault::NoMemory;
        }
        self.faults = self.faults.saturating_add(1);
        FetchFault::Failed
    }
}

impl<R: Files + Drop> Folder for DiskFolder<R> {
    ghost holds = { λ folder file. None };

    ghost asked = { λ folder. names_in folder.asked };

    ghost faults = { λ folder. folder.faults };

    fn fetch(&mut self, alloc: Global, name: &str, limit: usize) -> Result<Found, FetchFault>
        ensures within { IfOk result (λ found. IsWithinLimit limit found) }
        ensures noted { HasNoted (names_in self.old.asked) (names_in self.new.asked) name.now
            (IsErrOf result FetchFault.NoMemory) }
        ensures unopened { self.new.asked ≡ self.old.asked → self.new.met ≡ None }
        ensures missing { (result ≡ Ok Found.Missing) ↔ (self.new.met ≡ Some ErrorKind.NotFound) }
        ensures later { self.old.faults ≤ self.new.faults }
        ensures failed { IsErrOf result FetchFault.Failed → Rose self.old.faults self.new.faults }
        ensures uncounted { (IsErrOf result FetchFault.Failed → ⊥) → self.new.faults ≡ self.old.faults }
    {
        self.met = None;
        match note(alloc, &mut self.asked, name) {
            Err(NoMemory) => Err(FetchFault::NoMemory),
            Ok(()) => match self.found(alloc, name, limit) {
                Ok(found) => Ok(found),
                Err(error) => Err(self.failed(&error)),
            },
        }
    }
}

/// The error that an opening met, if it met one.
fn error_met<T>(opened: &io::Result<T>) -> Option<ErrorKind>
    ensures { MatchResult opened.now (λ it. result ≡ None) (λ error. result ≡ Some (error_kind error)) }
{
    match opened {
        Ok(_) => None,
        Err(error) => Some(error.kind()),
    }
}

/// What was opened, or nothing where there is none of that name.
fn unless_missing<T>(opened: io::Result<T>) -> io::Result<Option<T>>
    ensures { MatchResult opened (λ it. result ≡ Ok (Some it))
        (λ error. (result ≡ Ok None) ↔ (error_kind error ≡ ErrorKind.NotFound)) }
{
    match opened {
        Ok(it) => Ok(Some(it)),
        Err(error) if error.kind() == ErrorKind::NotFound => Ok(None),
        Err(error) => Err(error),
    }
}
