// Which declarations' types were asked for and aren't known. No clause says which an expression asks for: it only says what is worth deriving next.
ghost use Rattle.std.specs.Prelude.{◌≡◌, ◌++◌, ◌∷◌, [], true, false, Some, None, OnOk};
ghost use Rattle.sts_scope.specs.Rules as rule;
ghost use Rattle.type_derive.specs.Wanted.{asked_for};

use crate::callees::Called;
use crate::scopes::kind_at;
use std::alloc::Global;
use sts_base::NoMemory;
use sts_scope::{Environment, Found, Part};

/// Declarations whose types were asked for and aren't known, as they were asked for, if they are noted.
#[derive(Drop)]
pub struct Wanted {
    /// whether they are noted
    pub notes: bool,
    /// those that were noted
    pub noted: Vec<usize>,
}

impl Wanted {
    /// Notes nothing.
    pub fn nothing(alloc: Global) -> Wanted
        ensures { result.noted.items ≡ [] }
    {
        Wanted {
            notes: false,
            noted: Vec::new(alloc),
        }
    }

    /// Notes each.
    pub fn each(alloc: Global) -> Wanted
        ensures { result.noted.items ≡ [] }
    {
        Wanted {
            notes: true,
            noted: Vec::new(alloc),
        }
    }

    /// Adds a declaration.
    fn add(&mut self, d: usize) -> Result<(), NoMemory>
        ensures { OnOk result (self.new.noted.items ≡ self.old.noted.items ++ d ∷ []) }
    {
        match self.noted.push(d) {
            Ok(()) => Ok(()),
            Err(_) => Err(NoMemory),
        }
    }

    /// Notes a declaration whose type isn't known.
    pub fn note(&mut self, known: &Environment, d: usize) -> Result<(), NoMemory>
        ensures { OnOk result (self.new.noted.items ≡ self.old.noted.items ++ asked_for known.now self.old.notes d) }
    {
        match kind_at(known, d) {
            None => { if self.notes { self.add(d) } else { Ok(()) } }
            Some(_) => Ok(()),
        }
    }

    /// Notes what a name stands for.
    pub fn note_found(&mut self, known: &Environment, found: Found) -> Result<(), NoMemory> {
        match found {
            Found::Global(d) => self.note(known, d),
            Found::Function(d) => self.note(known, d),
            Found::Local(_) => Ok(()),
            Found::Captured => Ok(()),
            Found::Class(_) => Ok(()),
            Found::Unknown => Ok(()),
        }
    }

    /// Notes what stands behind a dot.
    pub fn note_part(&mut self, known: &Environment, part: Option<Part>) -> Result<(), NoMemory> {
        match part {
            Some(Part::Field(d)) => self.note(known, d),
            Some(Part::Method(d)) => self.note(known, d),
            Some(Part::Length) => Ok(()),
            Some(Part::Push(_)) => Ok(()),
            Some(Part::Pop(_)) => Ok(()),
            Some(Part::Missing) => Ok(()),
            None => Ok(()),
        }
    }

    /// Notes what is called.
    pub fn note_called(
        &mut self,
        known: &Environment,
        called: Option<Called>,
    ) -> Result<(), NoMemory> {
        match called {
            Some(Called::Routine(d)) => self.note(known, d),
            Some(Called::Push(_)) => Ok(()),
            Some(Called::Pop(_)) => Ok(()),
            Some(Called::Maker(_)) => Ok(()),
            None => Ok(()),
        }
    }
}
