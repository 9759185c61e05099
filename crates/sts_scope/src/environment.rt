// What is known of a program, with the lines of its classes.
ghost use Rattle.std.specs.Prelude.{◌≡◌, ◌<◌, ◌^◌, Some, length, set, IfOk};
ghost use Rattle.sts_scope.specs.Lookup as look;
ghost use Rattle.sts_scope.specs.Bases as base;
ghost use Rattle.sts_scope.specs.Rules as rule;

use crate::lines::{Line, has_no_end, is_below, lines_of, member_of, takes_of};
use crate::lookup::{base_of, is_field, sort_of};
use crate::{ClassHead, Known, StaticType, SymbolTable, Table};
use std::alloc::Global;
use std::marker::Model;
use sts_base::{NoMemory, Seq};

/// What is known of a program. Contracts see it as `Known`. What a class has from its bases is found in logarithmic time.
#[derive(Drop)]
pub struct Environment {
    entries: SymbolTable,
    classes: Seq<ClassHead>,
    kinds: Table<Option<StaticType>>,
    library: usize,
    lines: Table<Option<Line>>,
}

impl Model for Environment {
    ghost use Rattle.std.specs.Prelude.{◌<◌, ◌^◌, length};
    ghost use Rattle.sts_scope.specs.declared.known.Known.{Known};
    ghost use Rattle.sts_scope.specs.Lines.{AreLines};

    ghost Value = { Known };

    ghost view = { λ e. record { entries = e.entries; classes = e.classes; kinds = e.kinds; library = e.library } };

    ghost invariant = { λ e. AreLines e.entries e.classes e.lines × (length e.classes < 2 ^ 32) };
}

impl Environment {
    /// What is known of a program, with the lines of its classes.
    pub fn new(alloc: Global, known: Known) -> Result<Environment, NoMemory>
        requires few { length known.classes < 2 ^ 32 }
        ensures { IfOk result (λ e. e ≡ known) }
    {
        let lines = lines_of(alloc, &known.entries, known.classes.as_slice())?;
        Ok(Environment {
            entries: known.entries,
            classes: known.classes,
            kinds: known.kinds,
            library: known.library,
            lines,
        })
    }

    /// The declarations, in text order.
    pub fn entries(&self) -> &SymbolTable
        ensures { result.now ≡ self.now.entries }
    {
        &self.entries
    }

    /// The classes, in text order: 32 bits count them.
    pub fn classes(&self) -> &[ClassHead]
        ensures all { result.now ≡ self.now.classes }
        ensures few { length result.now < 2 ^ 32 }
    {
        self.classes.as_slice()
    }

    /// The type of each declaration.
    pub fn kinds(&self) -> &Table<Option<StaticType>>
        ensures { result.now ≡ self.now.kinds }
    {
        &self.kinds
    }

    /// How many declarations are the library's.
    pub fn library(&self) -> usize
        ensures { result ≡ self.now.library }
    {
        self.library
    }

    /// Sets the type of a declaration.
    pub fn set_kind(&mut self, d: usize, kind: Option<StaticType>)
        requires { d < length self.old.kinds }
        ensures { self.new ≡ record { entries = self.old.entries; classes = self.old.classes; kinds = set self.old.kinds d kind; library = self.old.library } }
    {
        self.kinds.set(d, kind);
    }

    /// Sets the types of all declarations.
    pub fn set_kinds(&mut self, kinds: Table<Option<StaticType>>)
        ensures { self.new ≡ record { entries = self.old.entries; classes = self.old.classes; kinds = kinds; library = self.old.library } }
    {
        self.kinds = kinds;
    }

    /// The member of a name of a class: its own one, else that of the nearest base that has one.
    pub fn member(&self, c: u32, x: u32) -> Option<usize>
        ensures { result ≡ look.member_number self.now.entries self.now.classes c x }
    {
        member_of(&self.lines, &self.entries, self.classes.as_slice(), c, x)
    }

    /// The member of a name that a class has from its bases.
    pub fn inherited(&self, c: u32, x: u32) -> Option<usize>
        ensures { result ≡ look.inherited self.now.entries self.now.classes c x }
    {
        match base_of(self.classes(), c as usize) {
            None => None,
            Some(b) => self.member(b, x),
        }
    }

    /// Whether a class has a field of a name from its bases.
    pub fn inherits_field(&self, c: u32, x: u32) -> bool
        ensures { result ≡ look.inherits_field self.now.entries self.now.classes c x }
    {
        match self.inherited(c, x) {
            None => false,
            Some(d) => is_field(sort_of(self.entries().as_slice(), d)),
        }
    }

    /// Whether the chain of a class's bases has no end.
    pub fn is_endless(&self, c: usize) -> bool
        ensures { result ≡ base.is_endless self.now.classes c }
    {
        has_no_end(&self.lines, &self.entries, self.classes.as_slice(), c)
    }

    /// Whether a class is another, or one of its bases is.
    pub fn reaches(&self, m: u32, n: u32) -> bool
        ensures { result ≡ rule.reaches self.now.classes (length self.now.classes) m n }
    {
        is_below(&self.lines, &self.entries, self.classes.as_slice(), m, n)
    }

    /// What the nearest written constructor of a class takes.
    pub fn maker_takes(&self, c: u32) -> &[StaticType]
        ensures { result.now ≡ rule.maker_takes_of self.now.classes c }
    {
        takes_of(&self.lines, &self.entries, self.classes.as_slice(), c)
    }
}
