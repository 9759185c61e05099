// The numbers of functions: of each declaration that is one, and of each class's constructor.
ghost use Rattle.std.specs.Prelude.{◌≡◌, ◌+◌, ◌^◌, ◌<◌, ◌++◌, ◌∷◌, [], IfOk, OnOk};
ghost use Rattle.sts_syntax.specs.Programs.{class_member, class_members, top_level, top_levels, program};
ghost use Rattle.sts_syntax.specs.Views.{statement, declarations};
ghost use Rattle.sts_scope.specs.Handlers as h;
ghost use Rattle.sts_scope.specs.Numbers as number;
ghost use Rattle.typed_numbers.specs.Building.{numbering_of};

use crate::handler_counts::{declared_handlers, routine_handlers, statement_handlers};
use std::alloc::Global;
use sts_base::{NoMemory, Seq};
use sts_syntax::{Binding, Form, Item, Member, Stmt, Unit};

/// The numbers of functions in a program: of each declaration that is one, 0 for the others, and of each class's constructor.
#[derive(Drop)]
pub struct Numbers {
    pub routines: Seq<u32>,
    pub makers: Seq<u32>,
    /// how many functions the library has
    pub library: u32,
}

/// Behind a member, whose functions begin with a number.
pub fn behind_member(member: &Member, from: u32) -> u32
    requires few { from + h.member_routines (class_member member.now) < 2 ^ 32 }
    ensures { result ≡ from + h.member_routines (class_member member.now) }
{
    match member {
        Member::Field(a) => declared_handlers(a, from),
        Member::Method { body, .. } => routine_handlers(body, from + 1),
        Member::Constructor(body) => routine_handlers(body, from + 1),
    }
}

/// How many constructors of some members aren't written: one, or none.
pub fn unwritten(members: &[Member]) -> u32
    ensures { result ≡ h.unwritten (class_members members.now) }
{
    for member in members {
        if let Member::Constructor(_) = member {
            return 0;
        }
    }
    1
}

/// The number of a class's constructor, whose members' functions begin with a number: the first written one's, else the class's own place.
fn maker_from(members: &[Member], first: u32, from: u32) -> u32
    requires few { from + h.members_routines (class_members members.now) < 2 ^ 32 }
    ensures { result ≡ number.maker_from first from (class_members members.now) }
{
    let mut at = from;
    for member in members {
        if let Member::Constructor(_) = member {
            return at;
        }
        at = behind_member(member, at);
    }
    first
}

/// Adds the numbers of a class's declarations but its own, and gives the one behind its functions.
fn add_members(routines: &mut Seq<u32>, members: &[Member], from: u32) -> Result<u32, NoMemory>
    requires few { from + h.members_routines (class_members members.now) < 2 ^ 32 }
    ensures numbers { OnOk result
        (routines.new ≡ routines.old ++ number.member_numbers from (class_members members.now)) }
    ensures behind { IfOk result (λ n. n ≡ from + h.members_routines (class_members members.now)) }
{
    let mut at = from;
    for member in members {
        match member {
            Member::Field(_) => routines.push(0)?,
            Member::Method { .. } => routines.push(at)?,
            Member::Constructor(_) => {}
        }
        at = behind_member(member, at);
    }
    Ok(at)
}

/// Adds a 0 for each global that is declared.
fn add_globals(routines: &mut Seq<u32>, each: &[Binding]) -> Result<(), NoMemory>
    ensures { OnOk result (routines.new ≡ routines.old ++ number.global_places (declarations each.now)) }
{
    for _global in each {
        routines.push(0)?;
    }
    Ok(())
}

/// Adds a 0 for each global that a statement of the main program declares.
fn add_main(routines: &mut Seq<u32>, s: &Stmt) -> Result<(), NoMemory>
    ensures { OnOk result (routines.new ≡ routines.old ++ number.main_numbers (statement s.now)) }
{
    match &s.form {
        Form::Let { each, .. } => add_globals(routines, each.as_slice()),
        _ => Ok(()),
    }
}

impl Numbers {
    /// Adds the numbers of a class, whose functions begin with a number, and gives the one behind them.
    fn add_class(&mut self, members: &[Member], from: u32) -> Result<u32, NoMemory>
        requires few { from
            + (h.unwritten (class_members members.now) + h.members_routines (class_members members.now)) < 2 ^ 32 }
        ensures routines { OnOk result (self.new.routines ≡ self.old.routines
            ++ 0 ∷ number.member_numbers (from + h.unwritten (class_members members.now)) (class_members members.now)) }
        ensures makers { OnOk result
            (self.new.makers ≡ self.old.makers ++ number.maker_from from from (class_members members.now) ∷ []) }
        ensures behind { IfOk result (λ n. n
            ≡ from + (h.unwritten (class_members members.now) + h.members_routines (class_members members.now))) }
    {
        self.makers.push(maker_from(members, from, from))?;
        self.routines.push(0)?;
        add_members(&mut self.routines, members, from + unwritten(members))
    }

    /// Adds the numbers of a part of a text, whose functions begin with a number, and gives the one behind them.
    fn add_item(&mut self, item: &Item, from: u32) -> Result<u32, NoMemory>
        requires few { from + h.item_routines (top_level item.now) < 2 ^ 32 }
        ensures routines { OnOk result
            (self.new.routines ≡ self.old.routines ++ number.item_numbers from (top_level item.now)) }
        ensures makers { OnOk result
            (self.new.makers ≡ self.old.makers ++ number.item_makers from (top_level item.now)) }
        ensures behind { IfOk result (λ n. n ≡ from + h.item_routines (top_level item.now)) }
    {
        match item {
            Item::Class { members, .. } => self.add_class(members.as_slice(), from),
            Item::Function { body, .. } => {
                self.routines.push(from)?;
                Ok(routine_handlers(body, from + 1))
            }
            Item::Stmt(s) => {
                add_main(&mut self.routines, s)?;
                Ok(statement_handlers(s, from))
            }
        }
    }

    /// Adds the numbers of a text, whose functions begin with a number, and gives the one behind them.
    fn add_items(&mut self, items: &[Item], from: u32) -> Result<u32, NoMemory>
        requires few { from + h.all_routines (top_levels items.now) < 2 ^ 32 }
        ensures routines { OnOk result
            (self.new.routines ≡ self.old.routines ++ number.numbers_from from (top_levels items.now)) }
        ensures makers { OnOk result
            (self.new.makers ≡ self.old.makers ++ number.makers_from from (top_levels items.now)) }
        ensures behind { IfOk result (λ n. n ≡ from + h.all_routines (top_levels items.now)) }
    {
        let mut at = from;
        for item in items {
            at = self.add_item(item, at)?;
        }
        Ok(at)
    }
}

/// The numbers of all functions of a library and a text behind it, where 32 bits count them.
#[tactic(auto, using(crate::proofs::Numbered::numbers_append, crate::proofs::Numbered::makers_append))]
pub fn numbering(alloc: Global, library: &Unit, text: &Unit) -> Result<Numbers, NoMemory>
    requires few { h.all_routines (program library.now) + h.all_routines (program text.now) < 2 ^ 32 }
    ensures numbers { IfOk result (λ n. numbering_of n ≡ number.numbering (program library.now ++ program text.now)) }
    ensures library { IfOk result (λ n. n.library ≡ h.all_routines (program library.now)) }
{
    let mut numbers = Numbers {
        routines: Seq::new(alloc),
        makers: Seq::new(alloc),
        library: 0,
    };
    let behind = numbers.add_items(library.items.as_slice(), 0)?;
    numbers.add_items(text.items.as_slice(), behind)?;
    numbers.library = behind;
    Ok(numbers)
}
