// The work list: which declarations were asked for, which wait for the type of another, and which are to be derived next.
ghost use Rattle.std.specs.Prelude.{◌≡◌, ◌≢◌, ℕ, ◌-◌, ◌≤◌, ◌<◌, ◌⊎◌, ◌++◌, ◌∷◌, [], true, false, not, length, take, get_or, set, if◌then◌else◌, OnOk, IfOk, IfNone, IfSome};
ghost use Rattle.std.specs.List.{All, Contains};
ghost use Rattle.derived_types.specs.Work.{AsksFor, Hears, HasAnswered, IsOpen, IsUntouched, BeginsToWait, Wakes, is_asked, waiters, effort};

use std::alloc::Global;
use sts_base::NoMemory;

/// What is to be derived. Each declaration is asked for once, when another asks for it or in its turn, and derived again when a type on which it waited is known.
#[derive(Drop)]
pub struct Work {
    /// of each declaration whether it was asked for
    pub asked: Vec<bool>,
    /// those that were asked for and aren't done yet, the next one last
    pub pending: Vec<usize>,
    /// those that wait for the type of each declaration
    pub waiting: Vec<Vec<usize>>,
    /// those that waited for a type that is known now
    pub woken: Vec<usize>,
    /// of each declaration whether it is among these
    pub is_woken: Vec<bool>,
    /// the next one that is asked for in its turn
    pub next: usize,
}

fn put<T: Drop>(list: &mut Vec<T>, item: T) -> Result<(), NoMemory>
    ensures { OnOk result (list.new.items ≡ list.old.items ++ item ∷ []) }
{
    match list.push(item) {
        Ok(()) => Ok(()),
        Err(_) => Err(NoMemory),
    }
}

/// Sets the mark of a declaration. Whether it wasn't set.
fn mark(marks: &mut Vec<bool>, d: usize) -> bool
    ensures first { result ≡ not (get_or marks.old.items d true) }
    ensures marked { marks.new.items ≡ if result then set marks.old.items d true else marks.old.items }
{
    if d < marks.len() && !marks[d] {
        marks[d] = true;
        true
    } else {
        false
    }
}

/// Takes away the mark of a declaration.
fn unmark(marks: &mut [bool], d: usize) {
    if d < marks.len() {
        marks[d] = false;
    }
}

/// Adds one that waits for a declaration.
fn add_waiter(waiting: &mut Vec<Vec<usize>>, e: usize, d: usize) -> Result<(), NoMemory>
    ensures here { OnOk result (e < length waiting.old.items
        → waiters waiting.new.items e ≡ waiters waiting.old.items e ++ d ∷ []) }
    ensures others { OnOk result ((x : ℕ) → x ≢ e → waiters waiting.new.items x ≡ waiters waiting.old.items x) }
    ensures len { OnOk result (length waiting.new.items ≡ length waiting.old.items) }
{
    match waiting.get_mut(e) {
        None => Ok(()),
        Some(all) => put(all, d),
    }
}

/// Takes away those that wait for a declaration.
fn take_waiters(alloc: Global, waiting: &mut Vec<Vec<usize>>, e: usize) -> Vec<usize>
    ensures taken { result.items ≡ waiters waiting.old.items e }
    ensures gone { waiters waiting.new.items e ≡ [] }
    ensures others { (x : ℕ) → x ≢ e → waiters waiting.new.items x ≡ waiters waiting.old.items x }
{
    match waiting.get_mut(e) {
        None => Vec::new(alloc),
        Some(all) => std::mem::replace(all, Vec::new(alloc)),
    }
}

/// So many marks, none of which is set.
fn no_marks(alloc: Global, count: usize) -> Result<Vec<bool>, NoMemory>
    ensures none { IfOk result (λ marks. All (λ b. b ≡ false) marks.items) }
    ensures len { IfOk result (λ marks. length marks.items ≡ count) }
{
    let mut marks = Vec::new(alloc);
    for _ in 0..count {
        put(&mut marks, false)?;
    }
    Ok(marks)
}

/// So many lists, each of which is empty.
fn no_lists(alloc: Global, count: usize) -> Result<Vec<Vec<usize>>, NoMemory>
    ensures { IfOk result (λ lists. length lists.items ≡ count) }
{
    let mut lists = Vec::new(alloc);
    for _ in 0..count {
        put(&mut lists, Vec::new(alloc))?;
    }
    Ok(lists)
}

impl Work {
    /// So many declarations, none of which was asked for.
    pub fn of(alloc: Global, count: usize) -> Result<Work, NoMemory>
        ensures { IfOk result (λ work. IsUntouched count work) }
    {
        let asked = no_marks(alloc, count)?;
        let waiting = no_lists(alloc, count)?;
        let is_woken = no_marks(alloc, count)?;
        Ok(Work {
            asked,
            pending: Vec::new(alloc),
            waiting,
            woken: Vec::new(alloc),
            is_woken,
            next: 0,
        })
    }

    /// Asks for a declaration, if it wasn't asked for before.
    fn ask(&mut self, d: usize) -> Result<(), NoMemory>
        ensures asks { OnOk result (AsksFor self.old self.new) }
        ensures asked { OnOk result (is_asked self.new d ≡ true) }
        ensures one { OnOk result ((self.new.pending.items ≡ self.old.pending.items ++ d ∷ [])
            ⊎ (self.new.pending.items ≡ self.old.pending.items)) }
        ensures waiting { self.new.waiting ≡ self.old.waiting }
    {
        if mark(&mut self.asked, d) {
            put(&mut self.pending, d)?;
            Ok(())
        } else {
            Ok(())
        }
    }

    /// A declaration asks for another: that one comes first, or it was asked for before and is waited for.
    fn hear_one(&mut self, d: usize, e: usize) -> Result<(), NoMemory>
        ensures { OnOk result (Hears d (e ∷ []) self.old self.new) }
    {
        if e < self.asked.len() && self.asked[e] {
            add_waiter(&mut self.waiting, e, d)
        } else {
            self.ask(e)
        }
    }

    /// A declaration asks for others.
    fn hear(&mut self, d: usize, noted: &[usize]) -> Result<(), NoMemory>
        ensures { OnOk result (Hears d noted.now self.old self.new) }
    {
        for i in 0..noted.len() {
            self.hear_one(d, noted[i])?;
        }
        Ok(())
    }

    /// The declaration that is pending last has no type yet, and asked for these: it stays where one of them is asked for first, else it is done.
    pub fn put_off(&mut self, d: usize, noted: &[usize]) -> Result<(), NoMemory>
        requires { 1 ≤ length self.old.pending.items }
        ensures less { OnOk result (effort self.new < effort self.old) }
        ensures waits { OnOk result (BeginsToWait d noted.now self.old self.new) }
        ensures asked { OnOk result (All (λ e. is_asked self.new e ≡ true) noted.now) }
    {
        let before = self.pending.len();
        self.hear(d, noted)?;
        if self.pending.len() == before {
            let _ = self.pending.pop();
        }
        Ok(())
    }

    /// Wakes one that waited.
    fn wake(&mut self, d: usize) -> Result<(), NoMemory>
        ensures { OnOk result (Wakes (d ∷ []) self.old self.new) }
    {
        if mark(&mut self.is_woken, d) {
            put(&mut self.woken, d)?;
            Ok(())
        } else {
            Ok(())
        }
    }

    /// Wakes some that waited.
    fn wake_all(&mut self, all: &[usize]) -> Result<(), NoMemory>
        ensures { OnOk result (Wakes all.now self.old self.new) }
    {
        for i in 0..all.len() {
            self.wake(all[i])?;
        }
        Ok(())
    }

    /// The declaration that is pending last has a type now: it is done, and those that wait for it are woken.
    pub fn answer(&mut self, alloc: Global, d: usize) -> Result<(), NoMemory>
        ensures done { OnOk result (HasAnswered d self.old self.new) }
        ensures wakes { OnOk result (Wakes (waiters self.old.waiting.items d)
            (record self.old { pending = self.new.pending; waiting = self.new.waiting }) self.new) }
    {
        let _ = self.pending.pop();
        let all = take_waiters(alloc, &mut self.waiting, d);
        self.wake_all(all.as_slice())
    }

    /// Asks for the next one in its turn.
    fn ask_next(&mut self) -> Result<(), NoMemory>
        requires { self.old.next < length self.old.asked.items }
        ensures less { OnOk result (effort self.new < effort self.old) }
        ensures one { OnOk result ((self.new.pending.items ≡ self.old.pending.items ++ self.old.next ∷ [])
            ⊎ (self.new.pending.items ≡ self.old.pending.items)) }
    {
        let next = self.next;
        self.next = next + 1;
        self.ask(next)?;
        Ok(())
    }

    /// Goes on with one that was woken, else with the next one in its turn, where none is pending.
    pub fn go_on(&mut self) -> Result<(), NoMemory>
        requires more { IsOpen self.old }
        requires none { length self.old.pending.items ≡ 0 }
        ensures less { OnOk result (effort self.new < effort self.old) }
        ensures one { OnOk result ((d : ℕ) → Contains self.new.pending.items d
            → Contains self.old.woken.items d ⊎ (d ≡ self.old.next)) }
    {
        match self.woken.pop() {
            Some(d) => {
                unmark(self.is_woken.as_mut_slice(), d);
                put(&mut self.pending, d)
            }
            None => self.ask_next(),
        }
    }

    /// The declaration that is pending last.
    pub fn last(&self) -> Option<usize>
        ensures none { IfNone result (length self.now.pending.items ≡ 0) }
        ensures some { IfSome result (λ d. 1 ≤ length self.now.pending.items) }
        ensures last { IfSome result (λ d. d ≡ get_or self.now.pending.items (length self.now.pending.items - 1) d) }
    {
        match self.pending.as_slice() {
            [] => None,
            [.., d] => Some(*d),
        }
    }

    /// Whether something is left to derive.
    pub fn is_open(&self) -> bool
        ensures { result ≡ true → IsOpen self.now }
    {
        !self.pending.is_empty() || !self.woken.is_empty() || self.next < self.asked.len()
    }
}
