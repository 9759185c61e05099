//! The bytes of pieces, one cell after another.
ghost use Rattle.std.specs.Prelude.{◌≡◌, ◌≢◌, ℕ, ℤ, pos, ◌+◌, ◌*◌, ◌<◌, ◌≤◌, ◌^◌, ◌++◌, ◌∷◌, List, [], length, IfOk, OnOk};
ghost use Rattle.thumb_code.specs.Table.{Fits};
ghost use Rattle.std.specs.Prelude.{◌-◌, ◌/◌, ◌==◌, if◌then◌else◌};
ghost use Rattle.std.specs.Prelude.{drop, map};
ghost use Rattle.thumb_layout.specs.Soundness.{IsSoundPiece, IsSound};
ghost use Rattle.thumb_layout.specs.Rounds.{forms, layout, counted};
ghost use Rattle.thumb_layout.specs.Placing.{place_of, targets_of};
ghost use Rattle.thumb_layout.specs.Layout.{loads_at, counts_from};
ghost use Rattle.thumb_code.specs.declared.instructions.Instr.TheVariants.{B, BCond, Bl, LdrPc};
ghost use Rattle.thumb_layout.specs.Cells.{Ins, Call, Word, Gap, half_bytes, word_bytes, with_cell, with_cells, offset, opposite, branch, piece_cells, entries, nothing, pools, first, laid, CellsFit};
ghost use Rattle.thumb_layout.specs.Writing.{entry_words, entry_pool, entered_cells, pools_in};

use crate::laid::{Fix, Laid};
use crate::pieces::{ALWAYS, Entry, Piece, What};
use crate::places::PieceOffsets;
use std::alloc::Global;
use sts_base::{NoMemory, Seq};
use thumb_code::{Half, Instr, encode};

/// How far a branch's target is from its address plus 4.
fn offset(at: u32, to: u32) -> i32
    requires at { at < 2 ^ 20 }
    requires to { to < 2 ^ 20 }
    ensures { result ≡ offset at to }
{
    to as i32 - (at as i32 + 4)
}

/// The opposite condition.
fn opposite(cond: u8) -> u8
    requires { cond < 14 }
    ensures { result ≡ opposite cond }
{
    if cond % 2 == 1 { cond - 1 } else { cond + 1 }
}

impl Laid {
    fn put_half(&mut self, half: u16) -> Result<(), NoMemory>
        ensures bytes { OnOk result (self.new.bytes ≡ self.old.bytes ++ half_bytes half) }
        ensures fixes { self.new.fixes ≡ self.old.fixes }
    {
        self.bytes.push((half % 256) as u8)?;
        self.bytes.push((half / 256) as u8)?;
        Ok(())
    }

    fn put_word(&mut self, word: u32) -> Result<(), NoMemory>
        ensures bytes { OnOk result (self.new.bytes ≡ self.old.bytes ++ word_bytes word) }
        ensures fixes { self.new.fixes ≡ self.old.fixes }
    {
        self.bytes.push((word % 256) as u8)?;
        self.bytes.push((word / 256 % 256) as u8)?;
        self.bytes.push((word / 65_536 % 256) as u8)?;
        self.bytes.push((word / 16_777_216) as u8)?;
        Ok(())
    }

    fn put_instr(&mut self, instr: Instr) -> Result<(), NoMemory>
        requires { Fits instr }
        ensures { OnOk result (self.new ≡ with_cell self.old (Ins instr)) }
    {
        match encode(instr) {
            Half::One(half) => self.put_half(half),
            Half::Two(first, second) => {
                self.put_half(first)?;
                self.put_half(second)
            }
        }
    }

    /// Two bytes of zeros, which align a pool.
    fn put_gap(&mut self) -> Result<(), NoMemory>
        ensures { OnOk result (self.new ≡ with_cell self.old Gap) }
    {
        self.put_half(0)
    }

    /// A BL to a function, whose offset is open.
    fn put_call(&mut self, function: u32) -> Result<(), NoMemory>
        requires { length self.old.bytes < 2 ^ 20 }
        ensures { OnOk result (self.new ≡ with_cell self.old (Call function)) }
    {
        self.fixes.push(Fix {
            at: self.bytes.len() as u32,
            what: What::Function(function),
            call: true,
        })?;
        self.put_instr(Instr::Bl { offset: 0 })
    }

    /// The word of a pool. That of a function, a text or a class is open.
    fn put_entry(&mut self, entry: Entry) -> Result<(), NoMemory>
        requires { length self.old.bytes < 2 ^ 22 }
        ensures { OnOk result (self.new ≡ with_cell self.old (Word entry)) }
    {
        match entry {
            Entry::Value(value) => self.put_word(value),
            Entry::Of(what) => {
                self.fixes.push(Fix {
                    at: self.bytes.len() as u32,
                    what,
                    call: false,
                })?;
                self.put_word(0)
            }
        }
    }

    /// A B to an address.
    fn put_b(&mut self, to: u32) -> Result<(), NoMemory>
        requires at { length self.old.bytes < 2 ^ 20 }
        requires to { to < 2 ^ 20 }
        requires fits { Fits (B (offset (length self.old.bytes) to)) }
        ensures { OnOk result (self.new ≡ with_cell self.old (Ins (B (offset (length self.old.bytes) to)))) }
    {
        let offset = offset(self.bytes.len() as u32, to);
        self.put_instr(Instr::B { offset })
    }

    /// A BL to an address.
    fn put_bl(&mut self, to: u32) -> Result<(), NoMemory>
        requires at { length self.old.bytes < 2 ^ 20 }
        requires to { to < 2 ^ 20 }
        requires fits { Fits (Bl (offset (length self.old.bytes) to)) }
        ensures { OnOk result (self.new ≡ with_cell self.old (Ins (Bl (offset (length self.old.bytes) to)))) }
    {
        let offset = offset(self.bytes.len() as u32, to);
        self.put_instr(Instr::Bl { offset })
    }

    /// A conditional branch to an address.
    fn put_bcond(&mut self, cond: u8, to: u32) -> Result<(), NoMemory>
        requires at { length self.old.bytes < 2 ^ 20 }
        requires to { to < 2 ^ 20 }
        requires fits { Fits (BCond cond (offset (length self.old.bytes) to)) }
        ensures { OnOk result (self.new ≡ with_cell self.old (Ins (BCond cond (offset (length self.old.bytes) to)))) }
    {
        let offset = offset(self.bytes.len() as u32, to);
        self.put_instr(Instr::BCond { cond, offset })
    }

    /// A branch to an address, by its form.
    fn put_branch(&mut self, cond: u8, form: u8, to: u32) -> Result<(), NoMemory>
        requires at { length self.old.bytes < 2 ^ 19 }
        requires to { to < 2 ^ 20 }
        requires cond { cond ≤ 14 }
        requires fits { CellsFit (branch cond form (length self.old.bytes) to) }
        ensures { OnOk result (self.new ≡ with_cells self.old (branch cond form (length self.old.bytes) to)) }
    {
        let at = self.bytes.len() as u32;
        if cond == ALWAYS {
            return if form == 0 {
                self.put_b(to)
            } else {
                self.put_bl(to)
            };
        }
        if form == 0 {
            return self.put_bcond(cond, to);
        }
        if form == 1 {
            self.put_bcond(opposite(cond), at + 4)?;
            return self.put_b(to);
        }
        self.put_bcond(opposite(cond), at + 6)?;
        self.put_bl(to)
    }

    /// An LDR of the word at an address, which is behind this one.
    fn put_load(&mut self, rd: u8, entry_at: u64) -> Result<(), NoMemory>
        requires at { length self.old.bytes < 2 ^ 20 }
        requires fits { Fits (LdrPc rd ((entry_at - counts_from (length self.old.bytes)) / 4)) }
        ensures { OnOk result
            (self.new ≡ with_cell self.old (Ins (LdrPc rd ((entry_at - counts_from (length self.old.bytes)) / 4)))) }
    {
        let at = self.bytes.len() as u64;
        let words = entry_at.saturating_sub((at + 4) / 4 * 4) / 4;
        self.put_instr(Instr::LdrPc {
            rt: rd,
            imm: words as u8,
        })
    }

    /// A piece, whose branch has this form and goes to an address, and whose entry is at one.
    fn put_piece(&mut self, piece: &Piece, form: u8, to: u32, entry_at: u64) -> Result<(), NoMemory>
        requires at { length self.old.bytes < 2 ^ 19 }
        requires to { to < 2 ^ 20 }
        requires sound { IsSoundPiece piece.now }
        requires fits { CellsFit (piece_cells (λ label. to) piece.now form (length self.old.bytes) entry_at) }
        ensures { OnOk result (self.new
            ≡ with_cells self.old (piece_cells (λ label. to) piece.now form (length self.old.bytes) entry_at)) }
    {
        match *piece {
            Piece::Plain(instr) => self.put_instr(instr),
            Piece::Label(_) => Ok(()),
            Piece::Go { cond, .. } => self.put_branch(cond, form, to),
            Piece::CallTo { function } => self.put_call(function),
            Piece::Number { rd, value } => {
                if value < 256 {
                    self.put_instr(Instr::MovImm {
                        rd,
                        imm: value as u8,
                    })
                } else {
                    self.put_load(rd, entry_at)
                }
            }
            Piece::Address { rd, .. } => self.put_load(rd, entry_at),
        }
    }

    /// The words of these entries.
    fn put_words(&mut self, waiting: &[Entry]) -> Result<(), NoMemory>
        requires at { length self.old.bytes < 2 ^ 20 + 2 }
        requires few { length waiting.now < 2 ^ 18 }
        ensures { OnOk result (self.new ≡ with_cells self.old (entry_words waiting.now)) }
    {
        for entry in waiting {
            self.put_entry(*entry)?;
        }
        Ok(())
    }

    /// A pool of these entries, which stands only where there is one.
    fn put_pool(&mut self, waiting: &[Entry]) -> Result<(), NoMemory>
        requires at { length self.old.bytes < 2 ^ 20 }
        requires few { length waiting.now < 2 ^ 18 }
        ensures { OnOk result (self.new ≡ with_cells self.old (entry_pool (length self.old.bytes) waiting.now)) }
    {
        if waiting.is_empty() {
            return Ok(());
        }
        if self.bytes.len() % 4 != 0 {
            self.put_gap()?;
        }
        self.put_words(waiting)
    }
}

/// Code that is written, the entries that wait for a pool, and how many pools were written.
#[derive(Drop)]
pub struct Writer {
    pub laid: Laid,
    waiting: Vec<Entry>,
    pools: usize,
}

impl Writer {
    /// Nothing is written.
    pub fn new(alloc: Global) -> Writer
        ensures laid { result.laid ≡ nothing }
        ensures waiting { result.waiting.items ≡ [] }
        ensures pools { result.pools ≡ 0 }
    {
        Writer {
            laid: Laid {
                bytes: Seq::new(alloc),
                fixes: Seq::new(alloc),
            },
            waiting: Vec::new(alloc),
            pools: 0,
        }
    }

    /// Writes the pool of the entries that wait, where there is one.
    pub fn lay_pool(&mut self) -> Result<(), NoMemory>
        requires at { length self.old.laid.bytes < 2 ^ 20 }
        requires few { length self.old.waiting.items < 2 ^ 18 }
        requires pools { self.old.pools < 2 ^ 20 }
        ensures laid { OnOk result (self.new.laid
            ≡ with_cells self.old.laid (entry_pool (length self.old.laid.bytes) self.old.waiting.items)) }
        ensures waiting { OnOk result (self.new.waiting.items ≡ []) }
        ensures pools { OnOk result (self.new.pools ≡ self.old.pools + pools_in self.old.waiting.items) }
    {
        if self.waiting.is_empty() {
            return Ok(());
        }
        self.laid.put_pool(&self.waiting)?;
        self.waiting.clear();
        self.pools += 1;
        Ok(())
    }

    /// Goes to where a piece stands: over the pool of the entries that wait, where it doesn't stand here.
    pub fn enter(&mut self, body: u32) -> Result<(), NoMemory>
        requires at { length self.old.laid.bytes < 2 ^ 19 }
        requires body { body < 2 ^ 20 }
        requires few { length self.old.waiting.items < 2 ^ 18 }
        requires pools { self.old.pools < 2 ^ 20 }
        requires fits { length self.old.laid.bytes ≢ body → Fits (B (offset (length self.old.laid.bytes) body)) }
        ensures laid { OnOk result (self.new.laid
            ≡ with_cells self.old.laid (entered_cells (length self.old.laid.bytes) body self.old.waiting.items)) }
        ensures waiting { OnOk result
            (self.new.waiting.items ≡ (if length self.old.laid.bytes == body then self.old.waiting.items else [])) }
        ensures pools { OnOk result (self.new.pools ≡ self.old.pools + (if length self.old.laid.bytes == body then 0
            else pools_in self.old.waiting.items)) }
    {
        let at = self.laid.bytes.len() as u32;
        if at == body {
            return Ok(());
        }
        let offset = offset(at, body);
        self.laid.put_instr(Instr::B { offset })?;
        self.lay_pool()
    }

    /// Writes a piece, and lets its entry wait. The next pool begins at an address.
    pub fn put(&mut self, piece: &Piece, form: u8, to: u32, pool_at: u32) -> Result<(), NoMemory>
        requires at { length self.old.laid.bytes < 2 ^ 19 }
        requires to { to < 2 ^ 20 }
        requires few { length self.old.waiting.items < 2 ^ 18 }
        requires sound { IsSoundPiece piece.now }
        requires fits { CellsFit (piece_cells (λ label. to) piece.now form (length self.old.laid.bytes)
            (pool_at + 4 * length self.old.waiting.items)) }
        ensures laid { OnOk result (self.new.laid ≡ with_cells self.old.laid (piece_cells (λ label. to) piece.now form
            (length self.old.laid.bytes) (pool_at + 4 * length self.old.waiting.items))) }
        ensures waiting { OnOk result
            ((at : ℕ) → self.new.waiting.items ≡ self.old.waiting.items ++ entries (loads_at piece.now at)) }
        ensures pools { OnOk result (self.new.pools ≡ self.old.pools) }
    {
        let entry_at = u64::from(pool_at) + 4 * self.waiting.len() as u64;
        self.laid.put_piece(piece, form, to, entry_at)?;
        if let Some(entry) = piece.entry() {
            if self.waiting.push(entry).is_err() {
                return Err(NoMemory);
            }
        }
        Ok(())
    }
}

/// Where the next pool begins; 0 where there is none.
fn next_pool(pool_starts: &[u32], passed: usize) -> u32
    ensures { result ≡ first (drop passed pool_starts.now) }
{
    if passed < pool_starts.len() {
        pool_starts[passed]
    } else {
        0
    }
}

/// The code of pieces, by the forms of their branches and where they stand.
pub fn written(
    alloc: Global,
    pieces: &[Piece],
    targets: &[usize],
    branch_forms: &[u8],
    places: &[PieceOffsets],
    pool_starts: &[u32],
) -> Result<Laid, NoMemory>
    requires sound { IsSound pieces.now }
    requires few { counted pieces.now ≤ 32768 }
    requires targets { targets.now ≡ targets_of pieces.now }
    requires forms { branch_forms.now ≡ forms pieces.now }
    requires places { places.now ≡ map place_of (layout pieces.now) }
    requires pools { pool_starts.now ≡ pools (layout pieces.now) }
    ensures { IfOk result (λ code. code ≡ laid pieces.now) }
{
    let mut writer = Writer::new(alloc);
    for (index, piece) in pieces.iter().enumerate() {
        let to = places[targets[index]].at;
        writer.enter(places[index].body)?;
        let pool_at = next_pool(pool_starts, writer.pools);
        writer.put(piece, branch_forms[index], to, pool_at)?;
        if !piece.goes_on() {
            writer.lay_pool()?;
        }
    }
    writer.lay_pool()?;
    Ok(writer.laid)
}
