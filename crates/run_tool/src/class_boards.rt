// The boards of a class: the program and the script of each, one after the other.
ghost use Rattle.std.specs.Prelude.{◌≡◌, ◌≢◌, ◌≤◌, ◌<◌, ◌++◌, ◌∷◌, [], ℕ, List, Some, Ok, IfOk, IfErr, OnOk, All, length, codes};
ghost use Rattle.std.specs.Str.{IsUtf8};
ghost use Rattle.sts_base.specs.Faults.{Rose};
ghost use Rattle.typed_program.specs.Accepting as accepting;
ghost use Rattle.run_tool.specs.Built.{Builds};
ghost use Rattle.tool_io.specs.Putting.{PutsTo};
ghost use Rattle.event_script.specs.Codes.{number_of};
ghost use Rattle.event_script.specs.Sound.{IsSound};
ghost use Rattle.event_script.specs.Verdict.{Tells};
ghost use Rattle.class_file.specs.Within.{AreTexts};
ghost use Rattle.class_file.specs.declared.class.ClassCode.TheVariants as class_code;
ghost use Rattle.run_tool.specs.declared.ending.Status.TheVariants as status;
ghost use Rattle.run_tool.specs.Answers.{IsFailureTold, Led, says};
ghost use Rattle.run_tool.specs.inner.{GivesOneOf, none_to_read, HasText, IsScriptOf, HasAdded, AreReady, FoundNoMemory, names_of_boards, wants_never};
ghost use Rattle.run_tool.specs.Files.{AnswersFile, told_by, code_line};
ghost use Rattle.run_tool.specs.Programs.{AnswersRefusal, programs};
ghost use Rattle.run_tool.specs.ClassBoards.{refuses_class, OverBoardProgram, OverBoardScript, OverBoard, OverBoards, AnswersBoardScript, board_scripts};
ghost use Rattle.class_world.specs.Lines.{board_lead};
ghost use Rattle.run_tool.specs.Wanted.{HasAsked, WantsBoards, Onwards, WantsFile};

use crate::classes::say_class_refused;
use crate::ending::{Ending, Status};
use crate::fetched::text_of;
use crate::images::build;
use crate::said::then_put_refused;
use class_file::{ClassCode, Names};
use event_script::{Script, ScriptCode, ScriptRefused, read_script};
use std::alloc::Global;
use sts_base::{Code, Refused, place};
use tool_folder::Folder;
use tool_io::{PutFailed, Sink, then_put, then_put_decimal};
use typed_program::refusals_stand_in_their_texts;

/// Boards that are made ready: their images, and their scripts.
#[derive(Drop)]
pub struct Boards {
    pub images: Vec<Vec<u8>>,
    pub scripts: Vec<Script>,
}

/// A board of a class: its number, and when the class ends.
#[derive(Clone, Copy, Drop)]
struct BoardPlace {
    number: u32,
    end: u32,
}

/// A name as text.
fn name_text(name: &[u8]) -> &str
    requires { IsUtf8 name.now }
    ensures { result.now ≡ name.now }
{
    str::from_utf8(name).unwrap()
}

/// Puts what stands before a line of a board: its number and a space.
fn put_number<K: Sink>(out: &mut K, number: u32) -> Result<(), PutFailed>
    ensures { PutsTo K.taken K.faults out.old out.new (board_lead number) result }
{
    let put = then_put_decimal(Ok(()), out, number);
    then_put(put, out, b" ")
}

/// Gives the answer that a board's program is refused by a code at a place.
fn refuse_program<K: Sink>(out: &mut K, number: u32, text: &[u8], code: Code, at: u32) -> Ending
    requires within { at ≤ length text.now }
    requires fits { at < 4294967295 }
    ensures { GivesOneOf K.taken K.faults out.old out.new
        (Led (board_lead number) (AnswersRefusal text.now code at)) result }
{
    let (line, column) = place(text, at);
    let led = put_number(out, number);
    match then_put_refused(led, out, code, line, column) {
        Ok(()) => Ending::Gave(Status::Refused),
        Err(PutFailed) => Ending::Cut,
    }
}

/// The same for this reason; without memory nothing is given.
fn say_program_refused<K: Sink>(out: &mut K, number: u32, text: &[u8], why: Refused) -> Ending
    requires { accepting.RefusesText text.now why }
    ensures { GivesOneOf K.taken K.faults out.old out.new
        (OverBoardProgram number (λ tables. none_to_read) text.now) result }
{
    refusals_stand_in_their_texts();
    match why {
        Refused::Program { code, at } => refuse_program(out, number, text, code, at),
        Refused::NoMemory => Ending::NoMemory,
    }
}

/// The image that is built of the text of a board's program, with nothing written. Where the text is refused, the answer that says so was given.
fn image_in<K: Sink>(
    alloc: Global,
    number: u32,
    text: &[u8],
    out: &mut K,
) -> Result<Vec<u8>, Ending>
    ensures built { IfOk result (λ image. Builds text.now image.items) }
    ensures unwritten { OnOk result (K.taken out.new ≡ K.taken out.old) }
    ensures none { IfErr result (GivesOneOf K.taken K.faults out.old out.new
        (OverBoardProgram number (λ tables. none_to_read) text.now)) }
    ensures later { K.faults out.old ≤ K.faults out.new }
{
    match build(alloc, text) {
        Ok(image) => Ok(image),
        Err(why) => Err(say_program_refused(out, number, text, why)),
    }
}

/// The same of the file of that name.
fn image_of<F: Folder, K: Sink>(
    alloc: Global,
    number: u32,
    name: &str,
    folder: &mut F,
    out: &mut K,
) -> Result<Vec<u8>, Ending>
    ensures image { IfOk result (λ image. HasText (told_by F.holds F.faults folder.old folder.new) name.now
        (λ text. Builds text image.items)) }
    ensures unwritten { OnOk result (K.taken out.new ≡ K.taken out.old) }
    ensures none { IfErr result (GivesOneOf K.taken K.faults out.old out.new
        (AnswersFile (told_by F.holds F.faults folder.old folder.new) name.now
        (OverBoardProgram number (λ tables. none_to_read)))) }
    ensures asked { OnOk result (F.asked folder.new ≡ F.asked folder.old ++ name.now ∷ []) }
    ensures stopped { IfErr result (λ ending. HasAsked F.asked folder.old folder.new
        (WantsFile (told_by F.holds F.faults folder.old folder.new) (FoundNoMemory ending) name.now
        (Onwards programs (λ read. wants_never)))) }
    ensures stays { (file : List ℕ) → F.holds folder.new file ≡ F.holds folder.old file }
    ensures folder_later { F.faults folder.old ≤ F.faults folder.new }
    ensures unfailed { OnOk result (F.faults folder.new ≡ F.faults folder.old) }
    ensures failure { IfErr result (λ ending. IsFailureTold (F.faults folder.old) (F.faults folder.new) ending) }
    ensures later { K.faults out.old ≤ K.faults out.new }
{
    match text_of(alloc, name, folder, out) {
        Ok(text) => image_in(alloc, number, &text, out),
        Err(ending) => Err(ending),
    }
}

/// Puts the line of a refusal of a board's script, behind its number: the code's number.
fn put_script_refused<K: Sink>(out: &mut K, number: u32, code: ScriptCode) -> Result<(), PutFailed>
    ensures { PutsTo K.taken K.faults out.old out.new
        (board_lead number ++ code_line (codes "script refused ") (number_of code)) result }
{
    let put = put_number(out, number);
    let put = then_put(put, out, b"script refused ");
    let put = then_put_decimal(put, out, u32::from(code.number()));
    then_put(put, out, b"\n")
}

/// Gives the answer that the text of a board's script stands for none.
fn say_script_refused<K: Sink>(out: &mut K, number: u32, code: ScriptCode) -> Ending
    ensures { GivesOneOf K.taken K.faults out.old out.new
        (λ answer. answer ≡ says status.ScriptRefused
        (board_lead number ++ code_line (codes "script refused ") (number_of code))) result }
{
    match put_script_refused(out, number, code) {
        Ok(()) => Ending::Gave(Status::ScriptRefused),
        Err(PutFailed) => Ending::Cut,
    }
}

/// A script that ends with its class, with nothing written. Where it has another end, the answer that says so was given.
fn with_end<K: Sink>(script: Script, end: u32, out: &mut K) -> Result<Script, Ending>
    ensures same { IfOk result (λ it. it ≡ script) }
    ensures ends { OnOk result (script.end ≡ end) }
    ensures unwritten { OnOk result (K.taken out.new ≡ K.taken out.old) }
    ensures differs { IfErr result (λ ending. script.end ≢ end) }
    ensures none { IfErr result (GivesOneOf K.taken K.faults out.old out.new
        (λ answer. answer ≡ refuses_class class_code.EndDiffers)) }
    ensures later { K.faults out.old ≤ K.faults out.new }
{
    if script.end == end {
        Ok(script)
    } else {
        Err(say_class_refused(out, ClassCode::EndDiffers))
    }
}

/// The script that the text of a board's script stands for, if it ends with the class, with nothing written. Where there is none, the answer that says so was given.
fn script_in<K: Sink>(
    alloc: Global,
    board: BoardPlace,
    text: &[u8],
    out: &mut K,
) -> Result<Script, Ending>
    ensures script { IfOk result (λ script. Tells text.now (Ok script)) }
    ensures sound { IfOk result IsSound }
    ensures ends { IfOk result (λ script. script.end ≡ board.end) }
    ensures unwritten { OnOk result (K.taken out.new ≡ K.taken out.old) }
    ensures none { IfErr result (GivesOneOf K.taken K.faults out.old out.new
        (AnswersBoardScript board.number board.end none_to_read text.now)) }
    ensures later { K.faults out.old ≤ K.faults out.new }
{
    match read_script(alloc, text) {
        Ok(script) => with_end(script, board.end, out),
        Err(ScriptRefused::Script(code)) => Err(say_script_refused(out, board.number, code)),
        Err(ScriptRefused::NoMemory) => Err(Ending::NoMemory),
    }
}

/// The same of the file of that name.
fn script_of<F: Folder, K: Sink>(
    alloc: Global,
    board: BoardPlace,
    name: &str,
    folder: &mut F,
    out: &mut K,
) -> Result<Script, Ending>
    ensures script { IfOk result (IsScriptOf (told_by F.holds F.faults folder.old folder.new) (Some name.now)) }
    ensures sound { IfOk result IsSound }
    ensures ends { IfOk result (λ script. script.end ≡ board.end) }
    ensures unwritten { OnOk result (K.taken out.new ≡ K.taken out.old) }
    ensures none { IfErr result (GivesOneOf K.taken K.faults out.old out.new
        (OverBoardScript (told_by F.holds F.faults folder.old folder.new)
        board.end board.number name.now none_to_read)) }
    ensures asked { OnOk result (F.asked folder.new ≡ F.asked folder.old ++ name.now ∷ []) }
    ensures stopped { IfErr result (λ ending. HasAsked F.asked folder.old folder.new
        (WantsFile (told_by F.holds F.faults folder.old folder.new) (FoundNoMemory ending) name.now
        (Onwards (board_scripts board.end) (λ script. wants_never)))) }
    ensures stays { (file : List ℕ) → F.holds folder.new file ≡ F.holds folder.old file }
    ensures folder_later { F.faults folder.old ≤ F.faults folder.new }
    ensures unfailed { OnOk result (F.faults folder.new ≡ F.faults folder.old) }
    ensures failure { IfErr result (λ ending. IsFailureTold (F.faults folder.old) (F.faults folder.new) ending) }
    ensures later { K.faults out.old ≤ K.faults out.new }
{
    match text_of(alloc, name, folder, out) {
        Ok(text) => script_in(alloc, board, &text, out),
        Err(ending) => Err(ending),
    }
}

impl Boards {
    /// No boards.
    fn none(alloc: Global) -> Boards
        ensures images { result.images.items ≡ [] }
        ensures scripts { result.scripts.items ≡ [] }
    {
        Boards {
            images: Vec::new(alloc),
            scripts: Vec::new(alloc),
        }
    }

    /// One more board, if there is memory. An image is of bytes.
    fn push(&mut self, image: Vec<u8>, script: Script) -> Result<(), Ending>
        ensures images { OnOk result (self.new.images.items ≡ self.old.images.items ++ image ∷ []) }
        ensures scripts { OnOk result (self.new.scripts.items ≡ self.old.scripts.items ++ script ∷ []) }
        ensures bytes { All (λ byte. byte < 256) image.items }
        ensures memory { IfErr result (λ ending. ending ≡ Ending.NoMemory) }
    {
        if self.images.push(image).is_err() {
            return Err(Ending::NoMemory);
        }
        match self.scripts.push(script) {
            Ok(()) => Ok(()),
            Err(_) => Err(Ending::NoMemory),
        }
    }

    /// One more board, with nothing written: its program is fetched and built, and behind that its script is fetched and read. Where one can't be, the answer that says so was given.
    fn add<F: Folder, K: Sink>(
        &mut self,
        alloc: Global,
        board: BoardPlace,
        names: &Names,
        folder: &mut F,
        out: &mut K,
    ) -> Result<(), Ending>
        requires { AreTexts names.now }
        ensures added { OnOk result
            (HasAdded (told_by F.holds F.faults folder.old folder.new) board.end names.now self.old self.new) }
        ensures unwritten { OnOk result (K.taken out.new ≡ K.taken out.old) }
        ensures none { IfErr result (GivesOneOf K.taken K.faults out.old out.new
            (OverBoard (told_by F.holds F.faults folder.old folder.new)
            board.end board.number names.now none_to_read)) }
        ensures asked { OnOk result (F.asked folder.new ≡ F.asked folder.old ++ names_of_boards (names.now ∷ [])) }
        ensures stopped { IfErr result (λ ending. HasAsked F.asked folder.old folder.new
            (WantsBoards (told_by F.holds F.faults folder.old folder.new) (FoundNoMemory ending)
            board.end (names.now ∷ []) wants_never)) }
        ensures stays { (file : List ℕ) → F.holds folder.new file ≡ F.holds folder.old file }
        ensures folder_later { F.faults folder.old ≤ F.faults folder.new }
        ensures unfailed { OnOk result (F.faults folder.new ≡ F.faults folder.old) }
        ensures failure { IfErr result (λ ending. IsFailureTold (F.faults folder.old) (F.faults folder.new) ending) }
        ensures later { K.faults out.old ≤ K.faults out.new }
    {
        let program = name_text(names.program.as_slice());
        let script = name_text(names.script.as_slice());
        match image_of(alloc, board.number, program, folder, out) {
            Ok(image) => match script_of(alloc, board, script, folder, out) {
                Ok(read) => self.push(image, read),
                Err(ending) => Err(ending),
            },
            Err(ending) => Err(ending),
        }
    }
}

/// The boards of these names, one after the other, with nothing written. Where one can't be made ready, the answer that says so was given, and no file of a later one was fetched.
pub fn boards_of<F: Folder, K: Sink>(
    alloc: Global,
    end: u32,
    names: &[Names],
    folder: &mut F,
    out: &mut K,
) -> Result<Boards, Ending>
    requires few { length names.now ≤ 8 }
    requires texts { All AreTexts names.now }
    ensures ready { IfOk result (AreReady (told_by F.holds F.faults folder.old folder.new) end names.now) }
    ensures unwritten { OnOk result (K.taken out.new ≡ K.taken out.old) }
    ensures none { IfErr result (GivesOneOf K.taken K.faults out.old out.new
        (OverBoards (told_by F.holds F.faults folder.old folder.new) end 0 names.now none_to_read)) }
    ensures asked { OnOk result (F.asked folder.new ≡ F.asked folder.old ++ names_of_boards names.now) }
    ensures stopped { IfErr result (λ ending. HasAsked F.asked folder.old folder.new
        (WantsBoards (told_by F.holds F.faults folder.old folder.new) (FoundNoMemory ending)
        end names.now wants_never)) }
    ensures folder_later { F.faults folder.old ≤ F.faults folder.new }
    ensures unfailed { OnOk result (F.faults folder.new ≡ F.faults folder.old) }
    ensures failure { IfErr result (λ ending. IsFailureTold (F.faults folder.old) (F.faults folder.new) ending) }
    ensures later { K.faults out.old ≤ K.faults out.new }
{
    let mut boards = Boards::none(alloc);
    for at in 0..names.len() {
        let number = at as u32;
        let board = BoardPlace { number, end };
        match boards.add(alloc, board, &names[at], folder, out) {
            Ok(()) => {}
            Err(ending) => return Err(ending),
        }
    }
    Ok(boards)
}
