//! The command `view`: a transcript of `sts` for people, as a text or as a page.
#![tactic(auto)]

mod closings;
mod fault;
mod input;
mod page;
mod shorter;
mod words;
mod wrong;

use closings::closings;
use explained_view::{first_refusal, view_below};
use fault::first_fault;
use input::{FOLDER_FAILED, MISSING, NO_MEMORY, file_of, lines_in_file, lines_of};
use page::{PAGE_HEAD, PAGE_MIDDLE, PAGE_TAIL};
use shorter::{page_lines, short_text};
use std::alloc::{AllocError, Global};
use std::env;
use std::io::ErrorKind;
use std::process::ExitCode;
use std::rt::Files;
use tool_io::{PutFailed, Sink, StdSink};
use transcript_view::{ViewFault, page_text, view_page, viewed};
use view_forms::{Below, NOTES};
use words::{Asked, read_words};
use wrong::first_wrong;

/// The statuses are those of `sts`.
const USAGE: u8 = 2;

const SINK_FAILED: u8 = 22;

/// The words behind the program's name, or none where some word isn't text. Nothing where there is no memory for them.
fn words_given(rt: &HostRuntime) -> Option<Vec<String>> {
    match env::args(rt) {
        Ok(given) => {
            let mut words = Vec::new(rt.alloc());
            for word in given.skip(1) {
                if words.push(word).is_err() {
                    return None;
                }
            }
            Some(words)
        }
        Err(error) if error.kind() == ErrorKind::OutOfMemory => None,
        Err(_) => Some(Vec::new(rt.alloc())),
    }
}

/// The texts of the files that are named beside a transcript: of a program, and of a script, a class file or arrivals.
#[derive(Drop)]
struct Given {
    program: Option<Vec<u8>>,
    input: Option<Vec<u8>>,
}

/// What explains a transcript: the text of the first refusal, by the text of its file, and that of the first fault. Each is empty where there is none.
#[derive(Drop)]
struct Explanations {
    refusal: String,
    wrong: Vec<u8>,
    fault: String,
}

/// What explains the first refused program.
fn refusal_text(alloc: Global, lines: &[u8], program: Option<&[u8]>) -> Result<String, AllocError> {
    match (first_refusal(lines), program) {
        (Some(refusal), Some(text)) => refusal.explained(alloc, text),
        _ => Ok(String::new(alloc)),
    }
}

/// What explains the first refused script, class file or list of arrivals.
fn wrong_text(alloc: Global, lines: &[u8], input: Option<&[u8]>) -> Result<Vec<u8>, AllocError> {
    match (first_wrong(lines), input) {
        (Some(wrong), Some(text)) => wrong.explained(alloc, text),
        _ => Ok(Vec::new(alloc)),
    }
}

/// What explains the first fault.
fn fault_text(alloc: Global, lines: &[u8]) -> Result<String, AllocError> {
    match first_fault(lines) {
        Some(fault) => fault.explained(alloc),
        None => Ok(String::new(alloc)),
    }
}

/// Adds a text below a line, where it isn't empty.
fn push_below<'a>(
    below: &mut Vec<Below<'a>>,
    line: Option<&'a [u8]>,
    text: &'a [u8],
) -> Result<(), AllocError> {
    match line {
        Some(line) if !text.is_empty() => {
            below.push(Below { line, text })?;
            Ok(())
        }
        _ => Ok(()),
    }
}

impl Explanations {
    fn of(alloc: Global, lines: &[u8], given: &Given) -> Result<Explanations, AllocError> {
        Ok(Explanations {
            refusal: refusal_text(alloc, lines, given.program.as_deref())?,
            wrong: wrong_text(alloc, lines, given.input.as_deref())?,
            fault: fault_text(alloc, lines)?,
        })
    }

    /// The lines that they explain, with these texts.
    fn below<'a>(&'a self, alloc: Global, lines: &'a [u8]) -> Result<Vec<Below<'a>>, AllocError> {
        let refused = first_refusal(lines).map(|it| it.told);
        let wrong = first_wrong(lines).map(|it| it.told);
        let fault = first_fault(lines).map(|it| it.told);
        let mut below = Vec::new(alloc);
        push_below(&mut below, refused, self.refusal.as_bytes())?;
        push_below(&mut below, wrong, self.wrong.as_slice())?;
        push_below(&mut below, fault, self.fault.as_bytes())?;
        Ok(below)
    }
}

/// The view as a text, as bytes. The sentences of lines are named here alone: the proof of a function that names a long table takes a minute.
fn said_of(
    alloc: Global,
    below: &[Below<'_>],
    lines: &[u8],
    width: usize,
) -> Result<Vec<u8>, AllocError> {
    viewed(alloc, &NOTES, below, lines, width)
}

/// The head of a page: its style and controls, its title, and what is said of the lines that close a run, none of which is markup.
fn page_head(
    alloc: Global,
    asked: &Asked<'_>,
    below: &[Below<'_>],
    lines: &[u8],
) -> Result<Vec<u8>, AllocError> {
    let ends = closings(alloc, lines)?;
    let said = said_of(alloc, below, ends.as_slice(), asked.width)?;
    let title: &str = asked.title.unwrap_or("");
    let mut head = Vec::new(alloc);
    head.extend_from_slice(PAGE_HEAD.as_bytes())?;
    head.extend_from_slice(page_text(alloc, title.as_bytes())?.as_slice())?;
    head.push(b'\n')?;
    head.extend_from_slice(page_text(alloc, said.as_slice())?.as_slice())?;
    head.extend_from_slice(PAGE_MIDDLE.as_bytes())?;
    Ok(head)
}

/// Writes the view of these lines that was asked for.
fn write_lines<K: Sink>(
    alloc: Global,
    asked: &Asked<'_>,
    lines: &[u8],
    below: &[Below<'_>],
    out: &mut K,
) -> Result<(), ViewFault> {
    if !asked.html {
        return view_below(alloc, below, lines, asked.width, out);
    }
    match page_head(alloc, asked, below, lines) {
        Err(_) => Err(ViewFault::NoMemory),
        Ok(head) => view_page(alloc, head.as_slice(), PAGE_TAIL, lines, out),
    }
}

/// The lines that are shown.
fn lines_shown(alloc: Global, asked: &Asked<'_>, input: Vec<u8>) -> Result<Vec<u8>, AllocError> {
    if asked.all {
        return Ok(input);
    }
    if asked.html {
        page_lines(alloc, input)
    } else {
        short_text(alloc, input)
    }
}

/// Writes what is shown of a transcript, explained by the files that are given.
fn write_input<K: Sink>(
    alloc: Global,
    asked: &Asked<'_>,
    input: Vec<u8>,
    given: &Given,
    out: &mut K,
) -> Result<(), ViewFault> {
    let Ok(lines) = lines_shown(alloc, asked, input) else {
        return Err(ViewFault::NoMemory);
    };
    let Ok(explanations) = Explanations::of(alloc, lines.as_slice(), given) else {
        return Err(ViewFault::NoMemory);
    };
    match explanations.below(alloc, lines.as_slice()) {
        Err(_) => Err(ViewFault::NoMemory),
        Ok(below) => write_lines(alloc, asked, lines.as_slice(), below.as_slice(), out),
    }
}

/// Writes the view that was asked for, and gives the status.
fn write_view<K: Sink>(
    alloc: Global,
    asked: &Asked<'_>,
    input: Vec<u8>,
    given: &Given,
    out: &mut K,
) -> u8 {
    match write_input(alloc, asked, input, given, out) {
        Ok(()) => 0,
        Err(ViewFault::Sink) => SINK_FAILED,
        Err(ViewFault::NoMemory) => NO_MEMORY,
    }
}

/// Writes a line that tells of this status, and gives the status.
fn tell<K: Sink>(status: u8, out: &mut K) -> u8 {
    let line: &str = match status {
        USAGE => "usage\n",
        FOLDER_FAILED => "folder failed\n",
        MISSING => "missing\n",
        _ => "",
    };
    match out.put(line.as_bytes()) {
        Ok(()) => status,
        Err(PutFailed) => SINK_FAILED,
    }
}

/// The files that are named beside the transcript, or the status where one can't be had.
fn given_by<R: Files>(alloc: Global, rt: &R, asked: &Asked<'_>) -> Result<Given, u8> {
    let program = file_of(alloc, rt, asked.program)?;
    let input = file_of(alloc, rt, asked.input)?;
    Ok(Given { program, input })
}

/// Reads the files that were asked for, writes the view, and gives the status.
fn show<K: Sink>(rt: HostRuntime, asked: &Asked<'_>, out: &mut K) -> u8 {
    let alloc: Global = rt.alloc();
    let lines = match asked.file {
        Some(name) => lines_in_file(alloc, &rt, name),
        None => lines_of(alloc, rt.stdin()),
    };
    match (lines, given_by(alloc, &rt, asked)) {
        (Ok(lines), Ok(given)) => write_view(alloc, asked, lines, &given, out),
        (Err(status), _) | (_, Err(status)) => tell(status, out),
    }
}

/// Does what the words ask for, and gives the status.
fn answer<K: Sink>(rt: HostRuntime, words: &[String], out: &mut K) -> u8 {
    match read_words(rt.alloc(), words) {
        Ok(Some(asked)) => show(rt, &asked, out),
        Ok(None) => tell(USAGE, out),
        Err(_) => NO_MEMORY,
    }
}

fn main(rt: HostRuntime) -> ExitCode {
    let Some(words) = words_given(&rt) else {
        return ExitCode::from(NO_MEMORY);
    };
    let status = match StdSink::new(rt.alloc(), rt.stdout()) {
        Ok(mut out) => answer(rt, words.as_slice(), &mut out),
        Err(_) => NO_MEMORY,
    };
    ExitCode::from(status)
}
