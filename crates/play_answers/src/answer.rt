// What requests are answered with.
ghost use Rattle.std.specs.Prelude.{◌≡◌, ◌⊎◌, [], OnOk, Some};
ghost use Rattle.std.specs.Option.{option_map};
ghost use Rattle.http_server.specs.Response.{IsResponse, IsBlank, fields_of};
ghost use Rattle.play_requests.specs.Requests.{a_file, a_run, a_save};
ghost use Rattle.play_answers.specs.Policy.{policy, HasPolicy};
ghost use Rattle.play_answers.specs.Answers.{RunTells, IsPage, AnswersAsked, AnswersRequest};

use crate::files::{NO_FILE, Stored, has_sum, keep, read_file, sum_of};
use crate::page::PAGE;
use crate::policy::add_policy;
use bytes::{BufMut, Bytes};
use http::{HeaderName, HeaderValue, Request, StatusCode};
use http_server::{Response, Rope, Service};
use play_requests::{Budget, Site, Wanted, Which};
use std::alloc::{AllocError, Global};

/// A file, by its path and by the name that is shown of it.
#[derive(Drop)]
pub struct Named {
    pub path: String,
    /// the name, in the form that a header takes
    pub shown: String,
}

/// What runs a program's text for the page.
pub trait Runs {
    // What the body of an answer tells of the run of a text on a script, if there is one, within a budget.
    ghost tells: { RunTells };

    /// Puts what a run comes to into an empty body.
    fn run(
        &self,
        alloc: Global,
        text: &[u8],
        script: Option<&[u8]>,
        budget: Budget,
        body: &mut Rope,
    ) -> Result<(), AllocError>
        requires { body.old.items ≡ [] }
        ensures { OnOk result (tells text.now
            (option_map (λ bytes. bytes.now) script.entry) budget.instructions body.new.items) };
}

/// The page's other side.
#[derive(Drop)]
pub struct Play<T: Drop> {
    pub rt: HostRuntime,
    pub runs: T,
    pub site: Site,
    pub program: Named,
    pub script: Named,
}

#[tactic(auto, using(crate::proofs::Fields::one_field_more, crate::proofs::Fields::same_fields))]
/// Adds a field whose text is made while the program runs, if a header takes it.
fn add_text(
    alloc: Global,
    name: HeaderName,
    text: &str,
    response: &mut Response,
) -> Result<(), AllocError>
    requires { HasPolicy response.old }
    ensures policy { OnOk result (HasPolicy response.new) }
    ensures status { OnOk result (response.new.status ≡ response.old.status) }
    ensures body { OnOk result (response.new.body ≡ response.old.body) }
{
    match HeaderValue::from_str(alloc, text) {
        Ok(value) => response.add_header(name, value),
        Err(_) => Ok(()),
    }
}

/// The page.
fn answer_page(response: &mut Response) -> Result<(), AllocError>
    requires { IsResponse 200 policy [] response.old }
    ensures { OnOk result (IsPage response.new) }
{
    response.add_header(
        HeaderName::from_static("content-type"),
        HeaderValue::from_static("text/html; charset=utf-8"),
    )?;
    response.body.push(Bytes::from_static(PAGE.as_bytes()))
}

/// The bytes of a file, and their sum.
fn answer_bytes(alloc: Global, bytes: &[u8], response: &mut Response) -> Result<(), AllocError>
    requires policy { HasPolicy response.old }
    ensures policy { OnOk result (HasPolicy response.new) }
    ensures status { OnOk result (response.new.status ≡ response.old.status) }
{
    let sum = sum_of(alloc, bytes)?;
    add_text(alloc, HeaderName::from_static("x-sum"), &sum, response)?;
    response.body.put_slice(bytes)
}

impl<T: Runs + Drop> Play<T> {
    fn named(&self, which: Which) -> &Named {
        match which {
            Which::Program => &self.program,
            Which::Script => &self.script,
        }
    }

    /// A file as it is, with the name that is shown of it, and its sum; a file that isn't there has these too.
    fn answer_file(
        &self,
        alloc: Global,
        which: Which,
        response: &mut Response,
    ) -> Result<(), AllocError>
        requires { IsResponse 200 policy [] response.old }
        ensures { OnOk result (AnswersAsked T.tells (a_file which) response.new) }
    {
        let file = self.named(which);
        add_text(
            alloc,
            HeaderName::from_static("x-name"),
            &file.shown,
            response,
        )?;
        match read_file(&self.rt, &file.path) {
            Stored::Bytes(bytes) => answer_bytes(alloc, &bytes, response),
            Stored::Missing => {
                response.status = StatusCode::NOT_FOUND;
                add_text(alloc, HeaderName::from_static("x-sum"), NO_FILE, response)
            }
            Stored::Unread => {
                response.status = StatusCode::INTERNAL_SERVER_ERROR;
                Ok(())
            }
        }
    }

    /// Keeps bytes in a file, if it is still the one that was read.
    fn answer_save(
        &self,
        alloc: Global,
        which: Which,
        sum: &[u8],
        bytes: &[u8],
        response: &mut Response,
    ) -> Result<(), AllocError>
        requires { IsResponse 200 policy [] response.old }
        ensures { OnOk result (AnswersAsked T.tells (a_save which sum.now bytes.now) response.new) }
    {
        let path = &self.named(which).path;
        if !has_sum(alloc, &read_file(&self.rt, path), sum)? {
            response.status = StatusCode::CONFLICT;
            return Ok(());
        }
        if !keep(&self.rt, path, bytes) {
            response.status = StatusCode::INTERNAL_SERVER_ERROR;
            return Ok(());
        }
        response.status = StatusCode::NO_CONTENT;
        let new_sum = sum_of(alloc, bytes)?;
        add_text(alloc, HeaderName::from_static("x-sum"), &new_sum, response)
    }

    /// A run of a text on a script, if there is one.
    fn answer_run(
        &self,
        alloc: Global,
        text: &[u8],
        script: Option<&[u8]>,
        budget: Budget,
        response: &mut Response,
    ) -> Result<(), AllocError>
        requires { IsResponse 200 policy [] response.old }
        ensures { OnOk result (AnswersAsked T.tells
            (a_run text.now (option_map (λ bytes. bytes.now) script.entry) budget.instructions) response.new) }
    {
        self.runs
            .run(alloc, text, script, budget, &mut response.body)
    }
}

/// A refusal.
fn refuse(status: StatusCode, response: &mut Response)
    requires { IsResponse 200 policy [] response.old }
    ensures { IsResponse status policy [] response.new }
{
    response.status = status;
}

impl<T: Runs + Drop> Service for Play<T> {
    ghost answers = { λ old request response new. (new ≡ old) × AnswersRequest T.tells old.site request response };

    #[tactic(auto, using(crate::proofs::Fields::asked_so))]
    fn call(
        &mut self,
        request: &Request<Bytes>,
        response: &mut Response,
    ) -> Result<(), AllocError> {
        add_policy(response)?;
        let alloc: Global = self.rt.alloc();
        match self.site.wanted(request) {
            Wanted::Page => answer_page(response),
            Wanted::File(which) => self.answer_file(alloc, which, response),
            Wanted::Run {
                text,
                script,
                budget,
            } => self.answer_run(alloc, text, script, budget, response),
            Wanted::Save { which, sum, bytes } => {
                self.answer_save(alloc, which, sum, bytes, response)
            }
            Wanted::Refused(status) => {
                refuse(status, response);
                Ok(())
            }
        }
    }
}
