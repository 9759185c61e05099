// What a request asks for.
ghost use Rattle.std.specs.Prelude.{◌≡◌, true, false, drop, codes, MatchOption};
ghost use Rattle.std.specs.Option.{option_map};
ghost use Rattle.play_requests.specs.Requests.{request_field, some_bytes, path_begins, got, save_asked, posted, run_asked, run_of_numbers, page_asks, as_asked};

use crate::numbers::{Budget, number_of};
use crate::secrets::same_secret;
use bytes::Bytes;
use http::{Request, StatusCode};

/// Which of the two files.
#[derive(Clone, Copy, Debug, PartialEq, Eq, Drop)]
pub enum Which {
    Program,
    Script,
}

/// What a request asks for.
#[derive(Clone, Copy, Drop)]
pub enum Wanted<'a> {
    /// The page.
    Page,
    /// A file as it is.
    File(Which),
    /// A run of a text on a script, if there is one, within a budget.
    Run {
        text: &'a [u8],
        script: Option<&'a [u8]>,
        budget: Budget,
    },
    /// That these bytes be kept in a file which had this sum.
    Save {
        which: Which,
        sum: &'a [u8],
        bytes: &'a [u8],
    },
    /// Something that it can't have.
    Refused(StatusCode),
}

/// Whose requests are answered, and how they are known.
#[derive(Drop)]
pub struct Site {
    /// The host and port that a request names, as `127.0.0.1:8000`.
    pub host: String,
    /// What each request but that for the page bears.
    pub key: String,
}

/// The bytes of the first field of this name; none where there is no such field.
fn field<'a>(request: &'a Request<Bytes>, name: &str) -> &'a [u8]
    ensures { result.now ≡ request_field request.entry.now name.now }
{
    match request.headers().get(name) {
        Some(value) => value.as_bytes(),
        None => b"",
    }
}

/// The rest of the body behind the text, if there is any.
fn script_of(rest: &[u8]) -> Option<&[u8]>
    ensures { option_map (λ bytes. bytes.now) result ≡ some_bytes rest.now }
{
    if rest.is_empty() { None } else { Some(rest) }
}

/// The run of numbers in a path.
fn run_by<'a>(length: Option<u32>, instructions: Option<u32>, body: &'a [u8]) -> Wanted<'a>
    ensures { as_asked result ≡ run_of_numbers length instructions body.entry.now }
{
    let bad = Wanted::Refused(StatusCode::BAD_REQUEST);
    let (Some(length), Some(instructions)) = (length, instructions) else {
        return bad;
    };
    let Some((text, rest)) = body.split_at_checked(length as usize) else {
        return bad;
    };
    match Budget::allowed(instructions) {
        Some(budget) => Wanted::Run {
            text,
            script: script_of(rest),
            budget,
        },
        None => bad,
    }
}

/// The run of `N/B`: the first N bytes of the body are the text, and the rest is the script.
fn run_of<'a>(rest: &str, body: &'a [u8]) -> Wanted<'a>
    ensures { as_asked result ≡ run_asked rest.now body.entry.now }
{
    match rest.split_once('/') {
        Some((length, budget)) => run_by(number_of(length), number_of(budget), body),
        None => Wanted::Refused(StatusCode::BAD_REQUEST),
    }
}

/// What a request by GET asks for, that bears the key.
fn got(path: &str) -> Wanted<'static>
    ensures { as_asked result ≡ got path.now }
{
    match path {
        "/program" => Wanted::File(Which::Program),
        "/script" => Wanted::File(Which::Script),
        _ => {
            if path.starts_with("/run/") || path.starts_with("/save/") {
                Wanted::Refused(StatusCode::METHOD_NOT_ALLOWED)
            } else {
                Wanted::Refused(StatusCode::NOT_FOUND)
            }
        }
    }
}

/// What a request by POST asks for that asks for no run.
fn kept<'a>(path: &str, sum: &'a [u8], body: &'a [u8]) -> Wanted<'a>
    ensures { as_asked result ≡ save_asked path.now sum.entry.now body.entry.now }
{
    match path {
        "/save/program" => Wanted::Save {
            which: Which::Program,
            sum,
            bytes: body,
        },
        "/save/script" => Wanted::Save {
            which: Which::Script,
            sum,
            bytes: body,
        },
        "/" | "/program" | "/script" => Wanted::Refused(StatusCode::METHOD_NOT_ALLOWED),
        _ => Wanted::Refused(StatusCode::NOT_FOUND),
    }
}

/// What follows `/run/` in a path that begins with it.
fn after_run(path: &str) -> Option<&str>
    ensures { MatchOption result (path_begins path.now (codes "/run/") ≡ false)
        (λ rest. (path_begins path.now (codes "/run/") ≡ true) × (rest.now ≡ drop 5 path.now)) }
{
    path.strip_prefix("/run/")
}

/// What a request by POST asks for, that bears the key.
fn posted<'a>(path: &str, sum: &'a [u8], body: &'a [u8]) -> Wanted<'a>
    ensures { as_asked result ≡ posted path.now sum.entry.now body.entry.now }
{
    match after_run(path) {
        Some(rest) => run_of(rest, body),
        None => kept(path, sum, body),
    }
}

impl Site {
    /// What a request asks for.
    pub fn wanted<'a>(&self, request: &'a Request<Bytes>) -> Wanted<'a>
        ensures { as_asked result ≡ page_asks self.now request.entry.now }
    {
        if field(request, "host") != self.host.as_bytes() {
            return Wanted::Refused(StatusCode::MISDIRECTED_REQUEST);
        }
        let path = request.uri().path();
        let method = request.method().as_str();
        if method == "GET" && path == "/" {
            return Wanted::Page;
        }
        if !same_secret(field(request, "x-play"), self.key.as_bytes()) {
            return Wanted::Refused(StatusCode::FORBIDDEN);
        }
        match method {
            "GET" => got(path),
            "POST" => posted(path, field(request, "x-sum"), request.body()),
            _ => Wanted::Refused(StatusCode::METHOD_NOT_ALLOWED),
        }
    }
}
