//! The command `play`: answers the requests of one connection, from standard input to standard output: a page in which a program is written and its board's buttons are pressed, and the runs that the page asks for.
#![tactic(auto)]

mod answer;

use answer::PostedRuns;
use http_server::{Config, Connection};
use play_answers::{Named, Play, answer_all};
use play_requests::Site;
use std::alloc::Global;
use std::env;
use std::hash::RandomState;
use std::process::ExitCode;

/// The statuses are those of `sts`.
const USAGE: u8 = 2;

const FAILED: u8 = 22;

const NO_MEMORY: u8 = 30;

/// The most bytes of a request's body.
const MOST_BODY: usize = 2 * 1024 * 1024;

/// The four words: the path of the program and the name that is shown of it, and the same of the script.
fn files_given(rt: &HostRuntime) -> Option<(Named, Named)> {
    let mut words = env::args(rt).ok()?.skip(1);
    let program = Named {
        path: words.next()?,
        shown: words.next()?,
    };
    let script = Named {
        path: words.next()?,
        shown: words.next()?,
    };
    Some((program, script))
}

/// Whose requests are answered, as the environment has it: the key is seen by nobody else there.
fn site_given(rt: &HostRuntime) -> Option<Site> {
    Some(Site {
        host: env::var(rt, "PLAY_HOST").ok()?,
        key: env::var(rt, "PLAY_KEY").ok()?,
    })
}

fn main(rt: HostRuntime) -> ExitCode {
    let alloc: Global = rt.alloc();
    let Some((program, script)) = files_given(&rt) else {
        return ExitCode::from(USAGE);
    };
    let Some(site) = site_given(&rt) else {
        return ExitCode::from(USAGE);
    };
    let Ok(keys) = RandomState::new(&rt) else {
        return ExitCode::from(NO_MEMORY);
    };
    let mut stdin = rt.stdin();
    let mut stdout = rt.stdout();
    let config = Config {
        max_body_len: MOST_BODY,
        ..Config::default()
    };
    let mut connection = Connection::new(alloc, keys, config);
    let mut play = Play {
        rt,
        runs: PostedRuns,
        site,
        program,
        script,
    };
    match answer_all(&mut connection, &mut play, &mut stdin, &mut stdout) {
        Ok(()) => ExitCode::from(0),
        Err(_) => ExitCode::from(FAILED),
    }
}
