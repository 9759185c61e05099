//! The command `sts`: the top call over the files of the operating system and standard output, with the raw bytes of the serial port to standard
//! error.
#![tactic(auto)]

use board_ports::{Device, EchoDevice};
use run_tool::sts_main;
use std::alloc::Global;
use std::env;
use std::io::ErrorKind;
use std::process::ExitCode;
use tool_folder::DiskFolder;
use tool_io::StdSink;

/// The status where no memory is found before the top call.
const NO_MEMORY: u8 = 30;

/// The words behind the program's name, or none where some word isn't text. Nothing where there is no memory for them.
fn words_given(rt: &HostRuntime) -> Option<Vec<String>> {
    match env::args(rt) {
        Ok(given) => {
            let mut words = Vec::new(rt.alloc());
            for word in given.skip(1) {
                if words.push(word).is_err() {
                    return None;
                }
            }
            Some(words)
        }
        Err(error) if error.kind() == ErrorKind::OutOfMemory => None,
        Err(_) => Some(Vec::new(rt.alloc())),
    }
}

fn main(rt: HostRuntime) -> ExitCode {
    let alloc: Global = rt.alloc();
    let Some(words) = words_given(&rt) else {
        return ExitCode::from(NO_MEMORY);
    };
    let Ok(mut out) = StdSink::new(alloc, rt.stdout()) else {
        return ExitCode::from(NO_MEMORY);
    };
    let Ok(device) = EchoDevice::new(alloc, rt.stderr()) else {
        return ExitCode::from(NO_MEMORY);
    };
    let Ok(echo) = Box::new(alloc, device) else {
        return ExitCode::from(NO_MEMORY);
    };
    let mut folder = DiskFolder::new(alloc, rt);
    let mut plugs: Vec<Option<Box<dyn Device>>> = Vec::new(alloc);
    if plugs.push(None).is_err() || plugs.push(Some(echo)).is_err() {
        return ExitCode::from(NO_MEMORY);
    }
    ExitCode::from(sts_main(alloc, words.as_slice(), &mut folder, &mut out, &mut plugs))
}
