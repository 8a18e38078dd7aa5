//! The program `gcsmount`: a FUSE server core over a bucket, for whoever runs it or calls its top call.
#![tactic(auto)]

mod answer;
mod drilling;
mod input;
mod play_end;
mod playing;
mod serve;
mod serve_end;
mod server;
#[cfg(test)]
mod tests;
mod tool;

use io_ports::{StdSink, StdSource, Text};
use mount_model::IdleGate;
pub use play_end::PlayEnd;
pub use playing::play_stream;
pub use serve::serve_stream;
pub use serve_end::ServeEnd;
use std::io::ErrorKind;
use std::process::ExitCode;
use std::rt::Env;
use std::{env, io};
pub use tool::run_tool;

/// The status where there is no memory for the words.
const NO_MEMORY: u8 = 5;

fn main(rt: HostRuntime) -> ExitCode {
    let words = match words_of(&rt) {
        Ok(words) => words,
        Err(error) if error.kind() == ErrorKind::OutOfMemory => return ExitCode::from(NO_MEMORY),
        // Words that aren't text are of no form, and neither are no words at all.
        Err(_) => Vec::new(rt.alloc()),
    };
    let mut source = StdSource::new(rt.stdin());
    let mut sink = StdSink::new(rt.stdout());
    let mut notes = StdSink::new(rt.stderr());
    let alloc = rt.alloc();
    let status = run_tool(
        &rt,
        alloc,
        words.as_slice(),
        &mut source,
        &mut sink,
        &mut notes,
        &IdleGate,
    );
    ExitCode::from(status)
}

// The words of the command line, but for the program's own name.
fn words_of(rt: &(impl Env + AllocGlobal)) -> io::Result<Vec<Text>> {
    let mut words = Vec::new(rt.alloc());
    for word in env::args(rt)?.skip(1) {
        words.push(Text::from_string(word))?;
    }
    Ok(words)
}
