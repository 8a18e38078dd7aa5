//! The top call: the words of the command line, what is told of an end, and the status.
ghost use Rattle.std.specs.Prelude.{◌≡◌, ℕ, IfOk, string_bytes};
ghost use Rattle.cli_words.specs.Forms.{IsForm};
ghost use Rattle.cli_words.specs.declared.command.Command.TheVariants.{Drill, Play};
ghost use Rattle.gcsmount.specs.Drills.{RunsDrill};
ghost use Rattle.gcsmount.specs.Tool.{EndsPlay, EndsWith, HasNoForm, IsDrill, IsPlayedWhole, IsServedWhole, PrintsHistory, Runs, RunsPlay, RunsServe, Tells, refused_at, refused_line, serve_words, usage_line};

use crate::drilling::run_drill;
use crate::play_end::PlayEnd;
use crate::playing::play_stream;
use crate::serve::serve_stream;
use crate::serve_end::ServeEnd;
use cli_words::{Command, USAGE, read_words};
use io_ports::{Sink, Source, Text};
use mount_model::{Config, Gate};
use std::alloc::{AllocError, Global};
use std::sync::Wait;
use std::thread::Threads;

/// Does all that the program does, with the words of its command line but for its own name, and answers
/// its status.
///
/// `serve` serves the request frames of `source` on a mount over an empty bucket, and puts the reply frames into
/// `sink`. `play` reads a scenario from `source`, plays it, and puts its history into `sink`. `drill` and a seed plays
/// the scenario that is made of the seed, reads nothing, and puts one line that tells of it into `sink`. The last two
/// take an option that sets the number of workers; one worker plays, whatever it says.
///
/// The status is 0 where the input was read to its end; 1 where it was refused, and then `notes` gets
/// `refused NUMBER at PLACE` and a line end; 3 where the source failed, 4 where the sink failed, 5 where memory was
/// refused, and 6 where the input has more than 67,108,864 bytes. Other words have status 2: `notes` gets the usage
/// line, and nothing is read. Where `notes` fails, the status is 4.
pub fn run_tool<T: Threads + Wait + Sync, R: Source, W: Sink, E: Sink, G: Gate>(
    _rt: &T,
    alloc: Global,
    words: &[Text],
    source: &mut R,
    sink: &mut W,
    notes: &mut E,
    _gate: &G,
) -> u8
    ensures serve { words.now ≡ serve_words →
        RunsServe (R.port source.old) (R.port source.new) (W.port sink.old) (W.port sink.new) (E.port notes.old) (E.port notes.new) result }
    ensures complete { words.now ≡ serve_words →
        IsServedWhole result (R.port source.old) (R.port source.new) (W.port sink.old) (W.port sink.new) }
    // Where the words are a form of `play`, the source tells its bytes and the status is 0, the whole input was read, it
    // is a scenario, and the bytes that the sink got are the text of a legal history of it.
    ensures history { (workers : ℕ) → IsForm words.now (Play workers) →
        PrintsHistory result (R.port source.old) (R.port source.new) (W.port sink.old) (W.port sink.new) }
    ensures play { (workers : ℕ) → IsForm words.now (Play workers) →
        RunsPlay (R.port source.old) (R.port source.new) (W.port sink.old) (W.port sink.new) (E.port notes.old) (E.port notes.new) result }
    ensures played { (workers : ℕ) → IsForm words.now (Play workers) →
        IsPlayedWhole result (R.port source.old) (R.port source.new) (W.port sink.old) (W.port sink.new) }
    ensures drill { (seed workers : ℕ) → IsForm words.now (Drill seed workers) → RunsDrill seed (W.port sink.old) (W.port sink.new) result }
    ensures unread { (seed workers : ℕ) → IsForm words.now (Drill seed workers) → source.new ≡ source.old }
    ensures usage { HasNoForm words.now → Tells 2 usage_line (E.port notes.old) (E.port notes.new) result }

    // Words of no form leave the source and the sink as they were.
    ensures source_kept { HasNoForm words.now → source.new ≡ source.old }
    ensures sink_kept { HasNoForm words.now → sink.new ≡ sink.old }
{
    match read_words(words) {
        Ok(command) => run_command(alloc, command, source, sink, notes),
        Err(_) => tell_usage(notes),
    }
}

// Runs a command.
fn run_command<R: Source, W: Sink, E: Sink>(
    alloc: Global,
    command: Command,
    source: &mut R,
    sink: &mut W,
    notes: &mut E,
) -> u8
    ensures runs { Runs command (R.port source.old) (R.port source.new) (W.port sink.old) (W.port sink.new) (E.port notes.old) (E.port notes.new) result }
    ensures unread { IsDrill command → source.new ≡ source.old }
{
    match command {
        Command::Serve => {
            let end = serve_stream(alloc, &Config::new(), source, sink);
            status_of(alloc, end, notes)
        }
        Command::Play { workers: _ } => {
            let end = play_stream(alloc, source, sink);
            play_status(alloc, end, notes)
        }
        Command::Drill { seed, workers: _ } => run_drill(alloc, seed, sink),
    }
}

// Tells how the program is used.
fn tell_usage<E: Sink>(notes: &mut E) -> u8
    ensures tells { Tells 2 usage_line (E.port notes.old) (E.port notes.new) result }
{
    match notes.put(USAGE.as_bytes()) {
        Ok(()) => tell(notes, 2, "\n"),
        Err(_) => 4,
    }
}

// Puts a line, for which the status is `told`; 4 where the notes fail.
fn tell<E: Sink>(notes: &mut E, told: u8, line: &str) -> u8
    ensures tells { Tells told line.now (E.port notes.old) (E.port notes.new) result }
{
    match notes.put(line.as_bytes()) {
        Ok(()) => told,
        Err(_) => 4,
    }
}

// The status of an end, after telling a refusal.
fn status_of<E: Sink>(alloc: Global, end: ServeEnd, notes: &mut E) -> u8
    ensures ends { EndsWith end (E.port notes.old) (E.port notes.new) result }
{
    match end {
        ServeEnd::Ended => 0,
        ServeEnd::Refused { number, place } => match refusal(alloc, number, place) {
            Ok(line) => tell(notes, 1, line.as_str()),
            Err(_) => 5,
        },
        ServeEnd::ReadFault => 3,
        ServeEnd::WriteFault => 4,
        ServeEnd::NoMemory => 5,
        ServeEnd::TooLong => 6,
    }
}

fn refusal(alloc: Global, number: u64, place: u64) -> Result<String, AllocError>
    ensures ok { IfOk result (λ line. string_bytes line ≡ refused_line number place) }
{
    format!(in alloc; "refused {number} at {place}\n")
}

// The status of an end of a play, after telling a refusal.
fn play_status<E: Sink>(alloc: Global, end: PlayEnd, notes: &mut E) -> u8
    ensures ends { EndsPlay end (E.port notes.old) (E.port notes.new) result }
{
    match end {
        PlayEnd::Played => 0,
        PlayEnd::Refused { number, place } => match refusal_at(alloc, number, place.as_str()) {
            Ok(line) => tell(notes, 1, line.as_str()),
            Err(_) => 5,
        },
        PlayEnd::ReadFault => 3,
        PlayEnd::WriteFault => 4,
        PlayEnd::NoMemory => 5,
        PlayEnd::TooLong => 6,
    }
}

fn refusal_at(alloc: Global, number: u64, place: &str) -> Result<String, AllocError>
    ensures ok { IfOk result (λ line. string_bytes line ≡ refused_at number place.now) }
{
    format!(in alloc; "refused {number} at {place}\n")
}
