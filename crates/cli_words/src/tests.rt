//! Lines of words, and what clap makes of those that are accepted.
use crate::{Command, DEFAULT_WORKERS, USAGE, read_words};
use clap::{Arg, ArgMatches};
use io_ports::{NoMemory, Text};
use std::alloc::{AllocError, Global};
use std::test::Fail;

/// The words of a line, which single spaces part.
fn words_of(alloc: Global, line: &str) -> Result<Vec<Text>, NoMemory> {
    let mut words = Vec::new(alloc);
    for word in line.split(' ') {
        words.push(Text::of(alloc, word)?)?;
    }
    Ok(words)
}

/// What the line is read as.
fn read_line(alloc: Global, line: &str) -> Result<Option<Command>, NoMemory> {
    let words = words_of(alloc, line)?;
    Ok(read_words(words.as_slice()).ok())
}

/// The option that sets the number of workers.
fn workers_option<'a>(alloc: Global) -> Arg<'a> {
    Arg::new(alloc, "workers").long("workers")
}

/// The program's command line, as clap has it.
fn clap_command<'a>(alloc: Global) -> Result<clap::Command<'a>, AllocError> {
    let serve = clap::Command::new(alloc, "serve");
    let play = clap::Command::new(alloc, "play").arg(workers_option(alloc))?;
    let drill = clap::Command::new(alloc, "drill")
        .arg(workers_option(alloc))?
        .arg(Arg::new(alloc, "seed").required(true))?;
    clap::Command::new(alloc, "gcsmount")
        .subcommand(serve)?
        .subcommand(play)?
        .subcommand(drill)
}

/// The command that clap has found.
fn command_of(name: &str, matches: &ArgMatches) -> Option<Command> {
    let workers = matches.get_one("workers").unwrap_or(DEFAULT_WORKERS);
    match name {
        "serve" => Some(Command::Serve),
        "play" => Some(Command::Play { workers }),
        "drill" => matches
            .get_one("seed")
            .map(|seed| Command::Drill { seed, workers }),
        _ => None,
    }
}

/// What clap reads the line as.
fn clap_line(alloc: Global, line: &str) -> Result<Option<Command>, clap::Error> {
    let mut words = Vec::new(alloc);
    words.push("gcsmount")?;
    for word in line.split(' ') {
        words.push(word)?;
    }
    let matches = clap_command(alloc)?.try_get_matches_from(words.as_slice())?;
    Ok(
        matches
            .subcommand()
            .and_then(|(name, inner)| command_of(name, inner)),
    )
}

const PLAY_4: Command = Command::Play { workers: 4 };

const PLAY_64: Command = Command::Play { workers: 64 };

const PLAY_1: Command = Command::Play { workers: 1 };

const DRILL_0: Command = Command::Drill {
    seed: 0,
    workers: 4,
};

const DRILL_MAX_7: Command = Command::Drill {
    seed: u64::MAX,
    workers: 7,
};

#[test]
fn accepted_lines_are_read_as_clap_reads_them(rt: HostRuntime) -> Result<(), Fail> {
    for (line, command) in [
        ("serve", Command::Serve),
        ("play", PLAY_4),
        ("play --workers 64", PLAY_64),
        ("play --workers=1", PLAY_1),
        ("drill 0", DRILL_0),
        ("drill 18446744073709551615 --workers 7", DRILL_MAX_7),
        ("drill 18446744073709551615 --workers=7", DRILL_MAX_7),
        ("drill --workers 7 18446744073709551615", DRILL_MAX_7),
        ("drill --workers=7 18446744073709551615", DRILL_MAX_7),
    ] {
        assert_eq!(rt; read_line(rt.alloc(), line)?, Some(command), "at {line}");
        assert_eq!(rt; clap_line(rt.alloc(), line)?, Some(command), "at {line}");
    }
    Ok(())
}

#[test]
fn other_lines_are_refused(rt: HostRuntime) -> Result<(), Fail> {
    for line in [
        "",
        "Serve",
        "serve x",
        "play 1",
        "play --workers",
        "play --workers 0",
        "play --workers 65",
        "play --workers 04",
        "play --workers=",
        "play --work 4",
        "play --workers 1 --workers 1",
        "play -- 1",
        "play --help",
        "drill",
        "drill +1",
        "drill 01",
        "drill 18446744073709551616",
        "drill 1 2",
        "drill --workers 4",
        "drill --workers=2 1 --workers=2",
    ] {
        assert_eq!(rt; read_line(rt.alloc(), line)?, None, "at {line:?}");
    }
    assert!(rt; read_words(&[]).is_err());
    assert_eq!(rt;
        USAGE,
        "usage: gcsmount serve / play [--workers N] / drill S [--workers N]"
    );
    Ok(())
}
