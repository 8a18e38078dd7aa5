//! A list of words as a command.
ghost use Rattle.std.specs.Prelude.{◌≡◌, IfOk, OnErr, MatchResult};
ghost use Rattle.std.specs.Prelude.{◌∷◌, codes};
ghost use Rattle.cli_words.specs.declared.command.Command.{Command};
ghost use Rattle.cli_words.specs.Forms.{IsForm};

use crate::command::{Command, Refused};
use crate::number::number;
use crate::option::read_workers;
use io_ports::Text;

/// What is told where the words are refused, without a line end.
pub const USAGE: &str = "usage: gcsmount serve / play [--workers N] / drill S [--workers N]";

/// The command that the words, without the program's name, say: `serve`; `play`; or `drill` and a seed of 64 bits.
/// The last two take the option `--workers N` or `--workers=N`, N from 1 to 64, before or behind the seed. Numbers are
/// decimal digits with no sign and no leading zero.
///
/// `Refused` exactly where they say none. It takes no memory.
pub fn read_words(words: &[Text]) -> Result<Command, Refused>
    ensures ok { IfOk result (IsForm words.now) }
    ensures only { IfOk result (λ command. (other : Command) → IsForm words.now other → other ≡ command) }
    ensures err { OnErr result ((command : Command) → ¬ (IsForm words.now command)) }
{
    let Some((word, rest)) = words.split_first() else {
        return Err(Refused);
    };
    match word.as_str() {
        "serve" => read_serve(rest),
        "play" => read_play(rest),
        "drill" => read_drill(rest),
        _ => Err(Refused),
    }
}

/// The command of `serve` and these further words.
fn read_serve(rest: &[Text]) -> Result<Command, Refused>
    ensures cases { MatchResult result (IsForm (codes "serve" ∷ rest.now)) (λ refused. (command : Command) → ¬ (IsForm (codes "serve" ∷ rest.now) command)) }
{
    match rest {
        [] => Ok(Command::Serve),
        _ => Err(Refused),
    }
}

/// The command of `play` and these further words.
fn read_play(rest: &[Text]) -> Result<Command, Refused>
    ensures cases { MatchResult result (IsForm (codes "play" ∷ rest.now)) (λ refused. (command : Command) → ¬ (IsForm (codes "play" ∷ rest.now) command)) }
{
    let workers = read_workers(rest)?;
    Ok(Command::Play { workers })
}

/// The command of `drill` and these further words.
fn read_drill(rest: &[Text]) -> Result<Command, Refused>
    ensures cases { MatchResult result (IsForm (codes "drill" ∷ rest.now)) (λ refused. (command : Command) → ¬ (IsForm (codes "drill" ∷ rest.now) command)) }
{
    let Some((first, later)) = rest.split_first() else {
        return Err(Refused);
    };
    if let Some(seed) = number(first.as_str()) {
        let workers = read_workers(later)?;
        return Ok(Command::Drill { seed, workers });
    }
    let Some((last, earlier)) = rest.split_last() else {
        return Err(Refused);
    };
    let Some(seed) = number(last.as_str()) else {
        return Err(Refused);
    };
    let workers = read_workers(earlier)?;
    Ok(Command::Drill { seed, workers })
}
