//! The option that sets the number of workers.
ghost use Rattle.std.specs.Prelude.{◌≡◌, ◌≢◌, ℕ, ◌^◌, ◌<◌, ◌≤◌, MatchResult};
ghost use Rattle.std.specs.Fmt.{decimal};
ghost use Rattle.cli_words.specs.Forms.{SetsWorkers};

use crate::command::Refused;
use crate::number::number;
use io_ports::Text;

/// How many threads play where no word says it.
pub const DEFAULT_WORKERS: u64 = 4;

/// The most threads that play.
const MOST_WORKERS: u64 = 64;

/// The number of workers that the words set: `DEFAULT_WORKERS` where there are none. `Refused` where they are not the
/// option, as one word or two, with a number from 1 to 64.
pub(crate) fn read_workers(words: &[Text]) -> Result<u64, Refused>
    ensures cases { MatchResult result (SetsWorkers words.now) (λ refused. (n : ℕ) → ¬ (SetsWorkers words.now n)) }
{
    match words {
        [] => Ok(DEFAULT_WORKERS),
        [word] => match word.as_str().strip_prefix("--workers=") {
            Some(digits) => workers_of(digits),
            None => Err(Refused),
        },
        [name, digits] if name.as_str() == "--workers" => workers_of(digits.as_str()),
        _ => Err(Refused),
    }
}

/// The number of workers whose digits the text is. `Refused` where it is no number from 1 to 64.
fn workers_of(digits: &str) -> Result<u64, Refused>
    ensures cases { MatchResult result (λ n. (1 ≤ n) × (n ≤ 64) × (digits.now ≡ decimal n)) (λ refused. (n : ℕ) → 1 ≤ n → n ≤ 64 → digits.now ≢ decimal n) }
{
    let Some(workers) = number(digits) else {
        return Err(Refused);
    };
    if workers == 0 || workers > MOST_WORKERS {
        return Err(Refused);
    }
    Ok(workers)
}
