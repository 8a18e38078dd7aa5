//! Printing a time.
ghost use Rattle.std.specs.Prelude.{◌≡◌, ◌/◌, ◌%◌, ◌<◌, ◌≤◌, ◌≤ℤ◌, pos, unsigned_abs, [], ◌∷◌, ◌++◌, Some, OnOk, IfOk, string_bytes};
ghost use Rattle.mtime_text.specs.Spelling.{number, date_text, clock_text};
ghost use Rattle.file_metadata.specs.FileMetadata.{last_second};
ghost use Rattle.mtime_text.specs.Grammar.{IsMtimeText};
ghost use Rattle.mtime_text.specs.Printed.{year_of, month_of, day_of, printed_text};
ghost use Rattle.mtime_text.specs.Reading.{mtime_of};

use io_ports::{NoMemory, Text};
use jiff::Timestamp;
use jiff::civil::{Date, DateTime, Time};
use jiff::tz::Offset;
use std::alloc::Global;

/// The length in bytes of what is printed.
const LENGTH: usize = 30;

/// The time in UTC with nine decimals, `YYYY-MM-DDTHH:MM:SS.nnnnnnnnnZ`, that many seconds since
/// 1970-01-01T00:00:00Z and nanoseconds past that. [`read`](crate::read) gives the two numbers back. Its
/// 30 bytes are taken in one allocation; `NoMemory` where that was refused.
#[tactic(auto, using(crate::proofs::GrammarLemmas::printed_time, crate::proofs::GrammarLemmas::printed_again))]
pub fn print(alloc: Global, seconds: u64, nanos: u32) -> Result<Text, NoMemory>
    requires seconds { seconds ≤ last_second }
    requires nanos { nanos < 1_000_000_000 }
    ensures ok { IfOk result (λ text. text ≡ printed_text seconds nanos) }

    // What is printed is on the grammar of `read`, and is read as what was printed.
    ensures names { IsMtimeText (printed_text seconds nanos) seconds nanos }
    ensures again { mtime_of (printed_text seconds nanos) ≡ Some (seconds, nanos) }
{
    let moment = utc(seconds, nanos);
    let mut text = String::with_capacity(alloc, LENGTH)?;
    push_date(&mut text, moment.date())?;
    push_byte(&mut text, b'T')?;
    push_clock(&mut text, moment.time())?;
    push_byte(&mut text, b'.')?;
    push_number(&mut text, nanos, 9)?;
    push_byte(&mut text, b'Z')?;
    Ok(Text::from_string(text))
}

/// What a clock in UTC shows.
fn utc(seconds: u64, nanos: u32) -> DateTime
    requires seconds { seconds ≤ last_second }
    requires nanos { nanos < 1_000_000_000 }
    ensures year { result.date.year ≡ pos (year_of (seconds / 86_400)) }
    ensures month { result.date.month ≡ month_of (seconds / 86_400) }
    ensures day { result.date.day ≡ day_of (seconds / 86_400) }
    ensures hour { result.time.hour ≡ seconds % 86_400 / 3600 }
    ensures minute { result.time.minute ≡ seconds % 3600 / 60 }
    ensures second { result.time.second ≡ seconds % 60 }
{
    let instant = Timestamp::new(seconds as i64, nanos as i32).unwrap();
    Offset::UTC.to_datetime(instant)
}

/// `YYYY-MM-DD`
#[tactic(auto, unfolding(crate::specs::Spelling::date_text))]
fn push_date(text: &mut String, date: Date) -> Result<(), NoMemory>
    requires { pos 0 ≤ℤ date.year }
    ensures ok { OnOk result (string_bytes text.new
        ≡ string_bytes text.old ++ date_text (unsigned_abs date.year) date.month date.day) }
{
    push_number(text, date.year() as u32, 4)?;
    push_byte(text, b'-')?;
    push_number(text, date.month() as u32, 2)?;
    push_byte(text, b'-')?;
    push_number(text, date.day() as u32, 2)
}

/// `HH:MM:SS`
#[tactic(auto, unfolding(crate::specs::Spelling::clock_text))]
fn push_clock(text: &mut String, time: Time) -> Result<(), NoMemory>
    ensures ok { OnOk result (string_bytes text.new
        ≡ string_bytes text.old ++ clock_text time.hour time.minute time.second) }
{
    push_number(text, time.hour() as u32, 2)?;
    push_byte(text, b':')?;
    push_number(text, time.minute() as u32, 2)?;
    push_byte(text, b':')?;
    push_number(text, time.second() as u32, 2)
}

/// The last `width` decimal digits of the value, with leading zeros.
#[tactic(auto, unfolding(crate::specs::Spelling::number))]
fn push_number(text: &mut String, value: u32, width: u32) -> Result<(), NoMemory>
    ensures ok { OnOk result
        (string_bytes text.new ≡ string_bytes text.old ++ number width value) }
{
    if width == 0 {
        return Ok(());
    }
    push_number(text, value / 10, width - 1)?;
    push_byte(text, b'0' + (value % 10) as u8)
}

fn push_byte(text: &mut String, byte: u8) -> Result<(), NoMemory>
    requires { byte < 128 }
    ensures ok { OnOk result (string_bytes text.new ≡ string_bytes text.old ++ byte ∷ []) }
{
    text.push(char::from(byte))?;
    Ok(())
}
