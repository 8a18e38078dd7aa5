//! Reading a time.
ghost use Rattle.std.specs.Prelude.{ℕ, ◌≡◌, ◌+◌, ◌-◌, ◌*◌, ◌^◌, ◌<◌, ◌≤◌, ◌+ℤ◌, ◌-ℤ◌, ◌*ℤ◌, pos, length, None, Some, IfSome, option_map, option_copied, if◌then◌else◌};
ghost use Rattle.std.specs.List.{prefix_len};
ghost use Rattle.std.specs.Char.{is_ascii_digit};
ghost use Rattle.jiff_core.specs.Calendar.{days_from_civil, IsWithin, IsEpochDay};
ghost use Rattle.mtime_text.specs.Grammar.{IsMtimeText};
ghost use Rattle.mtime_text.specs.Reading.{after_byte, is_time_mark, is_date, date_at, clock_at, fraction_at, places_at, hours_at, offset_at, in_range, whole, mtime_of};

use crate::digits::{after, number};
use file_metadata::LAST_SECOND;
use jiff::civil::Date;

/// The second in UTC since 1970-01-01T00:00:00Z and the nanoseconds past it that a text names. `None`
/// exactly where the text is not on the grammar.
///
/// The grammar is `date-time` of RFC 3339, section 5.6: `YYYY-MM-DD`, `T` or `t`, `HH:MM:SS`, optionally
/// `.` and 1 to 9 digits, then `Z`, `z`, or a sign, hours 00 to 23, `:` and minutes 00 to 59. The calendar
/// has the date, hours end at 23, and minutes and seconds at 59: a leap second is not read. The second in
/// UTC lies in 0 to 249,999,999,999.
#[tactic(auto, using(crate::proofs::GrammarLemmas::time_takes, crate::proofs::GrammarLemmas::time_again))]
pub fn read(text: &str) -> Option<(u64, u32)>
    // What the text names, as a function of its bytes.
    ensures bytes { result ≡ mtime_of text.now }

    // What is read is on the grammar, and what is on the grammar is read.
    ensures ok { IfSome result (λ time. IsMtimeText text.now time.0 time.1) }
    ensures only { (second nanos : ℕ) → IsMtimeText text.now second nanos
        → result ≡ Some (second, nanos) }
{
    date_time(text.as_bytes())
}

/// `date-time`, with no byte after it.
#[tactic(auto, unfolding(crate::specs::Reading::mtime_of))]
fn date_time(text: &[u8]) -> Option<(u64, u32)>
    ensures { result ≡ mtime_of text.now }
{
    let (day, rest) = full_date(text)?;
    let (clock, rest) = clock(after_time_mark(rest)?)?;
    let (nanos, rest) = fraction(rest)?;
    let (offset, rest) = time_offset(rest)?;
    whole(utc_second(day, clock, offset), nanos, rest)
}

/// The time, where no byte is left after it.
fn whole(second: i64, nanos: u32, rest: &[u8]) -> Option<(u64, u32)>
    ensures { result ≡ whole second nanos rest.now }
{
    match rest {
        [] => in_range(second, nanos),
        [_, ..] => None,
    }
}

/// The time, where its second can be shown.
#[tactic(auto, unfolding(crate::specs::Reading::in_range))]
fn in_range(second: i64, nanos: u32) -> Option<(u64, u32)>
    ensures { result ≡ in_range second nanos }
{
    if second < 0 || second > LAST_SECOND as i64 {
        return None;
    }
    Some((second as u64, nanos))
}

/// The second in UTC of a second of a day, on a clock that is `offset` seconds ahead of UTC.
fn utc_second(day: i32, clock: u32, offset: i32) -> i64
    requires day { IsEpochDay day }
    requires clock { clock < 86_400 }
    requires offset { IsWithin 86_399 offset }
    ensures { result ≡ day *ℤ pos 86_400 +ℤ pos clock -ℤ offset }
{
    i64::from(day) * 86_400 + i64::from(clock) - i64::from(offset)
}

/// `YYYY-MM-DD`, as the day's number from 1970-01-01.
#[tactic(auto, unfolding(crate::specs::Reading::date_at))]
fn full_date(text: &[u8]) -> Option<(i32, &[u8])>
    ensures bytes { option_map (λ p. (p.0, p.1.now)) result ≡ date_at text.now }
    ensures bound { IfSome result (λ p. IsEpochDay p.0) }
{
    let (year, rest) = number(text, 4)?;
    let (month, rest) = number(after(rest, b'-')?, 2)?;
    let (day, rest) = number(after(rest, b'-')?, 2)?;
    Some((day_number(year, month, day)?, rest))
}

/// The date's number from 1970-01-01, where the calendar has the date.
fn day_number(year: u32, month: u32, day: u32) -> Option<i32>
    requires year { year < 10_000 }
    requires month { month < 100 }
    requires day { day < 100 }
    ensures value { result
        ≡ (if is_date year month day then Some (days_from_civil (pos year) month day) else None) }
    ensures bound { IfSome result IsEpochDay }
{
    match Date::new(year as i16, month as i8, day as i8) {
        Ok(date) => Some(date.to_plain().to_unix_epoch_day()),
        Err(_) => None,
    }
}

/// What follows the letter before the clock.
fn after_time_mark(text: &[u8]) -> Option<&[u8]>
    ensures { option_copied result ≡ after_byte is_time_mark text.now }
{
    match text {
        [b'T' | b't', rest @ ..] => Some(rest),
        _ => None,
    }
}

/// `HH:MM:SS`, as the second of the day.
#[tactic(auto, unfolding(crate::specs::Reading::clock_at))]
fn clock(text: &[u8]) -> Option<(u32, &[u8])>
    ensures bytes { option_map (λ p. (p.0, p.1.now)) result ≡ clock_at text.now }
    ensures bound { IfSome result (λ p. p.0 < 86_400) }
{
    let (hour, rest) = number(text, 2)?;
    let (minute, rest) = number(after(rest, b':')?, 2)?;
    let (second, rest) = number(after(rest, b':')?, 2)?;
    if hour < 24 && minute < 60 && second < 60 {
        Some((hour * 3600 + minute * 60 + second, rest))
    } else {
        None
    }
}

/// A point and one to nine digits, as nanoseconds; 0 where there is no point.
#[tactic(auto, unfolding(crate::specs::Reading::fraction_at))]
fn fraction(text: &[u8]) -> Option<(u32, &[u8])>
    ensures bytes { option_map (λ p. (p.0, p.1.now)) result ≡ fraction_at text.now }
    ensures bound { IfSome result (λ p. p.0 < 1_000_000_000) }
{
    match text {
        [b'.', rest @ ..] => places(rest),
        _ => Some((0, text)),
    }
}

/// The digits after the point, as nanoseconds.
#[tactic(auto, unfolding(crate::specs::Reading::places_at))]
fn places(text: &[u8]) -> Option<(u32, &[u8])>
    ensures bytes { option_map (λ p. (p.0, p.1.now)) result ≡ places_at text.now }
    ensures bound { IfSome result (λ p. p.0 < 1_000_000_000) }
{
    let places = digits_len(text);
    if places == 0 || places > 9 {
        return None;
    }
    let (fraction, rest) = number(text, places)?;
    Some((nanoseconds(fraction, places), rest))
}

/// The nanoseconds of a fraction of a second with so many decimal places.
fn nanoseconds(fraction: u32, places: usize) -> u32
    requires places { places ≤ 9 }
    requires fraction { fraction < 10 ^ places }
    ensures value { result ≡ fraction * 10 ^ (9 - places) }
    ensures bound { result < 1_000_000_000 }
{
    fraction * 10u32.pow(9 - places as u32)
}

/// How many digits stand at the front.
fn digits_len(text: &[u8]) -> usize
    ensures len { result ≡ prefix_len is_ascii_digit text.now }
    ensures within { result ≤ length text.now }
{
    text.iter().take_while(|byte| byte.is_ascii_digit()).count()
}

/// `Z`, or a sign, hours and minutes, as the seconds that a clock there is ahead of UTC.
#[tactic(auto, unfolding(crate::specs::Reading::offset_at))]
fn time_offset(text: &[u8]) -> Option<(i32, &[u8])>
    ensures bytes { option_map (λ p. (p.0, p.1.now)) result ≡ offset_at text.now }
    ensures bound { IfSome result (λ p. IsWithin 86_399 p.0) }
{
    match text {
        [b'Z' | b'z', rest @ ..] => Some((0, rest)),
        [b'+', rest @ ..] => {
            let (seconds, rest) = hours(rest)?;
            Some((seconds as i32, rest))
        }
        [b'-', rest @ ..] => {
            let (seconds, rest) = hours(rest)?;
            Some((-(seconds as i32), rest))
        }
        _ => None,
    }
}

/// `HH:MM`, in seconds.
#[tactic(auto, unfolding(crate::specs::Reading::hours_at))]
fn hours(text: &[u8]) -> Option<(u32, &[u8])>
    ensures bytes { option_map (λ p. (p.0, p.1.now)) result ≡ hours_at text.now }
    ensures bound { IfSome result (λ p. p.0 < 86_400) }
{
    let (hours, rest) = number(text, 2)?;
    let (minutes, rest) = number(after(rest, b':')?, 2)?;
    if hours < 24 && minutes < 60 {
        Some((hours * 3600 + minutes * 60, rest))
    } else {
        None
    }
}
