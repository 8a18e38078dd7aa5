//! Numbers and single bytes at the front of a text: each function gives what it read and the rest.
ghost use Rattle.std.specs.Prelude.{◌≡◌, ◌^◌, ◌<◌, ◌≤◌, length, IsTrue, IfSome, option_map, option_copied, ◌==◌};
ghost use Rattle.std.specs.List.{list_all};
ghost use Rattle.std.specs.Char.{is_ascii_digit};
ghost use Rattle.std.specs.Str.Parse.{digits_value};
ghost use Rattle.mtime_text.specs.Reading.{number_at, after_byte};

/// A number of exactly `width` digits.
#[tactic(auto, unfolding(crate::specs::Reading::number_at))]
pub(crate) fn number(text: &[u8], width: usize) -> Option<(u32, &[u8])>
    requires { width ≤ 9 }
    ensures bytes { option_map (λ p. (p.0, p.1.now)) result ≡ number_at width text.now }
    ensures bound { IfSome result (λ p. p.0 < 10 ^ width) }
{
    let (front, rest) = text.split_at_checked(width)?;
    if !are_digits(front) {
        return None;
    }
    Some((value(front), rest))
}

fn are_digits(bytes: &[u8]) -> bool
    ensures { result ≡ list_all is_ascii_digit bytes.now }
{
    bytes.iter().all(|byte| byte.is_ascii_digit())
}

/// The number that decimal digits write.
fn value(digits: &[u8]) -> u32
    requires width { length digits.now ≤ 9 }
    requires digits { IsTrue (list_all is_ascii_digit digits.now) }
    ensures value { result ≡ digits_value 10 digits.now }
    ensures bound { result < 10 ^ length digits.now }
{
    let mut value = 0;
    'digits: for digit in digits {
        value = value * 10 + u32::from(digit - b'0');
    }
    value
}

/// What follows `byte` at the front of the text.
pub(crate) fn after(text: &[u8], byte: u8) -> Option<&[u8]>
    ensures { option_copied result ≡ after_byte (◌==◌ byte) text.now }
{
    match text {
        [first, rest @ ..] if *first == byte => Some(rest),
        _ => None,
    }
}
