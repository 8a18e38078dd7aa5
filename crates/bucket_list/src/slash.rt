//! Texts by their first slash.
ghost use Rattle.std.specs.Prelude.{◌≡◌, ◌++◌, false, nat_eq, IfOk, IsTrue, MatchOption};
ghost use Rattle.std.specs.List.{starts_with};
ghost use Rattle.bucket_list.specs.Slash.{NoSlash, IsBeforeSlash};

use io_ports::{NoMemory, Text};
use std::alloc::Global;

/// What follows the prefix in the text, where the text begins with it.
pub(crate) fn after_prefix<'a>(text: &'a str, prefix: &str) -> Option<&'a str>
    ensures { MatchOption result (starts_with nat_eq text.entry.now prefix.now ≡ false) (λ rest. text.entry.now ≡ prefix.now ++ rest.now) }
{
    match text.strip_prefix(prefix) {
        Some(rest) => Some(rest),
        None => None,
    }
}

/// What stands before the first slash of the text, where a listing by slash ends a key at it.
pub(crate) fn before_slash(text: &str, slash: bool) -> Option<&str>
    ensures { MatchOption result (IsTrue slash → NoSlash text.now) (λ part. IsTrue slash × IsBeforeSlash text.now part.now) }
{
    if !slash {
        return None;
    }
    match text.split_once('/') {
        Some((part, _)) => Some(part),
        None => None,
    }
}

/// The three texts one after another.
pub(crate) fn joined(alloc: Global, prefix: &str, part: &str, end: &str) -> Result<Text, NoMemory>
    ensures ok { IfOk result (λ text. text ≡ prefix.now ++ (part.now ++ end.now)) }
{
    let mut text = String::from_str(alloc, prefix)?;
    text.push_str(part)?;
    text.push_str(end)?;
    Ok(Text::from_string(text))
}
