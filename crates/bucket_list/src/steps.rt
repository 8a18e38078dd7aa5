//! The steps of a walk.
ghost use Rattle.std.specs.Prelude.{◌≡◌, ◌≢◌, ◌∷◌, ◌++◌, [], IfOk, IfSome, IsTrue, ◌↔◌, MatchOption, option_copied};
ghost use Rattle.bucket_api.specs.Listing.{keys_after};
ghost use Rattle.bucket_list.specs.Slash.{IsBeforeSlash};
ghost use Rattle.bucket_list.specs.Walking.{IsWalk, SameListing, Stops, keys_left, key_text, IsKey};

use crate::slash::{after_prefix, before_slash, joined};
use crate::start::start;
use crate::walk::{Ahead, Key, Walk};
use bucket_api::Object;
use io_ports::{NoMemory, Text};
use std::alloc::Global;
use std::collections::BTreeMap;
use std::collections::btree_map::Range;
use std::ops::Bound;

impl<'a> Walk<'a> {
    /// A walk over the keys that stand after the one asked.
    pub(crate) fn new(
        alloc: Global,
        objects: &'a BTreeMap<Text, Object>,
        prefix: &'a str,
        slash: bool,
        after: Option<&str>,
    ) -> Result<Walk<'a>, NoMemory>
        ensures walk { IfOk result IsWalk }
        ensures keys { IfOk result (λ walk. keys_left walk ≡ keys_after objects.entry.now.entries prefix.entry.now slash (option_copied after.entry)) }
        ensures entries { IfOk result (λ walk. walk.objects.now.entries ≡ objects.entry.now.entries) }
        ensures prefix { IfOk result (λ walk. walk.prefix.now ≡ prefix.entry.now) }
        ensures slash { IfOk result (λ walk. walk.slash ≡ slash) }
    {
        let from = start(alloc, prefix, slash, after)?;
        let mut rest = objects.range((from, Bound::Unbounded));
        let ahead = ahead_in(&mut rest, prefix);
        Ok(Walk {
            objects,
            prefix,
            slash,
            rest,
            ahead,
        })
    }

    /// Whether a key is left.
    pub(crate) fn has_more(&self) -> bool
        requires { IsWalk self.now }
        ensures { IsTrue result ↔ (keys_left self.now ≢ []) }
    {
        self.ahead.is_some()
    }

    /// The next key. After `NoMemory` the walk is as it was.
    pub(crate) fn next(&mut self, alloc: Global) -> Result<Option<Key<'a>>, NoMemory>
        requires { IsWalk self.old }
        ensures walk { IsWalk self.new }
        ensures same { SameListing self.old self.new }
        ensures keys { IfOk result (λ key. MatchOption key (keys_left self.old ≡ []) (λ k. keys_left self.old ≡ key_text k ∷ keys_left self.new)) }
        ensures key { IfOk result (λ key. IfSome key (IsKey self.old.objects.now.entries self.old.prefix.now self.old.slash)) }
    {
        let Some(ahead) = self.ahead else {
            return Ok(None);
        };
        match before_slash(ahead.rest, self.slash) {
            Some(part) => {
                let key = joined(alloc, self.prefix, part, "/")?;
                let past = joined(alloc, self.prefix, part, "0")?;
                let object = self.objects.get(&key);
                self.rest = self.objects.range(past..);
                self.ahead = ahead_in(&mut self.rest, self.prefix);
                Ok(Some(Key::Prefix(key, object)))
            }
            None => {
                self.ahead = ahead_in(&mut self.rest, self.prefix);
                Ok(Some(Key::Name(ahead.name, ahead.object)))
            }
        }
    }
}

/// The first entry that is left, where its name begins with the prefix.
fn ahead_in<'a>(rest: &mut Range<'a, Text, Object>, prefix: &str) -> Option<Ahead<'a>>
    ensures { MatchOption result (Stops prefix.now rest.old) (λ a. (rest.old ≡ (a.name.now, a.object.now) ∷ rest.new) × (a.name.now ≡ prefix.now ++ a.rest.now)) }
{
    let Some((name, object)) = rest.next() else {
        return None;
    };
    match after_prefix(name.as_str(), prefix) {
        Some(rest) => Some(Ahead { name, rest, object }),
        None => None,
    }
}
