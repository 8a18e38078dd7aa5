//! The steps of a table of records, each of which is one of the record list.
ghost use Rattle.std.specs.Prelude.{◌≡◌, IsSome, if◌then◌else◌, is_some, max, fold};
ghost use Rattle.std.specs.Option.{option_map_or};
ghost use Rattle.record_spec.specs.RecordList.{record_of, known_to};
ghost use Rattle.record_spec.specs.Steps.{live_record, gone, is_behind, behind, kept, raised, learned, MayBe, cuts, written_keys};
ghost use Rattle.record_spec.specs.Steps.{is_live as lives};

use crate::stat_records::StatRecords;
use record_spec::{Learned, Record};

impl StatRecords {
    /// Whether `find` would find a record.
    pub(crate) fn has_live(&self, key: &str, now: u64, lifetime: u64) -> bool
        ensures { result ≡ is_some (live_record self.now key.now now lifetime) }
    {
        self.peek(key, now, lifetime).is_some()
    }

    /// Learns an observation.
    pub(crate) fn observe(&mut self, key: &str, observed: Record) -> Learned
        ensures came { MayBe self.old key.now observed.moment result }
        ensures records { self.new ≡ learned self.old key.now observed result }
    {
        if self.is_behind(key, observed.moment) {
            self.pass(key, observed.moment);
            return Learned::Behind;
        }
        if self.inner.contains(key) {
            self.replace(key, observed);
            return Learned::Kept;
        }
        if self.add(key, observed) {
            Learned::Kept
        } else {
            Learned::NoMemory
        }
    }

    /// The records of all keys that a write of a name may have changed go.
    pub(crate) fn go_with(&mut self, name: &str, implicit: bool)
        ensures { self.new ≡ fold gone self.old (written_keys implicit name.now) }
    {
        self.go(name);
        if implicit {
            self.go_above(name);
        }
    }

    /// Whether an observation is below the watermark, or older than its key's record.
    fn is_behind(&self, key: &str, moment: u64) -> bool
        ensures { result ≡ is_behind self.now key.now moment }
    {
        moment < self.low || moment < self.known_to(key)
    }

    /// The moment of a key's record, and the watermark where it has none.
    fn known_to(&self, key: &str) -> u64
        ensures { result ≡ known_to self.now key.now }
    {
        match self.inner.peek(key) {
            Some(record) => record.moment,
            None => self.low,
        }
    }

    /// The watermark rises to a moment.
    pub(crate) fn raise(&mut self, moment: u64)
        ensures { self.new ≡ raised self.old moment }
    {
        self.low = self.low.max(moment);
    }

    /// The record of a key goes, where it has one.
    fn go(&mut self, key: &str)
        ensures { self.new ≡ gone self.old key.now }
    {
        let _ = self.inner.len();
        let out = self.inner.pop_entry(key);
        self.low = raised_by(self.low, out);
    }

    /// The records of all directories' keys that begin a name go.
    fn go_above(&mut self, name: &str)
        ensures { self.new ≡ fold gone self.old (cuts name.now) }
    {
        for (at, byte) in name.as_bytes().iter().enumerate() {
            if *byte == b'/' {
                let (directory, _) = name.split_at(at + 1);
                self.go(directory);
            }
        }
    }

    /// The record of a key goes, where it is older than an observation that isn't kept.
    fn pass(&mut self, key: &str, moment: u64)
        ensures { self.new ≡ behind self.old key.now moment }
    {
        if self.known_to(key) < moment {
            self.go(key);
        }
    }

    /// A key that has a record gets another: no memory is asked for.
    fn replace(&mut self, key: &str, observed: Record)
        requires { IsSome (record_of self.old key.now) }
        ensures { self.new ≡ kept self.old key.now observed }
    {
        let _ = self.inner.len();
        let slot = self.inner.get_mut(key).unwrap();
        *slot = observed;
    }

    /// A key that has no record gets one, and past the capacity the last record goes. Where memory for it is refused
    /// the watermark rises to its moment.
    fn add(&mut self, key: &str, observed: Record) -> bool
        requires { record_of self.old key.now ≡ None }
        ensures { self.new ≡ (if result then kept self.old key.now observed else raised self.old observed.moment) }
    {
        let _ = self.inner.len();
        let moment = observed.moment;
        let Ok(key) = String::from_str(self.alloc, key) else {
            self.raise(moment);
            return false;
        };
        let Ok(out) = self.inner.push(key, observed) else {
            self.raise(moment);
            return false;
        };
        self.low = raised_by(self.low, out);
        true
    }
}

/// Whether a record's tick and the lifetime lie after `now`. Their sum is not taken, so nothing wraps.
pub(crate) fn is_live(observed: &Record, now: u64, lifetime: u64) -> bool
    ensures { result ≡ lives now lifetime observed.now }
{
    observed.tick > now || now - observed.tick < lifetime
}

/// The watermark, once a record that went has left its moment to it.
fn raised_by(low: u64, out: Option<(String, Record)>) -> u64
    ensures { result ≡ option_map_or (λ entry. max low entry.1.moment) out low }
{
    match out {
        Some((_, record)) => low.max(record.moment),
        None => low,
    }
}
