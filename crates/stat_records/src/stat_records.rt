//! The table of records, and its calls.
ghost use Rattle.std.specs.Prelude.{◌≡◌, ◌≤◌, ◌↔◌, IsTrue, IfOk, OnOk, Bool, length};
ghost use Rattle.std.specs.Borrow.{sem};
ghost use Rattle.record_spec.specs.RecordList.{Key, empty_list, record_of};
ghost use Rattle.record_spec.specs.Steps.{live_record, found, is_behind, learned, MayBe, written};
ghost use Rattle.record_spec.specs.Past.{Writes};
ghost use Rattle.record_spec.specs.Laws.{NoneFalls, FindsLawful, StillKeepsUp, UsesAreLawful, saw, wrote};
ghost use Rattle.stat_records.specs.Ending.{EndsAs};
ghost use Rattle.stat_records.specs.Told.{told, told_of};

use crate::steps::is_live;
use io_ports::{NoMemory, Text};
use lru::LruCache;
use record_spec::{Learned, Record, Shown};
use std::alloc::Global;
use std::marker::Model;
use std::num::NonZeroUsize;

/// What the bucket showed of keys, so that a name need not be asked for again within a lifetime. A key is the path of
/// an object, or a directory's path with a slash behind it. Moments are places in the bucket's log, ticks and
/// lifetimes are seconds. Contracts see the records, the most recently used first, the watermark, and the capacity.
#[derive(Drop)]
pub struct StatRecords {
    pub(crate) inner: LruCache<String, Record>,
    pub(crate) low: u64,
    pub(crate) alloc: Global,
}

impl Model for StatRecords {
    ghost use Rattle.record_spec.specs.RecordList.{RecordList};
    ghost use Rattle.stat_records.specs.Keys.{by_bytes};

    ghost Value = { RecordList };

    ghost view = { λ a. record { records = by_bytes a.inner.entries; low = a.low; capacity = a.inner.cap } };
}

impl StatRecords {
    /// Records of at most so many keys, and none so far. No room is taken for a record before it is learned.
    /// `NoMemory` where memory for the empty table was refused.
    pub fn new(alloc: Global, capacity: u64) -> Result<StatRecords, NoMemory>
        requires { 1 ≤ capacity }
        ensures ok { IfOk result (λ list. list ≡ empty_list capacity) }

        // Along any calls from here on, a record that is found may be used in place of a look into the bucket.
        ensures lawful { OnOk result UsesAreLawful }
    {
        let most = NonZeroUsize::new(capacity as usize).unwrap();
        let inner = LruCache::sparse(alloc, most)?;
        Ok(StatRecords {
            inner,
            low: 0,
            alloc,
        })
    }

    /// The record of a key, where it has one whose tick and this lifetime lie after `now`: its moment and what it
    /// shows. It becomes the most recently used one; where there is none, nothing changes.
    pub fn find(&mut self, key: &str, now: u64, lifetime: u64) -> Option<(u64, &Shown)>
        ensures* promotes { sem 𝓛 (EndsAs self.entry (found self.old key.now now lifetime)) }
        ensures shown { told result ≡ told_of (live_record self.old key.now now lifetime) }
        ensures lawful { FindsLawful self.old key.now now lifetime }
        ensures rises { NoneFalls self.old (found self.old key.now now lifetime) }
    {
        // Keys stand once, and no more of them than the capacity: the length says so.
        let _ = self.inner.len();
        if !self.has_live(key, now, lifetime) {
            return None;
        }
        self.inner.promote(key);
        self.peek(key, now, lifetime)
    }

    /// What `find` would answer. Nothing changes.
    pub fn peek(&self, key: &str, now: u64, lifetime: u64) -> Option<(u64, &Shown)>
        ensures shown { told result ≡ told_of (live_record self.now key.now now lifetime) }
        ensures lawful { FindsLawful self.now key.now now lifetime }
        ensures few { length self.now.records ≤ self.now.capacity }
    {
        let _ = self.inner.len();
        let Some(record) = self.inner.peek(key) else {
            return None;
        };
        if !is_live(record, now, lifetime) {
            return None;
        }
        Some((record.moment, &record.shown))
    }

    /// Learns what the bucket showed of a key at a moment, to a call that was taken at a tick. An observation that is
    /// older than the key's record, or below the watermark, is `Behind` and isn't kept; where it is newer than the key's
    /// record, that record goes. Any other comes to the front in the place of the key's record, and past the capacity
    /// the record that was used longest ago goes. `NoMemory` where memory for a record was refused, which is asked for
    /// only where the key has none; the watermark has then risen to the moment.
    pub fn learn(&mut self, key: &Text, moment: u64, tick: u64, shown: Shown) -> Learned
        ensures behind { (result ≡ Learned.Behind) ↔ IsTrue (is_behind self.old key.now moment) }
        ensures no_memory { result ≡ Learned.NoMemory → record_of self.old key.now ≡ None }
        ensures came { MayBe self.old key.now moment result }
        ensures records { self.new ≡ learned self.old key.now (record { moment = moment; tick = tick; shown = shown }) result }

        // Of no key less is known than before, and the list still keeps up with what calls that are done have seen.
        ensures rises { NoneFalls self.old self.new }
        ensures keeps_up { (implicit : Bool) → StillKeepsUp implicit self.old (saw key.now (record { moment = moment; tick = tick; shown = shown }) result) self.new }
    {
        let _ = self.inner.len();
        let observed = Record {
            moment,
            tick,
            shown,
        };
        self.observe(key.as_str(), observed)
    }

    /// The call that wrote this name at a moment is done: the name's record goes, and with `implicit` also that of each
    /// directory's key that begins the name; the watermark rises to the moment. It takes one look-up for the name and
    /// one for each of its slashes.
    pub fn own_write(&mut self, name: &str, moment: u64, implicit: bool)
        ensures records { self.new ≡ written self.old name.now moment implicit }
        ensures gone { (key : Key) → Writes implicit name.now key → record_of self.new key ≡ None }
        ensures kept { (key : Key) → ¬ Writes implicit name.now key → record_of self.new key ≡ record_of self.old key }

        // Of no key less is known than before, and the list still keeps up with what calls that are done have written.
        ensures rises { NoneFalls self.old self.new }
        ensures keeps_up { StillKeepsUp implicit self.old (wrote name.now moment) self.new }
    {
        self.go_with(name, implicit);
        self.raise(moment);
    }

    /// The watermark: it has risen to the moment of each record that went, of each write, and of each observation for
    /// which memory was refused.
    pub fn low(&self) -> u64
        ensures { result ≡ self.now.low }
    {
        self.low
    }
}
