//! The records and the kept files of one mount.
ghost use Rattle.std.specs.Prelude.{Bool, ◌≡◌, ◌≢◌, ◌+◌, ◌≤◌, ◌∷◌, [], IfOk, IfSome, OnOk, OnErr, length, option_map, take, drop};
ghost use Rattle.std.specs.Option.{ForSome};
ghost use Rattle.cache_spec.specs.KeptFiles.{blocks_of, content_of, used};
ghost use Rattle.history_spec.specs.Pasts.{lifetime_of};
ghost use Rattle.mount_kept.specs.Notes.{EndsBy, IsToldOf, Learns};
ghost use Rattle.mount_kept.specs.Recalls.{recall_of};
ghost use Rattle.mount_kept.specs.Serves.{found_of};
ghost use Rattle.mount_model.specs.Configs.{IsConfig};
ghost use Rattle.mount_model.specs.declared.journal.Fill.TheVariants as fills;
ghost use Rattle.mount_rules.specs.Requests.Lookup as lookup;
ghost use Rattle.mount_rules.specs.Plans.{Plan};
ghost use Rattle.record_spec.specs.RecordList.{empty_list, Key};
ghost use Rattle.record_spec.specs.Steps.{found};
ghost use Rattle.thrift_spec.specs.Files.{files_filled};
ghost use Rattle.thrift_spec.specs.Records.{found_in};

use crate::lifetimes::{ends_in_slash, lifetime_of};
use crate::notes::{Note, Notes};
use crate::recall::{Found, Recall, asks_for_object};
use file_cache::{FileCache, FileKey, Filled};
use io_ports::{Bytes, NoMemory, Row, Text};
use mount_model::{Config, Fill, Use};
use record_spec::{Learned, Shown};
use stat_records::StatRecords;
use std::alloc::Global;

/// What a mount keeps of what its bucket showed: what it learned of names, each for a lifetime; and whole files, by name and
/// generation. Both are bounded, and what was used longest ago goes first.
#[derive(Drop)]
pub struct Kept {
    /// What was learned of names.
    pub records: StatRecords,
    /// Whole files.
    pub files: FileCache,
}

impl Kept {
    /// Nothing is kept so far. It takes the memory of all blocks for files at once. `NoMemory` where that, or memory for the
    /// empty tables, was refused.
    pub fn new(alloc: Global, config: &Config) -> Result<Kept, NoMemory>
        requires config { IsConfig config.now }
        ensures records { IfOk result (λ kept. kept.records ≡ empty_list config.now.record_capacity) }
        ensures files { IfOk result (λ kept. kept.files ≡ record { files = []; blocks = config.now.cache_blocks }) }
    {
        let records = StatRecords::new(alloc, config.record_capacity)?;
        let files = FileCache::new(alloc, config.cache_blocks)?;
        Ok(Kept { records, files })
    }

    /// Looks for the record of one key at a take, so many seconds after the start: a copy of what it tells, where it lives; it
    /// is then the most recently used one. `NoMemory` where memory for the copy was refused; then nothing has changed.
    pub fn recall(
        &mut self,
        alloc: Global,
        config: &Config,
        now: u64,
        key: &Text,
    ) -> Result<Option<Recall>, NoMemory>
        ensures ok { IfOk result (λ recall. recall ≡ recall_of config.now now self.old.records key.now) }
        ensures kept { OnOk result (self.new ≡ record self.old { records = found self.old.records key.now now (lifetime_of config.now key.now) }) }
        ensures err { OnErr result (self.new ≡ self.old) }
    {
        let recall = self.peek(alloc, config, now, key)?;
        self.touch(config, now, key);
        Ok(recall)
    }

    /// Looks at a LOOKUP's take for the record of the directory's key, and for the object's where the request still asks
    /// anything then: a copy of what each tells that lives. `NoMemory` where memory for a copy was refused; then nothing has
    /// changed.
    pub fn recall_both(
        &mut self,
        alloc: Global,
        config: &Config,
        now: u64,
        directory: &Text,
        path: &Text,
        suffixed: bool,
    ) -> Result<Found, NoMemory>
        ensures ok { IfOk result (λ came. (implicit : Bool) (name : Key) → came ≡ found_of config.now now (lookup.plan implicit name suffixed) self.old.records (directory.now ∷ path.now ∷ [])) }
        ensures kept { OnOk result ((implicit : Bool) (name : Key) → self.new ≡ record self.old { records = found_in config.now now (lookup.plan implicit name suffixed) (directory.now ∷ path.now ∷ []) self.old.records }) }
        ensures err { OnErr result (self.new ≡ self.old) }
    {
        let probe = self.peek(alloc, config, now, directory)?;
        if !asks_for_object(&probe, suffixed) {
            self.touch(config, now, directory);
            return Ok(Found { probe, stat: None });
        }
        let stat = self.peek(alloc, config, now, path)?;
        self.touch(config, now, directory);
        self.touch(config, now, path);
        Ok(Found { probe, stat })
    }

    /// Looks at a take for the record of the one key for which a request looks: a copy of what it tells, where it lives; it is then
    /// the most recently used one. `NoMemory` where memory for the copy was refused; then nothing has changed.
    pub fn recall_one(
        &mut self,
        alloc: Global,
        config: &Config,
        now: u64,
        key: &Text,
    ) -> Result<Found, NoMemory>
        ensures ok { IfOk result (λ came. (asks : Plan) → came ≡ found_of config.now now asks self.old.records (key.now ∷ [])) }
        ensures kept { OnOk result (self.new ≡ record self.old { records = found self.old.records key.now now (lifetime_of config.now key.now) }) }
        ensures err { OnErr result (self.new ≡ self.old) }
    {
        let recall = self.recall(alloc, config, now, key)?;
        if ends_in_slash(key.as_str().as_bytes()) {
            return Ok(Found {
                probe: recall,
                stat: None,
            });
        }
        Ok(Found {
            probe: None,
            stat: recall,
        })
    }

    /// What the record of a key tells, where it lives. `NoMemory` where memory for a copy of it was refused.
    fn peek(
        &self,
        alloc: Global,
        config: &Config,
        now: u64,
        key: &Text,
    ) -> Result<Option<Recall>, NoMemory>
        ensures ok { IfOk result (λ recall. recall ≡ recall_of config.now now self.now.records key.now) }
    {
        let lifetime = lifetime_of(config, key.as_str());
        let Some((moment, shown)) = self.records.peek(key.as_str(), now, lifetime) else {
            return Ok(None);
        };
        let shown = shown.copy(alloc)?;
        Ok(Some(Recall { moment, shown }))
    }

    /// Makes the record of a key the most recently used one, where it lives.
    fn touch(&mut self, config: &Config, now: u64, key: &Text)
        ensures { self.new ≡ record self.old { records = found self.old.records key.now now (lifetime_of config.now key.now) } }
    {
        let lifetime = lifetime_of(config, key.as_str());
        self.records.find(key.as_str(), now, lifetime);
    }

    /// Tells at the end of a call, taken so many seconds after the start, what it noted: what it saw itself is learned, and of
    /// what it wrote all records go. The uses of its looks, each with whether a record of it is kept. No memory is asked for
    /// but that of a new record, and where that is refused the use says so.
    pub fn tell(&mut self, clock: u64, implicit: bool, notes: Notes) -> Row<Use>
        ensures ok { EndsBy implicit clock self.old.records notes.items result.items self.new.records }
        ensures kept { self.new.files ≡ self.old.files }
    {
        let (notes, mut uses) = notes.into_parts();
        for note in notes.into_vec() {
            self.tell_note(clock, implicit, note, &mut uses);
        }
        uses
    }

    /// Tells what a call noted of one operation.
    fn tell_note(&mut self, clock: u64, implicit: bool, note: Note, uses: &mut Row<Use>)
        requires { 1 ≤ uses.old.spare }
        ensures ok { IsToldOf implicit clock self.old.records note uses.old.items uses.new.items self.new.records }
        ensures kept { self.new.files ≡ self.old.files }
        ensures room { uses.old.spare ≤ uses.new.spare + 1 }
    {
        match note {
            Note::Saw { key, moment, shown } => {
                let kept = self.learn(clock, &key, moment, shown);
                uses.push(Use {
                    moment,
                    own: true,
                    kept,
                });
            }
            Note::Failed { moment } => uses.push(Use {
                moment,
                own: true,
                kept: false,
            }),
            Note::Recalled { moment } => uses.push(Use {
                moment,
                own: false,
                kept: false,
            }),
            Note::Wrote { name, moment } => {
                self.records.own_write(name.as_str(), moment, implicit);
            },
        }
    }

    /// Learns what a call saw itself of a key at a moment. Whether a record of it is kept.
    fn learn(&mut self, clock: u64, key: &Text, moment: u64, shown: Shown) -> bool
        ensures ok { Learns clock self.old.records key.now moment shown result self.new.records }
        ensures kept { self.new.files ≡ self.old.files }
    {
        self.records.learn(key, moment, clock, shown) == Learned::Kept
    }

    /// Copies bytes of a file out, from a place on, where it is kept; it is then the one that was used last. `NoMemory` where
    /// memory for the copy was refused; then nothing has changed.
    pub fn copy_bytes(
        &mut self,
        alloc: Global,
        key: &FileKey,
        first: u64,
        count: u64,
    ) -> Result<Option<Bytes>, NoMemory>
        requires range { ForSome (content_of self.old.files.files key.now) (λ content. first + count ≤ length content) }
        ensures ok { IfOk result (λ came. came ≡ option_map (λ content. take count (drop first content)) (content_of self.old.files.files key.now)) }
        ensures kept { OnOk result (self.new ≡ record self.old { files = record self.old.files { files = used self.old.files.files key.now } }) }
        ensures err { OnErr result (self.new ≡ self.old) }
    {
        if !self.files.holds(key) {
            return Ok(None);
        }
        let mut bytes = Vec::new(alloc);
        bytes.resize(count as usize, 0)?;
        self.files.get(key, first, &mut bytes);
        Ok(Some(Bytes::from_vec(bytes)))
    }

    /// Keeps the bytes of a whole file that fits, which is then the one that was used last; files used longest ago make room.
    /// What came of it: `Kept`, or `NoMemory` where memory was refused, which comes only where the file isn't kept yet.
    pub fn fill(&mut self, key: &FileKey, bytes: &[u8]) -> Fill
        requires some { 1 ≤ length bytes.now }
        requires same { ForSome (content_of self.old.files.files key.now) (λ content. content ≡ bytes.now) }
        requires fits { blocks_of bytes.now ≤ self.old.files.blocks }
        ensures ok { self.new ≡ record self.old { files = record self.old.files { files = files_filled self.old.files.blocks result self.old.files.files ((key.now, bytes.now) ∷ []) } } }
        ensures seen { result ≢ fills.Nothing }
    {
        match self.files.fill(key, bytes) {
            Filled::Kept => Fill::Kept,
            Filled::NoMemory => Fill::NoMemory,
            Filled::TooLarge => unreachable!(),
        }
    }
}
