//! The mount on one thread that keeps its log and its journal.
ghost use Rattle.std.specs.Prelude.{Bool, ◌≡◌, ◌∷◌, ◌-◌, ◌^◌, [], false, None, length, IfOk, OnOk, OnErr};
ghost use Rattle.bucket_api.specs.BucketState.{IsWithin};
ghost use Rattle.bucket_api.specs.Log.{state_at};
ghost use Rattle.bucket_api.specs.Operation.{operation, IsAllowed};
ghost use Rattle.bucket_api.specs.Scripts.{script_of, IsScript};
ghost use Rattle.fuse_replies.specs.Replies.{IsSendable, without_spare as reply_without_spare};
ghost use Rattle.fuse_requests.specs.Grammar.{without_spare};
ghost use Rattle.history_laws.specs.Ends.{over};
ghost use Rattle.mount_core.specs.Logged.{IsOfBucket};
ghost use Rattle.mount_core.specs.LoneCalls.{Finds, Performs, SomeTaken};
ghost use Rattle.mount_core.specs.Lones.{first_lone, with_event, with_tick, CallsOne, HasNext, HasNoCall, IsLone, Tells, Ticks, Writes};
ghost use Rattle.mount_core.specs.Metadatas.{GivesMetadata};
ghost use Rattle.mount_model.specs.Configs.{IsConfig};
ghost use Rattle.mount_model.specs.Journal.{entries};
ghost use Rattle.mount_rules.specs.Dispatch.{early, is_full};
ghost use Rattle.history_spec.specs.Pasts.{lifetime_of};
ghost use Rattle.mount_kept.specs.Serves.{found_of};
ghost use Rattle.mount_rules.specs.Plans.{Plan};
ghost use Rattle.mount_rules.specs.Requests.Lookup as lookup;
ghost use Rattle.object_names.specs.Paths.{dir_prefix_of};
ghost use Rattle.record_spec.specs.RecordList.{Key};
ghost use Rattle.record_spec.specs.Steps.{found};
ghost use Rattle.thrift_spec.specs.Records.{found_in};
ghost use Rattle.mount_rules.specs.Files.{FilesAreShort};
ghost use Rattle.mount_rules.specs.Laws.{FilesHaveContent};
ghost use Rattle.mount_rules.specs.Mount.{second_at, IsMount};

use crate::errand::Errand;
use crate::logged::carry_logged;
use bucket_api::{Event, Op, Scripted};
use bucket_plain::Plain;
use file_metadata::LAST_SECOND;
use fuse_replies::Reply;
use fuse_replies::errno::ENOMEM;
use fuse_requests::Request;
use io_ports::{NoMemory, Row, Text};
use logged_bucket::LoggedBucket;
use mount_kept::{Found, Kept, Notes};
use mount_model::{CallId, Config, Fill, How, JournalEntry};
use mount_state::Mount;
use object_names::dir_prefix;
use plan_files::FileErrand;
use plan_names::NameErrand;
use std::alloc::Global;
use std::marker::Model;

/// A mount on one thread, over a bucket with its log and scripted faults. It keeps all that it did: the log of its bucket
/// and its journal, which the log explains. Calls of many lanes come one after another, each done before the next one, and
/// other writers and the clock between them. Contracts see its settings, the bucket before the log, the script, the log and
/// the journal.
#[derive(Drop)]
pub struct Lone {
    config: Config,
    mount: Mount,
    kept: Kept,
    bucket: LoggedBucket,
    journal: Row<JournalEntry>,
    /// The seconds since the start.
    clock: u64,
}

impl Model for Lone {
    ghost use Rattle.mount_core.specs.Lones.{LoneState};

    ghost Value = { LoneState };

    ghost use Rattle.mount_core.specs.LoneCalls.{lone_of, IsBetween};
    ghost use Rattle.mount_model.specs.Journal.{entries};

    ghost view = { λ l. lone_of l.config l.bucket (entries l.journal.items) };

    ghost invariant = { λ l. IsBetween l.config l.mount l.kept.records l.bucket (entries l.journal.items) l.clock };
}

impl Lone {
    /// A mount before its first call, over this bucket, whose generations and metagenerations are below 2^62. The script's
    /// moments, which count from 1, rise, and none of its modes is `Done`. It takes the memory of all blocks for staged
    /// contents at once. `NoMemory` where memory for these or for the root was refused; then bucket and script are dropped.
    pub fn new(
        alloc: Global,
        config: &Config,
        bucket: Plain,
        script: Row<Scripted>,
    ) -> Result<Lone, NoMemory>
        requires config { IsConfig config.now }
        requires within { IsWithin (2 ^ 62 - 1) bucket }
        requires script { IsScript (script_of script.items) }
        ensures ok { IfOk result (λ lone. lone ≡ first_lone config.now bucket (script_of script.items)) }
        ensures told { IfOk result (λ lone. Tells lone []) }
    {
        let mount = Mount::new(alloc, config)?;
        let kept = Kept::new(alloc, config)?;
        bucket.last();
        Ok(Lone {
            config: *config,
            mount,
            kept,
            bucket: LoggedBucket::new(alloc, bucket, script),
            journal: Row::new(alloc),
            clock: 0,
        })
    }

    /// Performs the next call of a lane. The call's take, what it made of the bucket, and its end are added. `NoMemory` where
    /// memory for the call's own entries, or for what the request may want at its end, was refused; it leaves all as it was.
    /// Where memory is refused later, the request is answered ENOMEM, and has made nothing but look-ups, reads, copies and lists.
    pub fn call(&mut self, alloc: Global, call: CallId, request: Request) -> Result<Reply, NoMemory>
        requires next { HasNext self.old call }
        ensures ok { IfOk result (λ reply. CallsOne self.old call (without_spare request) (reply_without_spare reply) self.new) }
        ensures sendable { IfOk result (λ reply. IsSendable (reply_without_spare reply)) }
        ensures err { OnErr result (self.new ≡ self.old) }
    {
        self.journal.reserve(2)?;
        let front = self.bucket.log().len();
        let Done { reply, how, notes } = perform(
            alloc,
            &self.config,
            self.clock,
            call.lane,
            &mut self.mount,
            &mut self.kept,
            &mut self.bucket,
            &request,
        )?;
        let uses = self.kept.tell(self.clock, self.config.implicit_dirs, notes);
        self.journal.push(JournalEntry::Take {
            call,
            front,
            request,
        });
        self.journal.push(JournalEntry::Done {
            call,
            front: self.bucket.log().len(),
            how,
            uses,
            fill: Fill::Nothing,
        });
        Ok(reply)
    }

    /// Makes an operation of a writer beside the mount, in a lane of its own. `NoMemory` where memory for it, for its answer
    /// or for the object was refused; it leaves all as it was.
    pub fn remote(&mut self, alloc: Global, lane: u64, op: &Op) -> Result<(), NoMemory>
        requires may { IsAllowed (operation op.now) }
        requires beside { HasNoCall self.old lane }
        ensures ok { OnOk result (self.new ≡ with_event self.old lane (operation op.now)) }
        ensures told { OnOk result (Writes self.old self.new) }
        ensures err { OnErr result (self.new ≡ self.old) }
    {
        let op = op.copy(alloc)?;
        self.bucket.act(alloc, lane, op)?;
        Ok(())
    }

    /// Lets so many seconds pass. `NoMemory` where memory for the journal was refused, or where the clock would pass the end of
    /// u64; it leaves all as it was.
    pub fn tick(&mut self, seconds: u64) -> Result<(), NoMemory>
        ensures ok { OnOk result (self.new ≡ with_tick self.old seconds) }
        ensures told { OnOk result (Ticks self.old self.new seconds) }
        ensures err { OnErr result (self.new ≡ self.old) }
    {
        let Some(clock) = self.clock.checked_add(seconds) else {
            return Err(NoMemory);
        };
        self.journal.reserve(1)?;
        let front = self.bucket.log().len();
        self.journal.push(JournalEntry::Tick { front, seconds });
        self.clock = clock;
        Ok(())
    }

    /// The bucket as it stands, its log, and the journal.
    pub fn finish(self) -> (Plain, Row<Event>, Row<JournalEntry>)
        ensures bucket { result.0 ≡ state_at self.start self.log (length self.log) }
        ensures log { result.1.items ≡ self.log }
        ensures journal { entries result.2.items ≡ self.journal }
        ensures lone { IsLone self }
    {
        let Lone {
            config: _,
            mount: _,
            kept: _,
            bucket,
            journal,
            clock: _,
        } = self;
        let (bucket, log) = bucket.into_parts();
        (bucket, log, journal)
    }
}

/// How a call was done: its reply, how it ended, and what it noted.
struct Done {
    reply: Reply,
    how: How,
    notes: Notes,
}

/// The second of a call at this clock, which stamps what it makes.
fn second_of(config: &Config, clock: u64) -> u64
    ensures { result ≡ second_at config.now clock }
{
    config.start.saturating_add(clock).min(LAST_SECOND)
}

/// Performs a request after so many seconds, as a call of this lane. `NoMemory` where memory for what it has to do, for what it
/// found, or for what it may want at its end, was refused; it leaves all as it was.
fn perform(
    alloc: Global,
    config: &Config,
    clock: u64,
    lane: u64,
    mount: &mut Mount,
    kept: &mut Kept,
    bucket: &mut LoggedBucket,
    request: &Request,
) -> Result<Done, NoMemory>
    requires config { IsConfig config.now }
    requires same { mount.old.config ≡ config.now }
    requires short { FilesAreShort mount.old.mount }
    requires metadata { GivesMetadata mount.old.mount }
    requires bucket { IsOfBucket bucket.old }
    requires files { FilesHaveContent (over bucket.old.start bucket.old.log mount.old.mount) }
    requires some { SomeTaken config.now clock lane mount.old.mount kept.old.records bucket.old (without_spare request.now) }
    ensures ok { IfOk result (λ done. Performs config.now clock lane mount.old.mount kept.old.records bucket.old (without_spare request.now) (reply_without_spare done.reply) done.how done.notes.items mount.new.mount kept.new.records bucket.new) }
    ensures sendable { IfOk result (λ done. IsSendable (reply_without_spare done.reply)) }
    ensures kept { mount.new ≡ record mount.old { mount = mount.new.mount } }
    ensures valid { IsMount mount.old.mount }
    ensures bucket { IsOfBucket bucket.new }
    ensures err { OnErr result ((mount.new ≡ mount.old) × (kept.new ≡ kept.old) × (bucket.new ≡ bucket.old)) }
{
    if let Some(errno) = mount.early(request) {
        return Ok(Done {
            reply: Reply::Error(errno),
            how: How::Ok,
            notes: Notes::new(alloc),
        });
    }
    carry_through(alloc, config, clock, lane, mount, kept, bucket, request)
}

/// Performs a request that isn't refused.
fn carry_through(
    alloc: Global,
    config: &Config,
    clock: u64,
    lane: u64,
    mount: &mut Mount,
    kept: &mut Kept,
    bucket: &mut LoggedBucket,
    request: &Request,
) -> Result<Done, NoMemory>
    requires config { IsConfig config.now }
    requires same { mount.old.config ≡ config.now }
    requires valid { IsMount mount.old.mount }
    requires short { FilesAreShort mount.old.mount }
    requires metadata { GivesMetadata mount.old.mount }
    requires free { early mount.old.mount (without_spare request.now) ≡ None }
    requires fits { is_full config.now mount.old.mount (without_spare request.now) ≡ false }
    requires bucket { IsOfBucket bucket.old }
    requires files { FilesHaveContent (over bucket.old.start bucket.old.log mount.old.mount) }
    requires some { SomeTaken config.now clock lane mount.old.mount kept.old.records bucket.old (without_spare request.now) }
    ensures ok { IfOk result (λ done. Performs config.now clock lane mount.old.mount kept.old.records bucket.old (without_spare request.now) (reply_without_spare done.reply) done.how done.notes.items mount.new.mount kept.new.records bucket.new) }
    ensures sendable { IfOk result (λ done. IsSendable (reply_without_spare done.reply)) }
    ensures kept { mount.new ≡ record mount.old { mount = mount.new.mount } }
    ensures bucket { IsOfBucket bucket.new }
    ensures err { OnErr result ((mount.new ≡ mount.old) × (kept.new ≡ kept.old) × (bucket.new ≡ bucket.old)) }
{
    let second = second_of(config, clock);
    let errand = Errand::of(alloc, config, mount, second, request)?;
    let mut spare = mount.prepare(alloc, request)?;
    let Ok(found) = find(alloc, config, clock, kept, &errand) else {
        mount.forgo(spare);
        return Err(NoMemory);
    };
    let mut notes = Notes::new(alloc);
    let implicit = config.implicit_dirs;
    match carry_logged(
        alloc, errand, second, implicit, lane, found, bucket, &mut notes,
    ) {
        Ok((told, base, items)) => {
            spare.items = items;
            let reply = mount.finish(second, request, spare, told, base);
            Ok(Done {
                reply,
                how: How::Ok,
                notes,
            })
        }
        Err(NoMemory) => {
            mount.forgo(spare);
            Ok(Done {
                reply: Reply::Error(ENOMEM),
                how: How::NoMemory,
                notes,
            })
        }
    }
}

/// Looks at a take for the records of the keys at which an errand looks: a copy of what each tells that lives. `NoMemory` where
/// memory for a key or a copy was refused; then nothing has changed.
fn find(
    alloc: Global,
    config: &Config,
    clock: u64,
    kept: &mut Kept,
    errand: &Errand,
) -> Result<Found, NoMemory>
    ensures ok { IfOk result (λ found. Finds config.now clock errand.now kept.old.records found kept.new.records) }
    ensures kept { kept.new.files ≡ kept.old.files }
    ensures err { OnErr result (kept.new ≡ kept.old) }
{
    match errand {
        Errand::Names(NameErrand::Lookup { path, suffix, .. }) => {
            let found = find_both(alloc, config, clock, kept, path, *suffix)?;
            Ok(found)
        }
        Errand::Names(NameErrand::Rename { from, .. }) => {
            let found = find_directory(alloc, config, clock, kept, from)?;
            Ok(found)
        }
        Errand::Files(FileErrand::Attr { name }) => kept.recall_one(alloc, config, clock, name),
        _ => Ok(Found::nothing()),
    }
}

/// Looks for the record of a path's directory, and for the object's where a LOOKUP still asks anything then.
fn find_both(
    alloc: Global,
    config: &Config,
    clock: u64,
    kept: &mut Kept,
    path: &Text,
    suffixed: bool,
) -> Result<Found, NoMemory>
    ensures ok { IfOk result (λ came. (other : Bool) (name : Key) → came ≡ found_of config.now clock (lookup.plan other name suffixed) kept.old.records (dir_prefix_of path.now ∷ path.now ∷ [])) }
    ensures list { OnOk result ((other : Bool) (name : Key) → kept.new ≡ record kept.old { records = found_in config.now clock (lookup.plan other name suffixed) (dir_prefix_of path.now ∷ path.now ∷ []) kept.old.records }) }
    ensures err { OnErr result (kept.new ≡ kept.old) }
{
    let directory = dir_prefix(alloc, path.as_str())?;
    let found = kept.recall_both(alloc, config, clock, &directory, path, suffixed)?;
    Ok(found)
}

/// Looks for the record of a path's directory.
fn find_directory(
    alloc: Global,
    config: &Config,
    clock: u64,
    kept: &mut Kept,
    path: &Text,
) -> Result<Found, NoMemory>
    ensures ok { IfOk result (λ came. (asks : Plan) → came ≡ found_of config.now clock asks kept.old.records (dir_prefix_of path.now ∷ [])) }
    ensures list { OnOk result (kept.new ≡ record kept.old { records = found kept.old.records (dir_prefix_of path.now) clock (lifetime_of config.now (dir_prefix_of path.now)) }) }
    ensures err { OnErr result (kept.new ≡ kept.old) }
{
    let directory = dir_prefix(alloc, path.as_str())?;
    let found = kept.recall_one(alloc, config, clock, &directory)?;
    Ok(found)
}
