//! The mount on one thread.
ghost use Rattle.std.specs.Prelude.{◌≡◌, ◌^◌, false, None, IfOk, OnOk, OnErr};
ghost use Rattle.bucket_api.specs.BucketState.{IsWithin};
ghost use Rattle.fuse_replies.specs.Replies.{IsSendable, without_spare as reply_without_spare};
ghost use Rattle.fuse_requests.specs.Grammar.{without_spare};
ghost use Rattle.mount_core.specs.Serials.{first_serial, ServesOne};
ghost use Rattle.mount_laws.specs.Removals.{RmdirsEmpty};
ghost use Rattle.mount_laws.specs.Renames.{RenamesMove, RenamesStop};
ghost use Rattle.mount_model.specs.Configs.{IsConfig};
ghost use Rattle.mount_rules.specs.Dispatch.{early, is_full};
ghost use Rattle.mount_rules.specs.Laws.{CountsDecide, FlushesAreGuarded, NumbersRise, ReadsAreOfContent, ShortAreOutOfMemory, StagingIsBounded, WritesPatch};
ghost use Rattle.mount_rules.specs.Mount.{IsMount};
ghost use Rattle.mount_rules.specs.OneThread.{second_of};

use crate::carry::carry_out;
use crate::errand::Errand;
use crate::store::Store;
use bucket_plain::Plain;
use file_metadata::LAST_SECOND;
use fuse_replies::Reply;
use fuse_replies::errno::ENOMEM;
use fuse_requests::Request;
use io_ports::NoMemory;
use mount_model::Config;
use mount_state::Mount;
use std::alloc::Global;
use std::marker::Model;

/// A mount on one thread, over a bucket of its own: each request asks its bucket at once, and is done before the next
/// one. Contracts see its settings, what it holds and its bucket. It keeps no log of what it made of its bucket, so that
/// it can serve for long: contracts speak of every log that leaves the bucket as it is.
#[derive(Drop)]
pub struct Serial {
    config: Config,
    mount: Mount,
    pub(crate) store: Store,
}

impl Model for Serial {
    ghost use Rattle.mount_core.specs.Codes.{serial_code};
    ghost use Rattle.mount_core.specs.Serials.{SerialState, IsSerial};

    ghost Value = { SerialState };

    ghost coded = { serial_code };

    ghost view = { λ s. record { config = s.config; mount = s.mount.mount; store = s.store } };

    ghost invariant = { λ s. IsSerial s.config s.mount s.store };
}

impl Serial {
    /// A mount before its first request, over this bucket, whose generations and metagenerations are at most 2^62. It takes
    /// the memory of all blocks for staged contents at once. `NoMemory` where memory for these or for the root was refused;
    /// then the bucket is dropped.
    pub fn new(alloc: Global, config: &Config, bucket: Plain) -> Result<Serial, NoMemory>
        requires config { IsConfig config.now }
        requires within { IsWithin (2 ^ 62) bucket }
        ensures ok { IfOk result (λ serial. serial ≡ first_serial config.now bucket) }
        // What any list of calls then comes to: a node is live while the kernel holds look-ups of it, numbers are given
        // once, and the calls answered ENOMEM are those that stopped short; bytes that are read are those of the file's
        // content, bytes that are written stand in it, staged contents never touch more blocks than there are, and a
        // flush makes one new generation of what is staged only where the one that the file shows is live. A RENAME moves
        // its object, whole, or leaves the bucket as it was, and where it stops short at most its copy stands beside the
        // object; an RMDIR removes a directory that is empty.
        ensures counts { OnOk result CountsDecide }
        ensures numbers { OnOk result NumbersRise }
        ensures short { OnOk result ShortAreOutOfMemory }
        ensures reads { OnOk result ReadsAreOfContent }
        ensures writes { OnOk result WritesPatch }
        ensures bounded { OnOk result StagingIsBounded }
        ensures flushes { OnOk result FlushesAreGuarded }
        ensures renames { OnOk result RenamesMove }
        ensures stops { OnOk result RenamesStop }
        ensures removals { OnOk result RmdirsEmpty }
    {
        Ok(Serial {
            config: *config,
            mount: Mount::new(alloc, config)?,
            store: Store::new(bucket),
        })
    }

    /// Performs a request, as the mount on one thread does. `NoMemory` where memory for what the request may want at its
    /// end was refused; it leaves all as it was. Where memory is refused later, the request is answered ENOMEM, and has
    /// made nothing but look-ups, copies and lists. One that wants bytes of a generation which is live no more is answered
    /// ESTALE.
    pub fn call(&mut self, alloc: Global, request: Request) -> Result<Reply, NoMemory>
        ensures ok { IfOk result (λ reply. ServesOne self.old (without_spare request) (reply_without_spare reply) self.new) }
        ensures sendable { IfOk result (λ reply. IsSendable (reply_without_spare reply)) }
        ensures config { self.new.config ≡ self.old.config }
        ensures err { OnErr result (self.new ≡ self.old) }
    {
        match self.mount.early(&request) {
            Some(errno) => Ok(Reply::Error(errno)),
            None => self.perform(alloc, &request),
        }
    }

    /// The bucket as it stands.
    pub fn bucket(&self) -> &Plain
        ensures { result.now ≡ self.now.store.bucket }
    {
        self.store.bucket()
    }

    /// Performs a request that isn't refused.
    fn perform(&mut self, alloc: Global, request: &Request) -> Result<Reply, NoMemory>
        requires valid { IsMount self.old.mount }
        requires free { early self.old.mount (without_spare request.now) ≡ None }
        requires fits { is_full self.old.config self.old.mount (without_spare request.now) ≡ false }
        ensures ok { IfOk result (λ reply. ServesOne self.old (without_spare request.now) (reply_without_spare reply) self.new) }
        ensures sendable { IfOk result (λ reply. IsSendable (reply_without_spare reply)) }
        ensures config { self.new.config ≡ self.old.config }
        ensures err { OnErr result (self.new ≡ self.old) }
    {
        let second = self.second();
        let implicit = self.config.implicit_dirs;
        let errand = Errand::of(alloc, &self.config, &self.mount, second, request)?;
        let mut spare = self.mount.prepare(alloc, request)?;
        match carry_out(alloc, errand, second, implicit, &mut self.store, &mut spare) {
            Ok((told, base)) => Ok(self.mount.finish(second, request, spare, told, base)),
            Err(NoMemory) => {
                self.mount.forgo(spare);
                Ok(Reply::Error(ENOMEM))
            }
        }
    }

    /// The second of a call, which stamps what it makes. The clock stands still.
    fn second(&self) -> u64
        ensures { result ≡ second_of self.now.config }
    {
        self.config.start.min(LAST_SECOND)
    }
}
