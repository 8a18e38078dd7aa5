//! What records tell to a call at its take, in place of looks into the bucket.
ghost use Rattle.std.specs.Prelude.{◌≡◌, ℕ, Bool, List, None, is_some, if◌then◌else◌};
ghost use Rattle.bucket_api.specs.Operation.{operation};
ghost use Rattle.mount_kept.specs.Recalls.{answers_recalled, found_for, found_left};
ghost use Rattle.mount_rules.specs.Plans.{asked_by};
ghost use Rattle.mount_rules.specs.Requests.Lookup as lookup;
ghost use Rattle.mount_rules.specs.Requests.Lookup.{probed};
ghost use Rattle.thrift_spec.specs.Records.{answer_of};

use crate::lifetimes::ends_in_slash;
use bucket_api::{Answer, Op};
use record_spec::Shown;

/// What a record tells in place of a look.
#[derive(Drop)]
pub struct Recall {
    /// The moment of the log entry that showed it.
    pub moment: u64,
    /// What was shown.
    pub shown: Shown,
}

impl Recall {
    /// The moment, and the answer for which the record stands: `Meta` of an object, `NotFound` where there is nothing, and
    /// `Done` of a directory that was found by what lies in it. It takes no memory.
    pub fn into_answer(self) -> (u64, Answer)
        ensures moment { result.0 ≡ self.moment }
        ensures answer { result.1 ≡ answer_of self.shown }
    {
        let Recall { moment, shown } = self;
        (moment, answer_of(shown))
    }
}

/// The answer for which a record stands.
fn answer_of(shown: Shown) -> Answer
    ensures { result ≡ answer_of shown }
{
    match shown {
        Shown::Object(meta) => Answer::Meta(meta),
        Shown::Present => Answer::Done,
        Shown::Absent => Answer::NotFound,
    }
}

/// What a call found at its take of the keys for which it looks: a copy of what each record tells that lives.
#[derive(Drop)]
pub struct Found {
    /// Of a directory's path with its slash.
    pub probe: Option<Recall>,
    /// Of an object's path.
    pub stat: Option<Recall>,
}

impl Found {
    /// Nothing is found. It takes no memory.
    pub fn nothing() -> Found
        ensures probe { result.probe ≡ None }
        ensures stat { result.stat ≡ None }
    {
        Found {
            probe: None,
            stat: None,
        }
    }

    /// Takes what was found of the key at which an operation looks. It takes no memory.
    pub fn take(&mut self, op: &Op) -> Option<Recall>
        ensures ok { result ≡ found_for self.old (operation op.now) }
        ensures kept { self.new ≡ found_left self.old (operation op.now) }
    {
        match op {
            Op::List {
                slash,
                max,
                after,
                ..
            } if !*slash && *max == 1 && after.is_none() => self.probe.take(),
            Op::Stat { name } if ends_in_slash(name.as_str().as_bytes()) => self.probe.take(),
            Op::Stat { .. } => self.stat.take(),
            _ => None,
        }
    }
}

/// Whether a LOOKUP asks for the object too, once its directory was recalled so: where no record told of that, where the
/// suffix means the file that the directory hides, or where there is no directory and no suffix.
pub(crate) fn asks_for_object(probe: &Option<Recall>, suffixed: bool) -> bool
    ensures { (implicit : Bool) (path : List ℕ) → result ≡ is_some (asked_by (lookup.plan implicit path suffixed (answers_recalled probe.now))) }
{
    match probe {
        Some(recall) => is_there(&recall.shown) == suffixed,
        None => true,
    }
}

/// Whether something was shown.
fn is_there(shown: &Shown) -> bool
    ensures { probed (answer_of shown.now) ≡ (if result then lookup.present else lookup.absent) }
{
    match shown {
        Shown::Absent => false,
        Shown::Present | Shown::Object(_) => true,
    }
}
