//! The laws of what a mount keeps, as clauses of functions that do nothing.
ghost use Rattle.thrift_spec.specs.Laws as laws;

/// What holds of the record list along every account: a record that lives in it at a take, of a key for which the call
/// looks, may serve the call; and it is no newer than what the list knows of its key at any later turn.
pub fn thrift_laws()
    ensures serve { laws.RecordsServe }
    ensures known { laws.FoundStaysKnown }
{}

/// What holds of all that is kept along an account: a longer log leaves it as it was, and thrift too; what a call that is
/// added leaves, and that thrift goes on with a thrifty end; that kept files have the contents of their generations; and
/// that a call which is taken knows that content of them.
pub fn keeping_laws()
    ensures longer { laws.LogLeavesKept }
    ensures call { laws.CallIsKept }
    ensures contents { laws.ContentsAreKept }
    ensures taken { laws.KeptIsKnown }
{}

/// What a record tells in place of a look: a look that the log tells of, with what it showed; the walk goes on by it; one
/// operation looks a key up; a stat is told its answer itself; and a probe is told whether the directory is there, which
/// is all that LOOKUP and RENAME go by.
pub fn recall_laws()
    ensures tells { laws.RecordsTellLog }
    ensures walks { laws.WalkRecalls }
    ensures one { laws.LooksAreOne }
    ensures stats { laws.StatsAreTold }
    ensures probes { laws.ProbesAreTold }
    ensures stands { laws.ProbesStand }
{}
