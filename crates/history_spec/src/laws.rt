//! The laws of accounts and journals, as clauses of a function that does nothing.
ghost use Rattle.history_spec.specs.Laws as laws;

/// What holds of every account of a mount, and of every journal that the log of its bucket explains: it goes on by each
/// turn that may follow, and by a call taken at the end of the log and done at the end of a longer one; a longer log has the
/// same account, which comes to the same; a beginning needs no more of the log than the mount had seen by then; what a take
/// knows of contents the whole log says too; and a journal and a log have one account, so one reply for each call.
pub fn history_laws()
    ensures added { laws.EntryIsAdded }
    ensures called { laws.CallIsAdded }
    ensures grows { laws.LogGrows }
    ensures stays { laws.JournalStays }
    ensures cut { laws.AccountIsCut }
    ensures begun { laws.JournalIsCut }
    ensures contents { laws.ContentsStay }
    ensures one { laws.AccountsAreOne }
{}

/// What holds of the lanes in which a mount takes calls: each has at most one call under way, its next one; what its calls
/// made stays all that it made, by each turn at which the mount has seen the whole log, and by each event of its call under
/// way; and then what a call sees by a stat of its own is settled, if no call beside it has changed the name, and so for all
/// calls once none is under way.
pub fn lane_laws()
    ensures turns { laws.LanesAreInTurn }
    ensures covers { laws.TurnKeepsCovered }
    ensures events { laws.EventKeepsCovered }
    ensures settled { laws.StatIsSettled }
    ensures last { laws.SettledAtLast }
{}

/// What holds of the walk of a call under way: it begins with no item, goes on by each event of its lane that its plan
/// allows, and stays by the events of other lanes.
pub fn walk_laws()
    ensures begins { laws.WalkBegins }
    ensures goes_on { laws.WalkGoesOn }
    ensures stays { laws.WalkStays }
{}

/// What holds of calls whose claims stand apart along an account: they happen as the law of claims of `mount_laws` asks, so
/// each call under way sees what it saw at its take; and a call that does asks what it asked then.
pub fn claim_laws()
    ensures happen { laws.AccountsHappen }
    ensures plans { laws.PlansStay }
{}
