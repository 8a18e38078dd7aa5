//! The laws, as clauses of three functions that do nothing.
ghost use Rattle.mount_laws.specs.Flushes.{FlushesOwn, FlushesProtect};
ghost use Rattle.mount_laws.specs.Listings.{PagesAreFull};
ghost use Rattle.mount_laws.specs.Observations.{AnswersTell, ReadsArePassedOver, UnreadIsRefused, WantedMayBeRead};
ghost use Rattle.mount_laws.specs.Parents.{ParentsAreClaimed, ParentsProtect};
ghost use Rattle.mount_laws.specs.Removals.{RmdirsEmpty};
ghost use Rattle.mount_laws.specs.Renames.{RenamesMove, RenamesProtect, RenamesStop};
ghost use Rattle.mount_rules.specs.Laws as laws;
ghost use Rattle.mount_rules.specs.Overlap.{OpenCallsSee};

/// What holds of every request at every mount: a mount stays one; what a call leaves to calls whose claims don't conflict
/// with its own; that a call with claims of its own sees the same meanwhile, one on names by its claim on their directory
/// alone, a FLUSH by those on its node and its name, and a RENAME by those on its directories, its old name and the current
/// node of that; that its claims cover what it asks; that it is never answered
/// ENOMEM where it is performed to its end; that nothing it made is an insert, an update or a delete while it still asks;
/// how much it asks at most; that what it wants of a source lies in a file that is there, and may be read before anything
/// else, where a read that is given bytes is passed over, and one that is given none ends it; that what it comes to is told
/// by its answers and the last moment alone; that one which is answered an error changes nothing that is staged; and that a
/// WRITE without enough blocks is answered ENOSPC, and leaves the mount as it was.
pub fn request_laws()
    ensures mounts { laws.StaysMount }
    ensures leaves { laws.LeavesOthers }
    ensures claims { laws.ClaimsProtect }
    ensures parents { ParentsProtect }
    ensures claimed { ParentsAreClaimed }
    ensures flushes { FlushesProtect }
    ensures owned { FlushesOwn }
    ensures renames { RenamesProtect }
    ensures covers { laws.ClaimsCover }
    ensures memory { laws.NeverOutOfMemory }
    ensures harmless { laws.HarmlessWhileAsking }
    ensures bounded { laws.AsksAtMost }
    ensures reads { laws.MayReadWanted }
    ensures sources { laws.WantsOfFiles }
    ensures allowed { WantedMayBeRead }
    ensures passed { ReadsArePassedOver }
    ensures unread { UnreadIsRefused }
    ensures told { AnswersTell }
    ensures refused { laws.RefusedKeepsStaged }
    ensures full { laws.FullIsRefused }
{}

/// What holds while calls are under way beside one another, taken and done in any order, where no two of them have
/// conflicting claims: each sees what it saw at its take.
pub fn overlap_laws()
    ensures { OpenCallsSee }
{}

/// What holds along any run on one thread: a node is live while the kernel holds look-ups of it, numbers are given once,
/// the calls answered ENOMEM are those that stopped short, and a listing asks at most one page more than its keys fill. Each
/// generation that a file shows was live, with content of the file's size, which is at most what a content may have; what is
/// staged of a file stands over that content, in no more blocks than there are. A READ that is answered bytes is answered
/// those of its file's content, a WRITE that is answered so many has written its bytes into it, and a flush of it makes one
/// generation with it where the one that the file shows is live, and else nothing. A RENAME moves its object, whole, or
/// leaves the bucket as it was; one that stops short leaves at most its copy. An RMDIR removes a directory that is empty.
pub fn run_laws()
    ensures counts { laws.CountsDecide }
    ensures numbers { laws.NumbersRise }
    ensures short { laws.ShortAreOutOfMemory }
    ensures content { laws.FilesKeepContent }
    ensures limits { laws.ContentsAreShort }
    ensures staged { laws.StagedStayOver }
    ensures reads { laws.ReadsAreOfContent }
    ensures writes { laws.WritesPatch }
    ensures bounded { laws.StagingIsBounded }
    ensures flushes { laws.FlushesAreGuarded }
    ensures renames { RenamesMove }
    ensures stops { RenamesStop }
    ensures removals { RmdirsEmpty }
    ensures pages { PagesAreFull }
{}
