//! The laws of a mount that many calls share, as clauses of functions that do nothing.
ghost use Rattle.core_spec.specs.Laws as laws;
ghost use Rattle.core_spec.specs.TicketLaws as tickets;

use bucket_api::Bucket;

/// What holds of a mount over any bucket, whose calls are under way beside one another. The log that its pass has seen
/// explains its journal, and each event of its lanes is one of its calls'. No turns tell all of it before its first call.
/// What told all of it still does when the pass has seen more, and goes on by each take of a next call whose claims conflict
/// with none that is held, by each call that may end at once, by each end of a call whose ticket has nothing left to do,
/// whatever else happened meanwhile, and by each tick.
pub fn core_laws<B: Bucket>()
    ensures explains { laws.LogExplains B.Identity }
    ensures first { laws.FirstIsTold B.Identity }
    ensures looks { laws.LooksStay B.Identity }
    ensures looked { laws.LooksGoOn B.Identity }
    ensures takes { laws.TakesGoOn B.Identity }
    ensures both { laws.BothGoOn B.Identity }
    ensures ends { laws.EndsGoOn B.Identity }
    ensures ticks { laws.TicksGoOn B.Identity }
{}

/// What holds of two calls that were under way beside one another, with claims that don't conflict and cover what they asked:
/// neither saw by a stat what the other had changed.
pub fn beside_laws()
    ensures { laws.CallsAreUnseen }
{}

/// What holds of the ticket of a call over any bucket: it is under way from its take on; it stays so by what its pass sees of
/// others; it goes on by each operation that its plan allows next and that is thrifty, and by each look that a record serves which
/// was found at its take; it has nothing left to do where its plan may end, or where it may be short; and it is of the mount that
/// its take left, while no call of its lane is done.
pub fn ticket_laws<B: Bucket>()
    ensures begins { tickets.TicketsBegin B.Identity }
    ensures sees { tickets.TicketsSee B.Identity }
    ensures makes { tickets.TicketsMake B.Identity }
    ensures recalls { tickets.TicketsRecall B.Identity }
    ensures stops { tickets.TicketsStop B.Identity }
    ensures its { tickets.TicketsAreOf B.Identity }
    ensures stays { tickets.TicketsStayOf B.Identity }
{}
