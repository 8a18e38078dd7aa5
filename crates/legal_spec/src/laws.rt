//! The promises of legal histories, as clauses of a function that does nothing.
ghost use Rattle.legal_spec.specs.Promises as promises;

/// What holds of every legal history. Lanes that do their work one behind the other are merged. Each scripted call is done,
/// once, in the order of its lane, and no other, and none is under way. Each event of a lane that is covered by its done
/// calls is the own event of one. A call whose fixups name calls that are done has its frame, whatever is done later. What
/// is printed has a reply frame for each call. A node is live exactly while the kernel holds look-ups of it. Where no two
/// calls under way had claims that conflict, a READ that is answered bytes is answered those of its file's content; a flush
/// of staged content makes one new generation where the one that its file shows is live, and else nothing; and an OPEN sees
/// that the generation which its file shows is live, where records of objects serve for no time. A history with one lane
/// of calls at a time, and without failures, agrees with a run of the one-thread mount.
pub fn legal_laws()
    ensures merged { promises.LanesInOrder }
    ensures calls { promises.CallsAreDone }
    ensures made { promises.CoveredIsMade }
    ensures frames { promises.FramesStay }
    ensures played { promises.HistoriesArePlayed }
    ensures nodes { promises.LiveNodes }
    ensures reads { promises.ContentOfReads }
    ensures flushes { promises.GuardedFlush }
    ensures opens { promises.FreshOpen }
    ensures agrees { promises.OneLaneAgrees }
{}
