//! The promises of a mount along an account, as clauses of functions that do nothing.
ghost use Rattle.history_laws.specs.Agreements as agreements;
ghost use Rattle.history_laws.specs.Apart as apart;
ghost use Rattle.history_laws.specs.Flushes as flushes;
ghost use Rattle.history_laws.specs.Nodes as nodes;
ghost use Rattle.history_laws.specs.Opens as opens;
ghost use Rattle.history_laws.specs.Reads as reads;
ghost use Rattle.history_laws.specs.Records as records;

/// What a mount promises along any account of it. A node other than the root has the look-ups that were given of it and not
/// given back, so it is live exactly where that count is above 0. A READ that is answered bytes is answered those of its
/// file's content. A flush of staged content makes one new generation where the one that its file shows is live at its last
/// event, and else nothing. An OPEN has seen by a stat of its own that the generation which its file shows is live, and is
/// the newest by then. Where calls came one by one, over a log that they alone made without a failure, the one-thread mount
/// has a run with the same requests, the same replies and the same bucket at its end.
pub fn account_laws()
    ensures nodes { nodes.CountsDecide }
    ensures reads { reads.ReadsAreOfContent }
    ensures flushes { flushes.FlushesAreGuarded }
    ensures opens { opens.OpensAreFresh }
    ensures agrees { agreements.OneThreadAgrees }
{}

/// What holds of calls whose claims stand apart: each sees at its end what it saw at its take. Calls one at a time stand
/// apart, whatever they claim.
pub fn apart_laws()
    ensures sees { apart.EndsSeeAsTaken }
    ensures one { apart.OneByOneIsApart }
{}

/// What holds of records where calls come one by one, over a log that they alone made without a failure: a record that may
/// serve a look of a call shows what the bucket answers where the call is taken, so own writes leave no record standing.
pub fn record_laws()
    ensures shows { records.RecordsShowNow }
{}
