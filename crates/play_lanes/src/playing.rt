//! A whole scenario is played.
ghost use Rattle.std.specs.Prelude.{IfOk, OnOk};
ghost use Rattle.history_text.specs.HistoryText.{IsPlayed};
ghost use Rattle.legal_spec.specs.Promises.{ContentOfReads, FreshOpen, GuardedFlush, LiveNodes, OneLaneAgrees};
ghost use Rattle.play_lanes.specs.Histories.{IsHistory};
ghost use Rattle.scenario.specs.Lawful.{IsLawful};

use crate::player::Player;
use history_text::Played;
use io_ports::NoMemory;
use scenario::Scenario;
use std::alloc::Global;

/// Plays a scenario from its first phase to its last, the lanes of a phase one after the other, on a mount over its bucket,
/// with its faults. What was played has a reply for each call, the bucket as it is then, all operations that were made of it,
/// and the mount's journal.
///
/// `NoMemory` where memory for the mount, for a call's frame, entries or reply, or for an operation was refused. A call to
/// which memory is refused on its way is answered ENOMEM, and the play goes on.
pub fn play(alloc: Global, scenario: &Scenario) -> Result<Played, NoMemory>
    requires lawful { IsLawful scenario.now }
    ensures ok { IfOk result (λ played. IsHistory scenario.now played) }
    ensures played { IfOk result (λ played. IsPlayed played) }
    // What each such history promises: a node is live while the kernel holds look-ups of it; bytes that are read are those
    // of their file's content; a flush makes one new generation of what is staged only where the one that the file shows is
    // live; an OPEN sees that one live, where no records serve; and one lane alone, to which nothing fails, is answered
    // as by a mount on one thread.
    ensures nodes { OnOk result LiveNodes }
    ensures reads { OnOk result ContentOfReads }
    ensures flushes { OnOk result GuardedFlush }
    ensures opens { OnOk result FreshOpen }
    ensures agrees { OnOk result OneLaneAgrees }
{
    let mut player = Player::new(alloc, scenario)?;
    for phase in scenario.phases.as_slice() {
        player.phase(alloc, phase)?;
    }
    Ok(player.finish())
}
