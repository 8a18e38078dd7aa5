//! A whole history, printed.
ghost use Rattle.std.specs.Prelude.{◌≡◌, [], OnOk, OnErr};
ghost use Rattle.std.specs.Io.KnownBytes.{Appends};
ghost use Rattle.io_ports.specs.Faults.{Rose};
ghost use Rattle.io_ports.specs.Streams.{AppendsPrefix};
ghost use Rattle.history_text.specs.HistoryText.{IsLineByLine, IsPlayed, history_text};
ghost use Rattle.history_text.specs.Putting.{Prints};

use crate::played::Played;
use crate::printer::Printer;
use io_ports::{Failed, Sink};
use std::alloc::Global;

/// Why a history was not written whole.
#[derive(Clone, Copy, Debug, PartialEq, Eq)]
pub enum WriteFault {
    /// Memory for the text that waits was refused. Nothing was put.
    NoMemory,
    /// The sink failed. It has a prefix of the text.
    Failed,
}

/// Puts the text of the history into the sink: a line for each reply, by lane and then by index; one for each live
/// object, by name; one for each event of the log, one for each entry of the journal; and `end`. The sink is called for
/// at most 65,536 bytes at a time, and no more of the text is in memory.
///
/// `NoMemory` where memory for a piece of the text was refused; nothing was put then. `Failed` where the sink failed,
/// which has a prefix of the text.
pub fn write<W: Sink>(alloc: Global, sink: &mut W, played: &Played) -> Result<(), WriteFault>
    requires { IsPlayed played.now }
    ensures ok { OnOk result (Appends (W.port sink.old).bytes (W.port sink.new).bytes (history_text played.now) × ((W.port sink.new).faults ≡ (W.port sink.old).faults)) }
    ensures err { OnErr result (AppendsPrefix (W.port sink.old).bytes (W.port sink.new).bytes (history_text played.now)) }
    ensures kept { result ≡ Err WriteFault.NoMemory → W.port sink.new ≡ W.port sink.old }
    ensures failed { result ≡ Err WriteFault.Failed → Rose (W.port sink.old).faults (W.port sink.new).faults }
    ensures lines { IsLineByLine }
{
    let Ok(mut printer) = Printer::new(alloc) else {
        return Err(WriteFault::NoMemory);
    };
    match printer.history(sink, played) {
        Ok(()) => Ok(()),
        Err(Failed) => Err(WriteFault::Failed),
    }
}

impl Printer {
    /// Prints the whole text, so that none waits.
    fn history<W: Sink>(&mut self, sink: &mut W, played: &Played) -> Result<(), Failed>
        requires { IsPlayed played.now }
        ensures puts { Prints (W.port sink.old) (W.port sink.new) self.old self.new (history_text played.now) result }
        ensures ok { OnOk result (self.new ≡ []) }
    {
        self.replies(sink, played.calls.as_slice(), played.replies.as_slice())?;
        self.bucket(sink, &played.bucket)?;
        self.log(sink, played.log.as_slice())?;
        self.journal(sink, played.journal.as_slice())?;
        self.line(sink, b"end", &[])?;
        self.flush(sink)
    }
}
