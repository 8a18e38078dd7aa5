//! The parts of a history, printed.
ghost use Rattle.std.specs.Prelude.{◌≡◌, length, map};
ghost use Rattle.mount_model.specs.Journal.{entries};
ghost use Rattle.history_text.specs.HistoryText.{text_of, reply_lines, object_lines, log_lines, journal_lines};
ghost use Rattle.history_text.specs.Lines.{object_line};
ghost use Rattle.history_text.specs.Putting.{Prints};

use crate::printer::Printer;
use bucket_api::{Event, Object};
use bucket_plain::Plain;
use io_ports::{Bytes, Failed, Sink, Text};
use mount_model::{CallId, JournalEntry};
use std::collections::BTreeMap;

impl Printer {
    /// Prints the lines of the replies.
    pub(crate) fn replies<W: Sink>(
        &mut self,
        sink: &mut W,
        calls: &[CallId],
        frames: &[Bytes],
    ) -> Result<(), Failed>
        requires { length frames.now ≡ length calls.now }
        ensures puts { Prints (W.port sink.old) (W.port sink.new) self.old self.new (text_of (reply_lines calls.now frames.now)) result }
    {
        for (index, call) in calls.iter().enumerate() {
            let frame = &frames[index];
            self.reply(sink, *call, frame.as_slice())?;
        }
        Ok(())
    }

    /// Prints the lines of the live objects.
    pub(crate) fn bucket<W: Sink>(&mut self, sink: &mut W, bucket: &Plain) -> Result<(), Failed>
        ensures puts { Prints (W.port sink.old) (W.port sink.new) self.old self.new (text_of (object_lines bucket.now)) result }
    {
        self.objects(sink, bucket.objects())
    }

    /// Prints the lines of objects, by their names.
    fn objects<W: Sink>(
        &mut self,
        sink: &mut W,
        objects: &BTreeMap<Text, Object>,
    ) -> Result<(), Failed>
        ensures puts { Prints (W.port sink.old) (W.port sink.new) self.old self.new (text_of (map (λ e. object_line e.0 e.1) objects.now.entries)) result }
    {
        for (name, object) in objects {
            self.object(sink, name, object)?;
        }
        Ok(())
    }

    /// Prints the lines of the log.
    pub(crate) fn log<W: Sink>(&mut self, sink: &mut W, log: &[Event]) -> Result<(), Failed>
        ensures puts { Prints (W.port sink.old) (W.port sink.new) self.old self.new (text_of (log_lines 1 log.now)) result }
    {
        for (index, event) in log.iter().enumerate() {
            self.event(sink, index as u64 + 1, event)?;
        }
        Ok(())
    }

    /// Prints the lines of the journal.
    pub(crate) fn journal<W: Sink>(
        &mut self,
        sink: &mut W,
        journal: &[JournalEntry],
    ) -> Result<(), Failed>
        ensures puts { Prints (W.port sink.old) (W.port sink.new) self.old self.new (text_of (journal_lines (entries journal.now))) result }
    {
        for entry in journal {
            self.entry(sink, entry)?;
        }
        Ok(())
    }
}
