//! The lines of a history, printed.
ghost use Rattle.std.specs.Prelude.{◌≡◌, ◌++◌, ◌∷◌, map};
ghost use Rattle.bucket_api.specs.Operation.{operation};
ghost use Rattle.mount_model.specs.Journal.{entry, done};
ghost use Rattle.history_text.specs.CodeWords.{word_text};
ghost use Rattle.history_text.specs.Lines.{reply_line, object_line, mode_word, event_line, how_word, fill_words, entry_line};
ghost use Rattle.history_text.specs.Putting.{Prints};
ghost use Rattle.history_text.specs.Words.{line, spaced, use_word};

use crate::printer::Printer;
use crate::word::{Word, frame_word, name_word};
use bucket_api::{Event, Mode, Object, Op};
use io_ports::{Failed, Sink, Text};
use mount_model::{CallId, Fill, How, JournalEntry, Use};

/// The word of what became of an operation.
fn mode_name<'a>(mode: Mode) -> Word<'a>
    ensures { word_text result ≡ mode_word mode }
{
    match mode {
        Mode::Done => Word::Named(b"done"),
        Mode::Failed => Word::Named(b"failed"),
        Mode::Lost => Word::Named(b"lost"),
    }
}

/// The word of how a call ended.
fn how_name<'a>(how: How) -> Word<'a>
    ensures { word_text result ≡ how_word how }
{
    match how {
        How::Ok => Word::Named(b"ok"),
        How::NoMemory => Word::Named(b"nomemory"),
    }
}

impl Printer {
    /// Prints the line of a reply.
    pub(crate) fn reply<W: Sink>(
        &mut self,
        sink: &mut W,
        call: CallId,
        frame: &[u8],
    ) -> Result<(), Failed>
        ensures puts { Prints (W.port sink.old) (W.port sink.new) self.old self.new (line (reply_line call frame.now)) result }
    {
        self.line(sink, b"reply", &[Word::Call(call), frame_word(frame)])
    }

    /// Prints the line of a live object.
    pub(crate) fn object<'x, W: Sink>(
        &mut self,
        sink: &mut W,
        name: &'x Text,
        object: &'x Object,
    ) -> Result<(), Failed>
        ensures puts { Prints (W.port sink.old) (W.port sink.new) self.old self.new (line (object_line name.now object.now)) result }
    {
        let meta = &object.meta;
        self.line(
            sink,
            b"object",
            &[
                name_word(name),
                Word::Number(meta.generation),
                Word::Number(meta.metageneration),
                Word::Number(meta.updated),
                Word::Number(meta.size),
                Word::Content(object.content.as_slice()),
                Word::Pairs(meta.pairs.as_slice()),
            ],
        )
    }

    /// Prints the line of an event at its moment.
    pub(crate) fn event<W: Sink>(
        &mut self,
        sink: &mut W,
        moment: u64,
        event: &Event,
    ) -> Result<(), Failed>
        ensures puts { Prints (W.port sink.old) (W.port sink.new) self.old self.new (line (event_line moment event.now)) result }
    {
        self.made(sink, moment, event.lane, event.mode, &event.op)
    }

    /// Prints the line of an operation that was made.
    fn made<W: Sink>(
        &mut self,
        sink: &mut W,
        moment: u64,
        lane: u64,
        mode: Mode,
        op: &Op,
    ) -> Result<(), Failed>
        ensures puts { Prints (W.port sink.old) (W.port sink.new) self.old self.new (line (event_line moment (record { lane = lane; op = operation op.now; mode = mode }))) result }
    {
        let outcome = mode_name(mode);
        self.text(sink, b"log")?;
        self.words(sink, &[Word::Number(moment), Word::Number(lane), outcome])?;
        self.operation(sink, op)?;
        self.text(sink, b"\n")
    }

    /// Prints the line of an entry of the journal.
    pub(crate) fn entry<W: Sink>(&mut self, sink: &mut W, made: &JournalEntry) -> Result<(), Failed>
        ensures puts { Prints (W.port sink.old) (W.port sink.new) self.old self.new (line (entry_line (entry made.now))) result }
    {
        match made {
            JournalEntry::Take { call, front, .. } => {
                self.line(sink, b"take", &[Word::Call(*call), Word::Number(*front)])
            }
            JournalEntry::Done {
                call,
                front,
                how,
                uses,
                fill,
            } => self.finished(sink, *call, *front, *how, uses.as_slice(), *fill),
            JournalEntry::Tick { front, seconds } => {
                self.line(
                    sink,
                    b"tick",
                    &[Word::Number(*front), Word::Number(*seconds)],
                )
            }
        }
    }

    /// Prints the line of a call that was done.
    fn finished<W: Sink>(
        &mut self,
        sink: &mut W,
        call: CallId,
        front: u64,
        how: How,
        uses: &[Use],
        fill: Fill,
    ) -> Result<(), Failed>
        ensures puts { Prints (W.port sink.old) (W.port sink.new) self.old self.new (line (entry_line (done call front how uses.now fill))) result }
    {
        let ending = how_name(how);
        self.text(sink, b"done")?;
        self.words(sink, &[Word::Call(call), Word::Number(front), ending])?;
        self.uses(sink, uses)?;
        self.fill(sink, fill)?;
        self.text(sink, b"\n")
    }

    /// Prints the words of uses.
    fn uses<W: Sink>(&mut self, sink: &mut W, uses: &[Use]) -> Result<(), Failed>
        ensures puts { Prints (W.port sink.old) (W.port sink.new) self.old self.new (spaced (map use_word uses.now)) result }
    {
        for learned in uses {
            self.next_word(sink, &Word::Learned(*learned))?;
        }
        Ok(())
    }

    /// Prints the word of a fill, where there was one.
    fn fill<W: Sink>(&mut self, sink: &mut W, fill: Fill) -> Result<(), Failed>
        ensures puts { Prints (W.port sink.old) (W.port sink.new) self.old self.new (spaced (fill_words fill)) result }
    {
        match fill {
            Fill::Nothing => self.words(sink, &[]),
            Fill::Kept => self.words(sink, &[Word::Named(b"fk")]),
            Fill::NoMemory => self.words(sink, &[Word::Named(b"fn")]),
        }
    }
}
