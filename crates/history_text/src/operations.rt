//! The words of an operation, printed.
ghost use Rattle.std.specs.Prelude.{◌≡◌};
ghost use Rattle.bucket_api.specs.Operation.{operation, read, insert, update, delete, copy, list};
ghost use Rattle.history_text.specs.CodeWords.{word_text};
ghost use Rattle.history_text.specs.Lines.{depth_word, operation_words};
ghost use Rattle.history_text.specs.Putting.{Prints};
ghost use Rattle.history_text.specs.Words.{spaced};

use crate::printer::Printer;
use crate::word::{Word, after_word, name_word, only_word};
use bucket_api::{Op, Pair};
use io_ports::{Bytes, Failed, Row, Sink, Text};

/// The word of how a listing shows names.
fn depth_name<'a>(slash: bool) -> Word<'a>
    ensures { word_text result ≡ depth_word slash }
{
    if slash {
        return Word::Named(b"slash");
    }
    Word::Named(b"flat")
}

impl Printer {
    /// Prints the words of an operation.
    pub(crate) fn operation<W: Sink>(&mut self, sink: &mut W, op: &Op) -> Result<(), Failed>
        ensures puts { Prints (W.port sink.old) (W.port sink.new) self.old self.new (spaced (operation_words (operation op.now))) result }
    {
        match op {
            Op::Stat { name } => self.words(sink, &[Word::Named(b"stat"), name_word(name)]),
            Op::Read {
                name,
                generation,
                first,
                count,
            } => self.read(sink, name, *generation, *first, *count),
            Op::Insert {
                name,
                content,
                pairs,
                only,
                stamp,
            } => self.insert(sink, name, content, pairs, *only, *stamp),
            Op::Update {
                name,
                pairs,
                only,
                only_meta,
                stamp,
            } => self.update(sink, name, pairs, *only, *only_meta, *stamp),
            Op::Delete { name, only } => self.delete(sink, name, *only),
            Op::Copy {
                from,
                generation,
                to,
                stamp,
            } => self.copy(sink, from, *generation, to, *stamp),
            Op::List {
                prefix,
                slash,
                max,
                after,
            } => self.list(sink, prefix, *slash, *max, after),
        }
    }

    /// Prints the words of a read.
    fn read<W: Sink>(
        &mut self,
        sink: &mut W,
        name: &Text,
        generation: u64,
        first: u64,
        count: u64,
    ) -> Result<(), Failed>
        ensures puts { Prints (W.port sink.old) (W.port sink.new) self.old self.new (spaced (operation_words (read name.now generation first count))) result }
    {
        self.words(
            sink,
            &[
                Word::Named(b"read"),
                name_word(name),
                Word::Number(generation),
                Word::Number(first),
                Word::Number(count),
            ],
        )
    }

    /// Prints the words of an insert.
    fn insert<'x, W: Sink>(
        &mut self,
        sink: &mut W,
        name: &'x Text,
        content: &'x Bytes,
        pairs: &'x Row<Pair>,
        only: Option<u64>,
        stamp: u64,
    ) -> Result<(), Failed>
        ensures puts { Prints (W.port sink.old) (W.port sink.new) self.old self.new (spaced (operation_words (insert name.now content.now pairs.now.items only stamp))) result }
    {
        self.words(
            sink,
            &[
                Word::Named(b"insert"),
                name_word(name),
                only_word(only),
                Word::Number(stamp),
                Word::Pairs(pairs.as_slice()),
                Word::Content(content.as_slice()),
            ],
        )
    }

    /// Prints the words of an update.
    fn update<'x, W: Sink>(
        &mut self,
        sink: &mut W,
        name: &'x Text,
        pairs: &'x Row<Pair>,
        only: Option<u64>,
        only_meta: Option<u64>,
        stamp: u64,
    ) -> Result<(), Failed>
        ensures puts { Prints (W.port sink.old) (W.port sink.new) self.old self.new (spaced (operation_words (update name.now pairs.now.items only only_meta stamp))) result }
    {
        self.words(
            sink,
            &[
                Word::Named(b"update"),
                name_word(name),
                only_word(only),
                only_word(only_meta),
                Word::Number(stamp),
                Word::Pairs(pairs.as_slice()),
            ],
        )
    }

    /// Prints the words of a delete.
    fn delete<W: Sink>(
        &mut self,
        sink: &mut W,
        name: &Text,
        only: Option<u64>,
    ) -> Result<(), Failed>
        ensures puts { Prints (W.port sink.old) (W.port sink.new) self.old self.new (spaced (operation_words (delete name.now only))) result }
    {
        self.words(
            sink,
            &[Word::Named(b"delete"), name_word(name), only_word(only)],
        )
    }

    /// Prints the words of a copy.
    fn copy<'x, W: Sink>(
        &mut self,
        sink: &mut W,
        from: &'x Text,
        generation: u64,
        to: &'x Text,
        stamp: u64,
    ) -> Result<(), Failed>
        ensures puts { Prints (W.port sink.old) (W.port sink.new) self.old self.new (spaced (operation_words (copy from.now generation to.now stamp))) result }
    {
        self.words(
            sink,
            &[
                Word::Named(b"copy"),
                name_word(from),
                Word::Number(generation),
                name_word(to),
                Word::Number(stamp),
            ],
        )
    }

    /// Prints the words of a listing.
    fn list<'x, W: Sink>(
        &mut self,
        sink: &mut W,
        prefix: &'x Text,
        slash: bool,
        max: u64,
        after: &'x Option<Text>,
    ) -> Result<(), Failed>
        ensures puts { Prints (W.port sink.old) (W.port sink.new) self.old self.new (spaced (operation_words (list prefix.now slash max after.now))) result }
    {
        self.words(
            sink,
            &[
                Word::Named(b"list"),
                name_word(prefix),
                depth_name(slash),
                Word::Number(max),
                after_word(after),
            ],
        )
    }
}
