//! The words of a line, printed.
ghost use Rattle.std.specs.Prelude.{◌≡◌, ◌++◌, ◌∷◌, map, codes, if◌then◌else◌};
ghost use Rattle.std.specs.Fmt.{decimal};
ghost use Rattle.std.specs.List.{flat_map};
ghost use Rattle.hex.specs.Hex.{encode_lower};
ghost use Rattle.history_text.specs.CodeWords.{word_text};
ghost use Rattle.history_text.specs.Putting.{Prints};
ghost use Rattle.history_text.specs.Words.{line, spaced, bytes_word, pair_text, pairs_word, only_word, after_word, frame_word, call_word, use_word};

use crate::printer::Printer;
use bucket_api::Pair;
use io_ports::{Failed, Sink, Text};
use mount_model::{CallId, Use};

/// A word of a line, before it is printed.
#[derive(Clone, Copy)]
pub(crate) enum Word<'a> {
    /// These letters.
    Named(&'a [u8]),
    /// A number, decimal.
    Number(u64),
    /// The digits of these bytes.
    Content(&'a [u8]),
    /// The pairs of an object or an operation.
    Pairs(&'a [Pair]),
    /// A lane and an index.
    Call(CallId),
    /// Where a call learned what a name shows.
    Learned(Use),
}

/// The word of a name, a path or a prefix.
pub(crate) fn name_word(name: &Text) -> Word<'_>
    ensures { word_text result ≡ bytes_word name.now }
{
    Word::Content(name.as_str().as_bytes())
}

/// The word of a precondition.
pub(crate) fn only_word<'a>(only: Option<u64>) -> Word<'a>
    ensures { word_text result ≡ only_word only }
{
    match only {
        Some(number) => Word::Number(number),
        None => Word::Named(b"*"),
    }
}

/// The word of the key after which a page begins.
pub(crate) fn after_word(after: &Option<Text>) -> Word<'_>
    ensures { word_text result ≡ after_word after.now }
{
    match after {
        Some(key) => name_word(key),
        None => Word::Named(b"-"),
    }
}

/// The word of a reply frame.
pub(crate) fn frame_word(frame: &[u8]) -> Word<'_>
    ensures { word_text result ≡ frame_word frame.now }
{
    if frame.is_empty() {
        return Word::Named(b"none");
    }
    Word::Content(frame)
}

impl Printer {
    /// Prints a line of these words, the first of them a name.
    pub(crate) fn line<W: Sink>(
        &mut self,
        sink: &mut W,
        first: &[u8],
        words: &[Word<'_>],
    ) -> Result<(), Failed>
        ensures puts { Prints (W.port sink.old) (W.port sink.new) self.old self.new (line (first.now ∷ map word_text words.now)) result }
    {
        self.text(sink, first)?;
        self.words(sink, words)?;
        self.text(sink, b"\n")
    }

    /// Prints words, each behind a space.
    pub(crate) fn words<W: Sink>(&mut self, sink: &mut W, words: &[Word<'_>]) -> Result<(), Failed>
        ensures puts { Prints (W.port sink.old) (W.port sink.new) self.old self.new (spaced (map word_text words.now)) result }
    {
        for word in words {
            self.next_word(sink, word)?;
        }
        Ok(())
    }

    /// Prints a word behind a space.
    pub(crate) fn next_word<W: Sink>(&mut self, sink: &mut W, word: &Word<'_>) -> Result<(), Failed>
        ensures puts { Prints (W.port sink.old) (W.port sink.new) self.old self.new (codes " " ++ word_text word.now) result }
    {
        self.text(sink, b" ")?;
        self.word(sink, word)
    }

    /// Prints a word.
    fn word<W: Sink>(&mut self, sink: &mut W, word: &Word<'_>) -> Result<(), Failed>
        ensures puts { Prints (W.port sink.old) (W.port sink.new) self.old self.new (word_text word.now) result }
    {
        match word {
            Word::Named(name) => self.text(sink, name),
            Word::Number(number) => self.number(sink, *number),
            Word::Content(bytes) => self.content(sink, bytes),
            Word::Pairs(pairs) => self.pairs(sink, pairs),
            Word::Call(call) => self.call(sink, *call),
            Word::Learned(learned) => self.learned(sink, *learned),
        }
    }

    /// Prints bytes as their digits, or a dash where there are none.
    fn content<W: Sink>(&mut self, sink: &mut W, bytes: &[u8]) -> Result<(), Failed>
        ensures puts { Prints (W.port sink.old) (W.port sink.new) self.old self.new (bytes_word bytes.now) result }
    {
        if bytes.is_empty() {
            return self.text(sink, b"-");
        }
        self.hex(sink, bytes)
    }

    /// Prints a call's lane and index.
    fn call<W: Sink>(&mut self, sink: &mut W, call: CallId) -> Result<(), Failed>
        ensures puts { Prints (W.port sink.old) (W.port sink.new) self.old self.new (call_word call) result }
    {
        self.number(sink, call.lane)?;
        self.text(sink, b".")?;
        self.number(sink, call.index)
    }

    /// Prints a use.
    fn learned<W: Sink>(&mut self, sink: &mut W, learned: Use) -> Result<(), Failed>
        ensures puts { Prints (W.port sink.old) (W.port sink.new) self.old self.new (use_word learned) result }
    {
        if learned.own {
            return self.own_use(sink, learned.moment, learned.kept);
        }
        self.text(sink, b"r")?;
        self.number(sink, learned.moment)
    }

    /// Prints a use of the call's own operation.
    fn own_use<W: Sink>(&mut self, sink: &mut W, moment: u64, kept: bool) -> Result<(), Failed>
        ensures puts { Prints (W.port sink.old) (W.port sink.new) self.old self.new (codes "o" ++ decimal moment ++ (if kept then codes "k" else codes "d")) result }
    {
        self.text(sink, b"o")?;
        self.number(sink, moment)?;
        self.text(sink, kept_letter(kept))
    }

    /// Prints pairs, or a dash where there are none.
    fn pairs<W: Sink>(&mut self, sink: &mut W, pairs: &[Pair]) -> Result<(), Failed>
        ensures puts { Prints (W.port sink.old) (W.port sink.new) self.old self.new (pairs_word pairs.now) result }
    {
        let Some((first, later)) = pairs.split_first() else {
            return self.text(sink, b"-");
        };
        self.pair(sink, first)?;
        self.later_pairs(sink, later)
    }

    /// Prints pairs, each behind a comma.
    fn later_pairs<W: Sink>(&mut self, sink: &mut W, pairs: &[Pair]) -> Result<(), Failed>
        ensures puts { Prints (W.port sink.old) (W.port sink.new) self.old self.new (flat_map (λ p. codes "," ++ pair_text p) pairs.now) result }
    {
        for pair in pairs {
            self.next_pair(sink, pair)?;
        }
        Ok(())
    }

    /// Prints a pair behind a comma.
    fn next_pair<W: Sink>(&mut self, sink: &mut W, pair: &Pair) -> Result<(), Failed>
        ensures puts { Prints (W.port sink.old) (W.port sink.new) self.old self.new (codes "," ++ pair_text pair.now) result }
    {
        self.text(sink, b",")?;
        self.pair(sink, pair)
    }

    /// Prints a pair.
    fn pair<W: Sink>(&mut self, sink: &mut W, pair: &Pair) -> Result<(), Failed>
        ensures puts { Prints (W.port sink.old) (W.port sink.new) self.old self.new (pair_text pair.now) result }
    {
        self.digits(sink, &pair.key)?;
        self.text(sink, b"=")?;
        self.digits(sink, &pair.value)
    }

    /// Prints the digits of a text.
    fn digits<W: Sink>(&mut self, sink: &mut W, text: &Text) -> Result<(), Failed>
        ensures puts { Prints (W.port sink.old) (W.port sink.new) self.old self.new (encode_lower text.now) result }
    {
        self.hex(sink, text.as_str().as_bytes())
    }
}

/// The letter that says whether a record of the call's own operation was kept.
fn kept_letter(kept: bool) -> &'static [u8]
    ensures { result.now ≡ (if kept then codes "k" else codes "d") }
{
    if kept { b"k" } else { b"d" }
}
