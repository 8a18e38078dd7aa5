//! Tests of what is kept: answers that records give until they end, directories and writes, uses, and bytes of a kept file.
ghost use Rattle.std.specs.Prelude.{◌≡◌, ◌+◌, ◌≤◌, [], length};
ghost use Rattle.cache_spec.specs.KeptFiles.{blocks_of};
ghost use Rattle.mount_model.specs.Configs.{IsConfig};

use crate::{Draft, Found, Kept, Note, Notes, Recall, copy_shown};
use bucket_api::{Answer, Meta, Op, Page};
use file_cache::FileKey;
use io_ports::{Bytes, NoMemory, Row, Text};
use mount_model::{Config, Fill, Use};
use record_spec::Shown;
use std::alloc::Global;
use std::process::Abort;
use std::test::Fail;

/// Settings with records that serve for ten seconds.
fn config() -> Config
    ensures { IsConfig result }
{
    let mut config = Config::new();
    config.stat_lifetime = 10;
    config.type_lifetime = 10;
    config
}

/// An operation on a name, and what it is answered.
#[derive(Clone, Copy)]
enum Made {
    /// A stat, answered with an object of so many bytes.
    Object(u64),
    /// A stat of a name that no object has.
    Missing,
    /// A list of one name, answered with an object of no bytes.
    Probe,
    /// A delete.
    Deleted,
}

/// What is asked of a name.
fn op(alloc: Global, name: &str, made: Made) -> Result<Op, NoMemory> {
    let name = Text::of(alloc, name)?;
    Ok(match made {
        Made::Object(_) | Made::Missing => Op::Stat { name },
        Made::Probe => Op::List {
            prefix: name,
            slash: false,
            max: 1,
            after: None,
        },
        Made::Deleted => Op::Delete { name, only: None },
    })
}

/// An object of so many bytes.
fn object(alloc: Global, name: &str, size: u64) -> Result<Meta, NoMemory> {
    Ok(Meta {
        name: Text::of(alloc, name)?,
        generation: 3,
        metageneration: 1,
        size,
        updated: 7,
        pairs: Row::new(alloc),
    })
}

/// A page of one object.
fn page(alloc: Global, item: Meta) -> Result<Answer, NoMemory> {
    let mut items = Row::new(alloc);
    items.reserve(1)?;
    items.push(item);
    Ok(Answer::Page(Page {
        items,
        prefixes: Row::new(alloc),
        next: None,
    }))
}

/// What is answered of a name.
fn answer(alloc: Global, name: &str, made: Made) -> Result<Answer, NoMemory> {
    match made {
        Made::Object(size) => Ok(Answer::Meta(object(alloc, name, size)?)),
        Made::Missing => Ok(Answer::NotFound),
        Made::Probe => page(alloc, object(alloc, name, 0)?),
        Made::Deleted => Ok(Answer::Done),
    }
}

/// What is noted of an operation at a moment, by its answer.
fn note(alloc: Global, moment: u64, op: &Op, answer: &Answer) -> Result<Option<Note>, NoMemory> {
    let draft = Draft::of(alloc, op)?;
    let shown = copy_shown(alloc, answer)?;
    Ok(draft.into_note(moment, shown))
}

/// What is noted of what was made at a moment.
fn noted(alloc: Global, moment: u64, name: &str, made: Made) -> Result<Option<Note>, NoMemory> {
    let op = op(alloc, name, made)?;
    let answer = answer(alloc, name, made)?;
    note(alloc, moment, &op, &answer)
}

/// Tells at the end of a call that was taken at the start what it noted of one operation.
fn tell(kept: &mut Kept, alloc: Global, note: Option<Note>) -> Result<(), NoMemory> {
    let mut notes = Notes::new(alloc);
    if let Some(note) = note {
        notes.reserve()?;
        notes.push(note);
    }
    kept.tell(0, true, notes);
    Ok(())
}

/// A call makes one operation on a name at a moment, and ends.
fn make(
    kept: &mut Kept,
    alloc: Global,
    moment: u64,
    name: &str,
    made: Made,
) -> Result<(), NoMemory> {
    let note = noted(alloc, moment, name, made)?;
    tell(kept, alloc, note)
}

/// An answer in words, at its moment.
fn answer_in_words(alloc: Global, moment: u64, answer: &Answer) -> Result<String, NoMemory> {
    let answer = match answer {
        Answer::Meta(meta) => {
            let (name, generation, size) = (meta.name.as_str(), meta.generation, meta.size);
            return Ok(format!(in alloc; "{moment}: {name} {generation} {size}")?);
        }
        Answer::Done => "present",
        Answer::NotFound => "absent",
        _ => "another answer",
    };
    Ok(format!(in alloc; "{moment}: {answer}")?)
}

/// What a record tells in words.
fn in_words(alloc: Global, recall: Option<Recall>) -> Result<String, NoMemory> {
    let Some(recall) = recall else {
        return Ok(String::from_str(alloc, "nothing")?);
    };
    let (moment, answer) = recall.into_answer();
    answer_in_words(alloc, moment, &answer)
}

/// What a look that is made again is answered by a record, so many seconds after the start.
fn recalled(
    kept: &mut Kept,
    alloc: Global,
    now: u64,
    name: &str,
    made: Made,
) -> Result<String, NoMemory> {
    let key = Text::of(alloc, name)?;
    let mut found = kept.recall_one(alloc, &config(), now, &key)?;
    let op = op(alloc, name, made)?;
    in_words(alloc, found.take(&op))
}

/// Looks, each with what its record tells in its place.
const LOOKS: [(&str, Made, &str); 4] = [
    ("f", Made::Object(5), "1: f 3 5"),
    ("g", Made::Missing, "2: absent"),
    ("d/", Made::Probe, "3: present"),
    ("p/", Made::Object(0), "4: p/ 3 0"),
];

/// Makes each look, and then again while its record lives, and once it has ended.
fn look_again(rt: &impl Abort, alloc: Global, kept: &mut Kept) -> Result<(), NoMemory> {
    let mut moment = 0u64;
    for (name, made, expected) in LOOKS {
        moment = moment.saturating_add(1);
        make(kept, alloc, moment, name, made)?;
        assert_eq!(rt; recalled(kept, alloc, 9, name, made)?.as_str(), expected);
        assert_eq!(rt; recalled(kept, alloc, 10, name, made)?.as_str(), "nothing");
    }
    Ok(())
}

#[test]
fn a_record_answers_as_its_look_was_until_it_ends(rt: HostRuntime) -> Result<(), Fail> {
    let mut kept = Kept::new(rt.alloc(), &config())?;
    look_again(&rt, rt.alloc(), &mut kept)?;
    Ok(())
}

/// What was found of a directory and of an object, in words.
fn found_in_words(alloc: Global, found: Found) -> Result<String, NoMemory> {
    let Found { probe, stat } = found;
    let mut words = in_words(alloc, probe)?;
    words.push_str(", ")?;
    words.push_str(in_words(alloc, stat)?.as_str())?;
    Ok(words)
}

/// What a LOOKUP of a path finds.
fn look_up(kept: &mut Kept, alloc: Global, path: &str, suffixed: bool) -> Result<String, NoMemory> {
    let directory = Text::from_string(format!(in alloc; "{path}/")?);
    let path = Text::of(alloc, path)?;
    let found = kept.recall_both(alloc, &config(), 0, &directory, &path, suffixed)?;
    found_in_words(alloc, found)
}

/// A directory `d` that hides a file of its name, until a name in it is deleted.
fn write_below(rt: &impl Abort, alloc: Global, kept: &mut Kept) -> Result<(), NoMemory> {
    make(kept, alloc, 1, "d/", Made::Probe)?;
    make(kept, alloc, 2, "d", Made::Object(5))?;
    assert_eq!(rt;
        look_up(kept, alloc, "d", false)?.as_str(),
        "1: present, nothing"
    );
    assert_eq!(rt;
        look_up(kept, alloc, "d", true)?.as_str(),
        "1: present, 2: d 3 5"
    );
    make(kept, alloc, 3, "d/x", Made::Deleted)?;
    assert_eq!(rt;
        look_up(kept, alloc, "d", false)?.as_str(),
        "nothing, 2: d 3 5"
    );
    Ok(())
}

#[test]
fn a_directory_is_found_until_a_name_in_it_is_written(rt: HostRuntime) -> Result<(), Fail> {
    let mut kept = Kept::new(rt.alloc(), &config())?;
    write_below(&rt, rt.alloc(), &mut kept)?;
    Ok(())
}

/// Notes of a look that showed nothing, one that failed, one that a record served, and a write.
fn four_notes(alloc: Global) -> Result<Notes, NoMemory> {
    let mut notes = Notes::new(alloc);
    let key = Text::of(alloc, "g")?;
    notes.reserve()?;
    notes.push(Note::Saw {
        key,
        moment: 4,
        shown: Shown::Absent,
    });
    notes.reserve()?;
    notes.push(Note::Failed { moment: 5 });
    notes.reserve()?;
    notes.push(Note::Recalled { moment: 1 });
    let name = Text::of(alloc, "f")?;
    notes.reserve()?;
    notes.push(Note::Wrote { name, moment: 6 });
    Ok(notes)
}

/// A use, at a moment.
fn used(moment: u64, own: bool, kept: bool) -> Use {
    Use { moment, own, kept }
}

#[test]
fn uses_are_told_in_the_order_of_their_looks(rt: HostRuntime) -> Result<(), Fail> {
    let notes = four_notes(rt.alloc())?;
    let mut kept = Kept::new(rt.alloc(), &config())?;
    let uses = kept.tell(0, false, notes);
    let expected = [
        used(4, true, true),
        used(5, true, false),
        used(1, false, false),
    ];
    assert_eq!(rt; uses.as_slice(), expected.as_slice());
    Ok(())
}

/// Fills in a file that isn't kept, and copies bytes of it out.
fn fill_and_copy(
    kept: &mut Kept,
    alloc: Global,
    key: &FileKey,
    content: &[u8],
    first: u64,
    count: u64,
) -> Result<Option<Bytes>, NoMemory>
    requires empty { kept.old.files.files ≡ [] }
    requires some { 1 ≤ length content.now }
    requires fits { blocks_of content.now ≤ kept.old.files.blocks }
    requires range { first + count ≤ length content.now }
{
    if kept.fill(key, content) != Fill::Kept {
        return Err(NoMemory);
    }
    kept.copy_bytes(alloc, key, first, count)
}

/// Whether these bytes were copied.
fn is_text(copied: &Option<Bytes>, text: &[u8]) -> bool {
    match copied {
        Some(bytes) => bytes.as_slice() == text,
        None => false,
    }
}

#[test]
fn bytes_of_a_kept_file_are_copied(rt: HostRuntime) -> Result<(), Fail> {
    let name = Text::of(rt.alloc(), "f")?;
    let key = FileKey {
        name,
        generation: 3,
    };
    let mut kept = Kept::new(rt.alloc(), &Config::new())?;
    let copied = fill_and_copy(&mut kept, rt.alloc(), &key, b"hello", 1, 3)?;
    assert!(rt; is_text(&copied, b"ell"));
    Ok(())
}
