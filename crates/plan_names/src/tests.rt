//! The steps of each errand by hand, what each ends in, and a fault at each step.
ghost use Rattle.std.specs.Prelude.{◌≡◌, ℕ, false, List, [], Some, None, IfOk};
ghost use Rattle.mount_rules.specs.Making as making;
ghost use Rattle.mount_rules.specs.Requests.Lookup as lookup;
ghost use Rattle.mount_rules.specs.Requests.Opendir as opendir;
ghost use Rattle.mount_rules.specs.Requests.Rename as rename;
ghost use Rattle.mount_rules.specs.Requests.Rmdir as rmdir;
ghost use Rattle.mount_rules.specs.Requests.Unlink as unlink;
ghost use Rattle.object_names.specs.Paths.{IsPath, IsPrefix};
ghost use Rattle.plan_names.specs.Errands.{plan_of, Asked, IsErrand};

use crate::{
    Emptied, Found, Made, Moved, NameErrand, Removed, errno, next_op, outcome_of_insert,
    outcome_of_lookup, outcome_of_rename, outcome_of_rmdir, outcome_of_unlink,
};
use bucket_api::{Answer, Meta, Op, Page};
use io_ports::{NoMemory, Row, Text};
use mount_model::Next;
use object_names::{Component, dir_prefix, join};
use std::alloc::Global;
use std::process::Abort;
use std::test::Fail;

/// An operation in words.
fn words(alloc: Global, op: &Op) -> Result<String, NoMemory> {
    match op {
        Op::Stat { name } => Ok(format!(in alloc; "stat {}", name.as_str())?),
        Op::List {
            prefix,
            slash,
            max,
            after,
        } => listed(alloc, prefix, *slash, *max, after),
        Op::Insert {
            name,
            content,
            only,
            stamp,
            ..
        } => inserted(alloc, name, content.as_slice().len(), *only, *stamp),
        Op::Delete { name, only } => deleted(alloc, name, *only),
        Op::Copy {
            from,
            generation,
            to,
            stamp,
        } => copied(alloc, from, *generation, to, *stamp),
        _ => Ok(String::from_str(alloc, "another")?),
    }
}

/// A list in words.
fn listed(
    alloc: Global,
    prefix: &Text,
    slash: bool,
    max: u64,
    after: &Option<Text>,
) -> Result<String, NoMemory> {
    let after = match after {
        Some(key) => key.as_str(),
        None => "nothing",
    };
    let by = if slash { "by slash" } else { "flat" };
    let line = format!(in alloc; "list {} {by} {max} after {after}", prefix.as_str())?;
    Ok(line)
}

/// An insert in words.
fn inserted(
    alloc: Global,
    name: &Text,
    size: usize,
    only: Option<u64>,
    stamp: u64,
) -> Result<String, NoMemory> {
    let only = only.unwrap_or(99);
    let line = format!(in alloc; "insert {} {size} only {only} at {stamp}", name.as_str())?;
    Ok(line)
}

/// A delete in words.
fn deleted(alloc: Global, name: &Text, only: Option<u64>) -> Result<String, NoMemory> {
    match only {
        Some(generation) => Ok(format!(in alloc; "delete {} only {generation}", name.as_str())?),
        None => Ok(format!(in alloc; "delete {}", name.as_str())?),
    }
}

/// A copy in words.
fn copied(
    alloc: Global,
    from: &Text,
    generation: u64,
    to: &Text,
    stamp: u64,
) -> Result<String, NoMemory> {
    let (from, to) = (from.as_str(), to.as_str());
    Ok(format!(in alloc; "copy {from} {generation} to {to} at {stamp}")?)
}

/// What an errand asks next, at the second 7, or the error that it ends in.
fn asks(alloc: Global, errand: &NameErrand, told: &[Answer]) -> Result<String, NoMemory>
    requires errand { IsErrand errand.now }
    requires asked { Asked (plan_of errand.now 7) told.now }
{
    match next_op(alloc, errand, 7, told)? {
        Next::Do(op) => words(alloc, &op),
        Next::Insert => Ok(String::from_str(alloc, "insert")?),
        Next::Finish => {
            let error = errno(errand, told);
            Ok(format!(in alloc; "end {error}")?)
        },
    }
}

/// The path of a part of a directory.
fn part_of(alloc: Global, prefix: &str, name: &str) -> Result<Text, NoMemory>
    requires { IsPrefix prefix.now }
    ensures { IfOk result (λ path. IsPath path) }
{
    let Ok(part) = Component::new(alloc, name.as_bytes()) else {
        return Err(NoMemory);
    };
    match join(alloc, prefix, &part) {
        Ok(path) => Ok(path),
        Err(_) => Err(NoMemory),
    }
}

/// The path `a/b`.
fn path(alloc: Global) -> Result<Text, NoMemory>
    ensures { IfOk result (λ path. IsPath path) }
{
    let directory = part_of(alloc, "", "a")?;
    let prefix = dir_prefix(alloc, directory.as_str())?;
    part_of(alloc, prefix.as_str(), "b")
}

/// What looking `a/b` up asks after these answers.
fn looks_up(
    alloc: Global,
    suffix: bool,
    implicit: bool,
    told: &[Answer],
) -> Result<String, NoMemory>
    requires { (path : List ℕ) → Asked (lookup.plan implicit path suffix) told.now }
{
    let path = path(alloc)?;
    let errand = NameErrand::Lookup {
        path,
        suffix,
        implicit,
    };
    asks(alloc, &errand, told)
}

/// What making `a/b` asks after these answers.
fn makes(alloc: Global, told: &[Answer]) -> Result<String, NoMemory>
    requires { (name : List ℕ) → Asked (making.plan name [] 7) told.now }
{
    let name = path(alloc)?;
    let errand = NameErrand::Make {
        name,
        pairs: Row::new(alloc),
    };
    asks(alloc, &errand, told)
}

/// What listing `d/` by pages of one key asks after these answers.
fn lists(alloc: Global, told: &[Answer]) -> Result<String, NoMemory>
    requires { (prefix : List ℕ) → Asked (opendir.plan prefix 1 None) told.now }
{
    let errand = NameErrand::Opendir {
        prefix: Text::of(alloc, "d/")?,
        page: 1,
    };
    asks(alloc, &errand, told)
}

/// What removing the object of `a/b` asks after these answers.
fn unlinks(alloc: Global, told: &[Answer]) -> Result<String, NoMemory>
    requires { (path : List ℕ) → Asked (unlink.plan path) told.now }
{
    let path = path(alloc)?;
    asks(alloc, &NameErrand::Unlink { path }, told)
}

/// What removing the directory `a/b` asks after these answers.
fn empties(alloc: Global, told: &[Answer]) -> Result<String, NoMemory>
    requires { (prefix : List ℕ) → Asked (rmdir.plan prefix) told.now }
{
    let path = path(alloc)?;
    asks(alloc, &NameErrand::Rmdir { path }, told)
}

/// What moving `a/b` to `c` asks after these answers.
fn moves(alloc: Global, suffix: bool, told: &[Answer]) -> Result<String, NoMemory>
    requires { (from to : List ℕ) → Asked (rename.moving_plan false from to suffix 7) told.now }
{
    let errand = NameErrand::Rename {
        from: path(alloc)?,
        to: part_of(alloc, "", "c")?,
        suffix,
        implicit: false,
    };
    asks(alloc, &errand, told)
}

/// What a bucket tells of an object of no bytes.
fn meta(alloc: Global) -> Result<Meta, NoMemory> {
    meta_of(alloc, "a/b")
}

/// What a bucket tells of an object of no bytes that is named so.
fn meta_of(alloc: Global, name: &str) -> Result<Meta, NoMemory> {
    Ok(Meta {
        name: Text::of(alloc, name)?,
        generation: 6,
        metageneration: 1,
        size: 0,
        updated: 0,
        pairs: Row::new(alloc),
    })
}

/// A page that ends at a key.
fn page(alloc: Global, key: &str) -> Result<Page, NoMemory>
    ensures { IfOk result (λ page. page.next ≡ Some key.now) }
{
    Ok(Page {
        items: Row::new(alloc),
        prefixes: Row::new(alloc),
        next: Some(Text::of(alloc, key)?),
    })
}

/// A page behind which there is none.
fn last_page(alloc: Global) -> Page
    ensures { result.next ≡ None }
{
    Page {
        items: Row::new(alloc),
        prefixes: Row::new(alloc),
        next: None,
    }
}

/// A page of one object, behind which there is none.
fn page_of(alloc: Global, name: &str) -> Result<Page, NoMemory>
    ensures { IfOk result (λ page. page.next ≡ None) }
{
    let mut items = Row::new(alloc);
    items.reserve(1)?;
    items.push(meta_of(alloc, name)?);
    Ok(Page {
        items,
        prefixes: Row::new(alloc),
        next: None,
    })
}

#[test]
fn asks_for_the_directory_first(rt: HostRuntime) -> Result<(), Fail> {
    let line = looks_up(rt.alloc(), false, false, &[])?;
    assert_eq!(rt; line.as_str(), "stat a/b/");
    let line = looks_up(rt.alloc(), true, true, &[])?;
    assert_eq!(rt; line.as_str(), "list a/b/ flat 1 after nothing");
    Ok(())
}

#[test]
fn asks_for_the_object_where_the_name_may_mean_it(rt: HostRuntime) -> Result<(), Fail> {
    let line = looks_up(rt.alloc(), false, false, &[Answer::NotFound])?;
    assert_eq!(rt; line.as_str(), "stat a/b");
    let line = looks_up(rt.alloc(), true, false, &[Answer::Done])?;
    assert_eq!(rt; line.as_str(), "stat a/b");
    let line = looks_up(
        rt.alloc(),
        false,
        true,
        &[Answer::Page(last_page(rt.alloc()))],
    )?;
    assert_eq!(rt; line.as_str(), "stat a/b");
    Ok(())
}

#[test]
fn ends_at_the_probe(rt: HostRuntime) -> Result<(), Fail> {
    let line = looks_up(rt.alloc(), false, false, &[Answer::Done])?;
    assert_eq!(rt; line.as_str(), "end 0");
    let line = looks_up(rt.alloc(), true, false, &[Answer::NotFound])?;
    assert_eq!(rt; line.as_str(), "end 2");
    let line = looks_up(rt.alloc(), true, true, &[Answer::Fault])?;
    assert_eq!(rt; line.as_str(), "end 5");
    Ok(())
}

#[test]
fn ends_at_the_stat(rt: HostRuntime) -> Result<(), Fail> {
    let found = Answer::Meta(meta(rt.alloc())?);
    let line = looks_up(rt.alloc(), false, false, &[Answer::NotFound, found])?;
    assert_eq!(rt; line.as_str(), "end 0");
    let line = looks_up(rt.alloc(), true, false, &[Answer::Done, Answer::NotFound])?;
    assert_eq!(rt; line.as_str(), "end 2");
    let line = looks_up(rt.alloc(), false, false, &[Answer::NotFound, Answer::Fault])?;
    assert_eq!(rt; line.as_str(), "end 5");
    Ok(())
}

#[test]
fn inserts_where_nothing_is(rt: HostRuntime) -> Result<(), Fail> {
    let line = makes(rt.alloc(), &[])?;
    assert_eq!(rt; line.as_str(), "insert a/b 0 only 0 at 7");
    let made = Answer::Meta(meta(rt.alloc())?);
    let line = makes(rt.alloc(), &[made])?;
    assert_eq!(rt; line.as_str(), "end 0");
    let taken = Answer::Precondition {
        generation: 6,
        metageneration: 1,
    };
    let line = makes(rt.alloc(), &[taken])?;
    assert_eq!(rt; line.as_str(), "end 17");
    let line = makes(rt.alloc(), &[Answer::Fault])?;
    assert_eq!(rt; line.as_str(), "end 5");
    Ok(())
}

#[test]
fn lists_to_the_last_page(rt: HostRuntime) -> Result<(), Fail> {
    let line = lists(rt.alloc(), &[])?;
    assert_eq!(rt; line.as_str(), "list d/ by slash 1 after nothing");
    let first = Answer::Page(page(rt.alloc(), "d/foo")?);
    let line = lists(rt.alloc(), &[first])?;
    assert_eq!(rt; line.as_str(), "list d/ by slash 1 after d/foo");
    let first = Answer::Page(page(rt.alloc(), "d/foo")?);
    let second = Answer::Page(page(rt.alloc(), "d/foo-x")?);
    let line = lists(rt.alloc(), &[first, second])?;
    assert_eq!(rt; line.as_str(), "list d/ by slash 1 after d/foo-x");
    Ok(())
}

#[test]
fn ends_behind_the_last_page(rt: HostRuntime) -> Result<(), Fail> {
    let first = Answer::Page(page(rt.alloc(), "d/foo")?);
    let last = Answer::Page(last_page(rt.alloc()));
    let line = lists(rt.alloc(), &[first, last])?;
    assert_eq!(rt; line.as_str(), "end 0");
    let first = Answer::Page(page(rt.alloc(), "d/foo")?);
    let line = lists(rt.alloc(), &[first, Answer::Fault])?;
    assert_eq!(rt; line.as_str(), "end 5");
    Ok(())
}

#[test]
fn deletes_the_object_of_a_path(rt: HostRuntime) -> Result<(), Fail> {
    let line = unlinks(rt.alloc(), &[])?;
    assert_eq!(rt; line.as_str(), "delete a/b");
    let line = unlinks(rt.alloc(), &[Answer::Done])?;
    assert_eq!(rt; line.as_str(), "end 0");
    let line = unlinks(rt.alloc(), &[Answer::NotFound])?;
    assert_eq!(rt; line.as_str(), "end 2");
    let line = unlinks(rt.alloc(), &[Answer::Fault])?;
    assert_eq!(rt; line.as_str(), "end 5");
    Ok(())
}

#[test]
fn removes_a_directory_that_is_empty(rt: HostRuntime) -> Result<(), Fail> {
    let line = empties(rt.alloc(), &[])?;
    assert_eq!(rt; line.as_str(), "list a/b/ flat 2 after nothing");
    let own = Answer::Page(page_of(rt.alloc(), "a/b/")?);
    let line = empties(rt.alloc(), &[own])?;
    assert_eq!(rt; line.as_str(), "delete a/b/");
    let filled = Answer::Page(page_of(rt.alloc(), "a/b/c")?);
    let line = empties(rt.alloc(), &[filled])?;
    assert_eq!(rt; line.as_str(), "end 39");
    let none = Answer::Page(last_page(rt.alloc()));
    let line = empties(rt.alloc(), &[none])?;
    assert_eq!(rt; line.as_str(), "end 2");
    let line = empties(rt.alloc(), &[Answer::Fault])?;
    assert_eq!(rt; line.as_str(), "end 5");
    Ok(())
}

#[test]
fn moves_the_generation_that_it_saw(rt: HostRuntime) -> Result<(), Fail> {
    let line = moves(rt.alloc(), false, &[])?;
    assert_eq!(rt; line.as_str(), "stat a/b/");
    let line = moves(rt.alloc(), false, &[Answer::NotFound])?;
    assert_eq!(rt; line.as_str(), "stat a/b");
    let told = Answer::Meta(meta(rt.alloc())?);
    let line = moves(rt.alloc(), true, &[Answer::Done, told])?;
    assert_eq!(rt; line.as_str(), "copy a/b 6 to c at 7");
    let (told, made) = (
        Answer::Meta(meta(rt.alloc())?),
        Answer::Meta(meta(rt.alloc())?),
    );
    let line = moves(rt.alloc(), false, &[Answer::NotFound, told, made])?;
    assert_eq!(rt; line.as_str(), "delete a/b only 6");
    Ok(())
}

#[test]
fn ends_where_nothing_can_be_moved(rt: HostRuntime) -> Result<(), Fail> {
    let line = moves(rt.alloc(), false, &[Answer::Done])?;
    assert_eq!(rt; line.as_str(), "end 38");
    let line = moves(rt.alloc(), true, &[Answer::NotFound])?;
    assert_eq!(rt; line.as_str(), "end 2");
    let line = moves(rt.alloc(), false, &[Answer::NotFound, Answer::NotFound])?;
    assert_eq!(rt; line.as_str(), "end 2");
    let told = Answer::Meta(meta(rt.alloc())?);
    let line = moves(
        rt.alloc(),
        false,
        &[Answer::NotFound, told, Answer::NotFound],
    )?;
    assert_eq!(rt; line.as_str(), "end 116");
    Ok(())
}

/// Two answers.
fn both(alloc: Global, first: Answer, second: Answer) -> Result<Row<Answer>, NoMemory> {
    let mut answers = Row::new(alloc);
    answers.reserve(2)?;
    answers.push(first);
    answers.push(second);
    Ok(answers)
}

/// What was found, as a letter.
fn found(found: Found) -> char {
    match found {
        Found::Directory => 'd',
        Found::Object(_) => 'o',
        Found::Nothing => '-',
        Found::Fault => '!',
    }
}

/// What was made, as a letter.
fn made(made: Made) -> char {
    match made {
        Made::New(_) => 'n',
        Made::Exists => 'e',
        Made::Fault => '!',
    }
}

#[test]
fn tells_what_came_of_it(rt: HostRuntime) -> Result<(), Fail> {
    let absent = both(rt.alloc(), Answer::Done, Answer::NotFound)?;
    assert_eq!(rt; found(outcome_of_lookup(absent)), '-');
    assert_eq!(rt; found(outcome_of_lookup(Row::new(rt.alloc()))), '!');
    let failed = both(rt.alloc(), Answer::Fault, Answer::Done)?;
    assert_eq!(rt; made(outcome_of_insert(failed)), '!');
    Ok(())
}

#[test]
fn tells_what_was_removed_or_moved(rt: HostRuntime) -> Result<(), Fail> {
    let answers = [Answer::NotFound, Answer::Done];
    let path = path(rt.alloc())?;
    assert_eq!(rt; outcome_of_unlink(&answers), Removed::Nothing);
    assert_eq!(rt;
        outcome_of_rmdir(path.as_str(), &answers),
        Emptied::Removed(Removed::Gone)
    );
    assert_eq!(rt; outcome_of_rename(&answers), Moved::Fault);
    let filled = [Answer::Page(page_of(rt.alloc(), "a/b/c")?)];
    assert_eq!(rt; outcome_of_rmdir(path.as_str(), &filled), Emptied::NotEmpty);
    Ok(())
}
