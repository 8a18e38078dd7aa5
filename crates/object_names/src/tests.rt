//! Names at the ends of their range, and what small directories show.
use crate::{
    Component, NameFault, NodeKind, PathFault, dir_prefix, join, shown_name, slow_entries,
    strip_suffix,
};
use io_ports::{NoMemory, Text};
use std::alloc::{AllocError, Global};
use std::process::Abort;
use std::test::Fail;

/// So many of one byte.
fn run_of(alloc: Global, byte: u8, count: usize) -> Result<Vec<u8>, AllocError> {
    let mut run = Vec::new(alloc);
    for _ in 0..count {
        run.push(byte)?;
    }
    Ok(run)
}

/// The name is a component.
fn assert_taken(rt: &(impl Abort + AllocGlobal), name: &[u8]) -> Result<(), NameFault> {
    let part = Component::new(rt.alloc(), name)?;
    assert_eq!(rt; part.as_str().as_bytes(), name);
    Ok(())
}

/// The name is refused for this fault.
fn assert_refused(rt: &(impl Abort + AllocGlobal), name: &[u8], fault: NameFault) {
    assert_eq!(rt;
        Component::new(rt.alloc(), name).err(),
        Some(fault),
        "at {name:?}"
    );
}

#[test]
fn takes_what_is_a_component(rt: HostRuntime) -> Result<(), Fail> {
    let longest = run_of(rt.alloc(), b'n', 255)?;
    assert_taken(&rt, &longest)?;
    assert_taken(&rt, b"a")?;
    assert_taken(&rt, b"...")?;
    assert_taken(&rt, "\u{e9}\u{2028}".as_bytes())?;
    Ok(())
}

#[test]
fn refuses_a_name_for_its_first_fault(rt: HostRuntime) -> Result<(), Fail> {
    let too_long = run_of(rt.alloc(), 0xff, 256)?;
    assert_refused(&rt, b"", NameFault::Empty);
    assert_refused(&rt, &too_long, NameFault::TooLong);
    assert_refused(&rt, b"\xff/\n", NameFault::NotUtf8);
    assert_refused(&rt, b".", NameFault::Dot);
    assert_refused(&rt, b"..", NameFault::Dot);
    assert_refused(&rt, b"a\r/", NameFault::Slash);
    assert_refused(&rt, b"a\r", NameFault::Control);
    assert_refused(&rt, b"a\n", NameFault::Control);
    assert_refused(&rt, b"\0", NameFault::Control);
    Ok(())
}

#[test]
fn joins_up_to_the_longest_path(rt: HostRuntime) -> Result<(), Fail> {
    let letters = run_of(rt.alloc(), b'p', 1020)?;
    let prefix = str::from_utf8(&letters).ok().ok_or("ascii")?;
    let fits = Component::new(rt.alloc(), b"abc")?;
    let passes = Component::new(rt.alloc(), b"abcd")?;
    assert_eq!(rt; join(rt.alloc(), prefix, &fits)?.as_str().len(), 1023);
    assert_eq!(rt;
        join(rt.alloc(), prefix, &passes).err(),
        Some(PathFault::TooLong)
    );
    assert_eq!(rt; join(rt.alloc(), "a/b/", &fits)?.as_str(), "a/b/abc");
    assert_eq!(rt; dir_prefix(rt.alloc(), "a/b")?.as_str(), "a/b/");
    assert_eq!(rt; dir_prefix(rt.alloc(), "")?.as_str(), "");
    Ok(())
}

/// What is left of a shown name, and whether it had the suffix.
fn assert_stripped(rt: &impl Abort, shown: &[u8], bare: &[u8], suffixed: bool) {
    let (left, had) = strip_suffix(shown);
    assert_eq!(rt; left, bare);
    assert_eq!(rt; had, suffixed);
}

#[test]
fn adds_and_takes_off_one_suffix(rt: HostRuntime) -> Result<(), Fail> {
    let part = Component::new(rt.alloc(), b"foo")?;
    assert_eq!(rt; shown_name(rt.alloc(), &part, true)?.as_str(), "foo\n");
    assert_eq!(rt; shown_name(rt.alloc(), &part, false)?.as_str(), "foo");
    assert_stripped(&rt, b"foo\n\n", b"foo\n", true);
    assert_stripped(&rt, b"foo", b"foo", false);
    assert_stripped(&rt, b"\n", b"", true);
    assert_stripped(&rt, b"", b"", false);
    Ok(())
}

/// Names that blanks part; those that end in `@` are symlinks, and their names are without it.
fn listed(alloc: Global, names: &str) -> Result<Vec<(Text, NodeKind)>, NoMemory> {
    let mut items = Vec::new(alloc);
    for name in names.split(' ') {
        let item = match name.strip_suffix('@') {
            Some(link) => (Text::of(alloc, link)?, NodeKind::Symlink),
            None => (Text::of(alloc, name)?, NodeKind::File),
        };
        items.push(item)?;
    }
    Ok(items)
}

fn texts(alloc: Global, names: &str) -> Result<Vec<Text>, NoMemory> {
    let mut all = Vec::new(alloc);
    for name in names.split(' ') {
        all.push(Text::of(alloc, name)?)?;
    }
    Ok(all)
}

fn letter(kind: NodeKind) -> &'static str {
    match kind {
        NodeKind::Dir => "=d ",
        NodeKind::File => "=f ",
        NodeKind::Symlink => "=s ",
    }
}

/// What a directory shows, each name with the letter of its kind.
fn shown(
    alloc: Global,
    prefix: &str,
    items: &str,
    prefixes: &str,
    implicit: bool,
) -> Result<String, NoMemory> {
    let items = listed(alloc, items)?;
    let prefixes = texts(alloc, prefixes)?;
    let entries = slow_entries(alloc, prefix, &items, &prefixes, implicit)?;
    let mut line = String::new(alloc);
    for entry in entries.as_slice() {
        line.push_str(entry.shown.as_str())?;
        line.push_str(letter(entry.kind))?;
    }
    Ok(line)
}

#[test]
fn shows_a_directory_before_the_file_that_it_hides(rt: HostRuntime) -> Result<(), Fail> {
    let line = shown(rt.alloc(), "", "foo foo-x foo/", "foo/", false)?;
    assert_eq!(rt; line.as_str(), "foo=d foo\n=f foo-x=f ");
    Ok(())
}

#[test]
fn shows_only_what_lies_in_the_directory(rt: HostRuntime) -> Result<(), Fail> {
    let items = "d/ d/a\rb d/link@ d/link d/sub@";
    let explicit = shown(rt.alloc(), "d/", items, "d/../ d// d/sub/", false)?;
    assert_eq!(rt; explicit.as_str(), "link=s sub=s ");
    let implicit = shown(rt.alloc(), "d/", items, "d/../ d// d/sub/", true)?;
    assert_eq!(rt; implicit.as_str(), "link=s sub=d sub\n=s ");
    Ok(())
}
