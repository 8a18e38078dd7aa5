//! Small directories, an empty one, and one of more than a thousand entries.
use crate::Listing;
use bucket_api::{Meta, Page, Pair};
use file_metadata::{MTIME_KEY, TARGET_KEY};
use io_ports::{NoMemory, Row, Text};
use object_names::NodeKind;
use std::alloc::Global;
use std::process::Abort;
use std::test::Fail;

/// One pair of metadata.
fn pair(alloc: Global, key: &str) -> Result<Pair, NoMemory> {
    let key = Text::of(alloc, key)?;
    let value = Text::of(alloc, "foo")?;
    Ok(Pair { key, value })
}

/// What a bucket tells of an object. A name that ends in `@` is that of a symlink, and the object's is without it.
fn meta(alloc: Global, word: &str) -> Result<Meta, NoMemory> {
    let mut pairs = Vec::new(alloc);
    pairs.push(pair(alloc, MTIME_KEY)?)?;
    let name = match word.strip_suffix('@') {
        Some(name) => {
            pairs.push(pair(alloc, TARGET_KEY)?)?;
            Text::of(alloc, name)?
        }
        None => Text::of(alloc, word)?,
    };
    let pairs = Row::from_vec(pairs);
    Ok(Meta {
        name,
        generation: 1,
        metageneration: 1,
        size: 0,
        updated: 0,
        pairs,
    })
}

/// A page with these items and these prefixes, each parted by blanks.
fn page_of(alloc: Global, items: &str, prefixes: &str) -> Result<Page, NoMemory> {
    let mut metas = Vec::new(alloc);
    for word in items.split(' ') {
        metas.push(meta(alloc, word)?)?;
    }
    let mut texts = Vec::new(alloc);
    for word in prefixes.split(' ') {
        texts.push(Text::of(alloc, word)?)?;
    }
    Ok(Page {
        items: Row::from_vec(metas),
        prefixes: Row::from_vec(texts),
        next: None,
    })
}

/// The letter of a kind.
fn letter(kind: NodeKind) -> &'static str {
    match kind {
        NodeKind::Dir => "=d ",
        NodeKind::File => "=f ",
        NodeKind::Symlink => "=s ",
    }
}

/// What a directory shows, each name with the letter of its kind. Pages are parted by `;`, the items of a page from its
/// prefixes by `|`.
fn shown(alloc: Global, prefix: &str, pages: &str, implicit: bool) -> Result<String, NoMemory> {
    let mut listing = Listing::new(alloc, Text::of(alloc, prefix)?, implicit);
    for words in pages.split(';') {
        let (items, prefixes) = words.split_once('|').unwrap_or((words, ""));
        let page = page_of(alloc, items, prefixes)?;
        listing.add_page(&page)?;
    }
    let entries = listing.finish()?;
    let mut line = String::new(alloc);
    for entry in entries.as_slice() {
        line.push_str(entry.shown.as_str())?;
        line.push_str(letter(entry.kind))?;
    }
    Ok(line)
}

/// A page of so many files with names of four digits.
fn numbered_page(alloc: Global, count: u64) -> Result<Page, NoMemory> {
    let mut metas = Vec::new(alloc);
    for number in 0..count {
        let name = format!(in alloc; "{number:04}")?;
        metas.push(meta(alloc, name.as_str())?)?;
    }
    Ok(Page {
        items: Row::from_vec(metas),
        prefixes: Row::new(alloc),
        next: None,
    })
}

/// How many entries a directory of one page of so many files has.
fn counted(alloc: Global, count: u64) -> Result<u64, NoMemory> {
    let mut listing = Listing::new(alloc, Text::of(alloc, "")?, true);
    let page = numbered_page(alloc, count)?;
    listing.add_page(&page)?;
    let entries = listing.finish()?;
    Ok(entries.len())
}

#[test]
fn pages_are_empty_or_long(rt: HostRuntime) -> Result<(), Fail> {
    assert_eq!(rt; counted(rt.alloc(), 0)?, 0);
    assert_eq!(rt; counted(rt.alloc(), 1_500)?, 1_500);
    Ok(())
}

#[test]
fn shows_a_file_beside_the_directory_of_its_name(rt: HostRuntime) -> Result<(), Fail> {
    let whole = shown(rt.alloc(), "", "foo foo-x foo/|foo/", false)?;
    assert_eq!(rt; whole.as_str(), "foo=d foo\n=f foo-x=f ");
    let by_ones = shown(rt.alloc(), "", "foo;foo-x;foo/|foo/", false)?;
    assert_eq!(rt; by_ones.as_str(), "foo=d foo\n=f foo-x=f ");
    Ok(())
}

#[test]
fn stands_in_the_order_of_the_bytes_of_shown_names(rt: HostRuntime) -> Result<(), Fail> {
    let line = shown(rt.alloc(), "", "foo;foo\u{1};foo/", false)?;
    assert_eq!(rt; line.as_str(), "foo=d foo\u{1}=f foo\n=f ");
    Ok(())
}

#[test]
fn shows_only_what_lies_in_the_directory(rt: HostRuntime) -> Result<(), Fail> {
    let pages = "d/ d/a\rb;d/link@ d/link d/sub@|d/../ d// d/sub/ d/x/";
    let explicit = shown(rt.alloc(), "d/", pages, false)?;
    assert_eq!(rt; explicit.as_str(), "link=s sub=s ");
    let implicit = shown(rt.alloc(), "d/", pages, true)?;
    assert_eq!(rt; implicit.as_str(), "link=s sub=d sub\n=s x=d ");
    Ok(())
}

#[test]
fn leaves_out_a_path_of_1024_bytes(rt: HostRuntime) -> Result<(), Fail> {
    let mut prefix = String::new(rt.alloc());
    for _ in 0..1020 {
        prefix.push('p')?;
    }
    let pages = format!(in rt.alloc(); "{prefix}abcd {prefix}abc {prefix}abd/")?;
    let line = shown(rt.alloc(), &prefix, &pages, false)?;
    assert_eq!(rt; line.as_str(), "abc=f abd=d ");
    Ok(())
}
