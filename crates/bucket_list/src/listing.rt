//! One page of a listing.
ghost use Rattle.std.specs.Prelude.{◌≡◌, ◌≤◌, ◌∷◌, ◌++◌, [], List, IfOk, OnOk, option_copied, option_map, option_to_list, None, if◌then◌else◌};
ghost use Rattle.bucket_api.specs.Listing.{page_of, whole_page};
ghost use Rattle.bucket_api.specs.PageData.{PageData};
ghost use Rattle.bucket_api.specs.Pages.{ArePages, joined};
ghost use Rattle.bucket_list.specs.Closing.{closed};
ghost use Rattle.bucket_list.specs.Walking.{IsWalk, keys_left, key_text, key_object, is_prefix};

use crate::walk::{Key, Walk};
use bucket_api::{Meta, Object, Page};
use io_ports::{NoMemory, Row, Text};
use std::alloc::Global;
use std::collections::BTreeMap;

/// The page of a listing that shows the first `max` keys after `after`, or from the first key on.
///
/// The key of a name that begins with the prefix is the name itself, or with `slash` the name up to
/// and with its first slash after the prefix. Distinct keys are shown in the order of their bytes. A
/// key that is an object's name is an item; a key that ends at such a slash is a prefix. Where more
/// keys follow, `next` is the last key shown. These are the rules of Cloud Storage's list of objects
/// with a prefix and the delimiter `/`.
///
/// It reads one entry a key, and one more: all names that stand under one prefix are passed at once.
pub fn page(
    alloc: Global,
    objects: &BTreeMap<Text, Object>,
    prefix: &str,
    slash: bool,
    max: u64,
    after: Option<&str>,
) -> Result<Page, NoMemory>
    requires { 1 ≤ max }
    ensures ok { IfOk result (λ page. page ≡ page_of objects.now.entries prefix.now slash max (option_copied after.entry)) }

    // Pages of this map that are asked one after another join to the page without a maximum.
    ensures joined { IfOk result (λ page. (later : List PageData)
        → ArePages (λ key. page_of objects.now.entries prefix.now slash max key) (option_copied after.entry) (page ∷ later)
        → joined (page ∷ later) ≡ whole_page objects.now.entries prefix.now slash (option_copied after.entry)) }
{
    let mut walk = Walk::new(alloc, objects, prefix, slash, after)?;
    let mut shown = Shown::new(alloc);
    for _turn in 0..max - 1 {
        let Some(key) = walk.next(alloc)? else {
            return Ok(shown.page(None));
        };
        shown.show(alloc, key)?;
    }
    close(alloc, walk, shown)
}

/// The page with the last key that it may show, which is its `next` where more are left.
fn close(alloc: Global, mut walk: Walk<'_>, mut shown: Shown) -> Result<Page, NoMemory>
    requires { IsWalk walk }
    ensures ok { IfOk result (λ page. page ≡ closed walk.entry.objects.now.entries walk.entry.prefix.now walk.entry.slash (record { items = shown.items.items; prefixes = shown.prefixes.items; next = None }) (keys_left walk.entry)) }
{
    let Some(key) = walk.next(alloc)? else {
        return Ok(shown.page(None));
    };
    if !walk.has_more() {
        shown.show(alloc, key)?;
        return Ok(shown.page(None));
    }
    let next = key.copy_text(alloc)?;
    shown.show(alloc, key)?;
    Ok(shown.page(Some(next)))
}

/// The rows of a page.
#[derive(Drop)]
struct Shown {
    items: Row<Meta>,
    prefixes: Row<Text>,
}

impl Shown {
    fn new(alloc: Global) -> Shown
        ensures items { result.items.items ≡ [] }
        ensures prefixes { result.prefixes.items ≡ [] }
    {
        Shown {
            items: Row::new(alloc),
            prefixes: Row::new(alloc),
        }
    }

    fn page(self, next: Option<Text>) -> Page
        ensures { result ≡ record { items = self.items.items; prefixes = self.prefixes.items; next = next } }
    {
        Page {
            items: self.items,
            prefixes: self.prefixes,
            next,
        }
    }

    fn show(&mut self, alloc: Global, key: Key<'_>) -> Result<(), NoMemory>
        ensures items { OnOk result (self.new.items.items ≡ self.old.items.items ++ option_to_list (option_map (λ o. o.meta) (key_object key.entry))) }
        ensures prefixes { OnOk result (self.new.prefixes.items ≡ self.old.prefixes.items ++ (if is_prefix key.entry then key_text key.entry ∷ [] else [])) }
    {
        match key {
            Key::Name(_, object) => push_item(alloc, &mut self.items, object),
            Key::Prefix(text, object) => {
                if let Some(object) = object {
                    push_item(alloc, &mut self.items, object)?;
                }
                self.prefixes.reserve(1)?;
                self.prefixes.push(text);
                Ok(())
            }
        }
    }
}

fn push_item(alloc: Global, items: &mut Row<Meta>, object: &Object) -> Result<(), NoMemory>
    ensures ok { OnOk result (items.new.items ≡ items.old.items ++ object.now.meta ∷ []) }
{
    let meta = object.meta.copy(alloc)?;
    items.reserve(1)?;
    items.push(meta);
    Ok(())
}

impl Key<'_> {
    fn copy_text(&self, alloc: Global) -> Result<Text, NoMemory>
        ensures ok { IfOk result (λ text. text ≡ key_text self.now) }
    {
        match self {
            Key::Name(name, _) => name.copy(alloc),
            Key::Prefix(text, _) => text.copy(alloc),
        }
    }
}
