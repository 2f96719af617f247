//! Names with their pages, in a `BTreeMap`.

ghost use Rattle.std.specs.Prelude.{◌≡◌, ◌≢◌, None, IfSome, IfNone, IfOk, IsOk, OnOk, OnErr};
ghost use Rattle.sled_node.specs.Pairs.{IsAscending};
ghost use Rattle.sled_node.specs.Meta.{named_pages, root_of, with_root, without_root};

use sled_base::PageId;
use std::alloc::AllocError;
use std::collections::BTreeMap;
use std::mem::replace;

// The page of a name, if the name is there.
pub fn root_of(pages: &BTreeMap<Vec<u8>, PageId>, name: &[u8]) -> Option<PageId>
    ensures { result ≡ root_of name.now (named_pages pages.now) }
{
    pages.get(name).copied()
}

// Gives a name its page, and answers the page that it had before. A name that is there takes no memory.
pub fn put_page(
    pages: &mut BTreeMap<Vec<u8>, PageId>,
    name: Vec<u8>,
    page: PageId,
) -> Result<Option<PageId>, AllocError>
    requires ascending { IsAscending (named_pages pages.old) }
    ensures former { IfOk result (λ former. former ≡ root_of name.items (named_pages pages.old)) }
    ensures ok { OnOk result
        (named_pages pages.new ≡ with_root name.items page (named_pages pages.old)) }
    ensures err { OnErr result (named_pages pages.new ≡ named_pages pages.old) }
    ensures there { root_of name.items (named_pages pages.old) ≢ None → IsOk result }
{
    let former = pages.insert(name, page)?;
    Ok(former)
}

// Gives a name that is there another page, and answers the page that it had before. It takes no memory.
pub fn replace_page(
    pages: &mut BTreeMap<Vec<u8>, PageId>,
    name: &[u8],
    page: PageId,
) -> Option<PageId>
    requires ascending { IsAscending (named_pages pages.old) }
    ensures former { result ≡ root_of name.now (named_pages pages.old) }
    ensures there { IfSome result
        (λ _. named_pages pages.new ≡ with_root name.now page (named_pages pages.old)) }
    ensures missing { IfNone result (named_pages pages.new ≡ named_pages pages.old) }
{
    match pages.get_mut(name) {
        Some(former) => Some(replace(former, page)),
        None => None,
    }
}

// Takes a name out, and answers the page that it had, if the name was there.
pub fn take_page(pages: &mut BTreeMap<Vec<u8>, PageId>, name: &[u8]) -> Option<PageId>
    requires ascending { IsAscending (named_pages pages.old) }
    ensures former { result ≡ root_of name.now (named_pages pages.old) }
    ensures value { named_pages pages.new ≡ without_root name.now (named_pages pages.old) }
{
    pages.remove(name)
}
