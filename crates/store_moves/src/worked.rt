//! The result of a command, and the properties of its page that the result depends on.
ghost use Rattle.std.specs.Prelude.{◌≡◌, ◌+◌, ◌<◌, [], IfSome, IfNone, Some, None};
ghost use Rattle.std.specs.Option.{option_map};
ghost use Rattle.sdbm_addr.specs.Pairs.{IsPlace, value_of};
ghost use Rattle.store_moves.specs.Works.{change_of, pairs_lent};

use sdbm_addr::{KeyBytes, PageSize};
use sdbm_dir::Place;
use sdbm_page::{Page, SharedPage};
use sdbm_split::Plan;
use std::alloc::Allocator;
use store_cmd::Reply;

/// The result of a command: its reply, and the change of its page, if any.
#[derive(Drop)]
pub struct Worked<A: Allocator> {
    pub reply: Reply<A>,
    pub change: Option<Plan<A>>,
}

/// The site of a page: its place, and the hash kind and page size of its database.
#[derive(Clone, Copy)]
pub struct Site {
    pub place: Place,
    pub kind: KeyBytes,
    pub size: PageSize,
}

// The page and the index of a key's pair, or `None` if the key does not exist.
pub(crate) fn pair_of<'p, A: Allocator>(
    page: Option<&'p Page<A>>,
    key: &[u8],
) -> Option<(&'p Page<A>, usize)>
    ensures page { IfSome result (λ found. page.entry ≡ Some found.0) }
    ensures place { IfSome result (λ found. IsPlace found.0.now.pairs key.now found.1) }
    ensures absent { IfNone result (value_of (pairs_lent page.entry) key.now ≡ None) }
{
    let Some(page) = page else {
        return None;
    };
    match page.find(key) {
        Some(i) => Some((page, i)),
        None => None,
    }
}

// The result with this reply and without a change of the page.
pub(crate) fn unchanged<A: Allocator>(reply: Reply<A>) -> Worked<A>
    ensures reply { result.reply ≡ reply }
    ensures change { result.change ≡ None }
{
    Worked {
        reply,
        change: None,
    }
}

// The result with this reply and this page, without a split.
pub(crate) fn changed<A: Allocator + Copy>(
    alloc: A,
    reply: Reply<A>,
    leaf: SharedPage<A>,
) -> Worked<A>
    ensures reply { result.reply ≡ reply }
    ensures change { option_map change_of result.change ≡ Some (record { leaf = leaf; twins = []; bits = [] }) }
{
    let change = Plan {
        leaf,
        twins: Vec::new(alloc),
        bits: Vec::new(alloc),
    };
    Worked {
        reply,
        change: Some(change),
    }
}
