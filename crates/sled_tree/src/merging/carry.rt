//! The steps that merge two neighbours into one node.

ghost use Rattle.std.specs.Prelude.{◌≡◌};
ghost use Rattle.sled_pagecache.specs.State.{pid_of};
ghost use Rattle.sled_tree.specs.Maps.{Keeps};
ghost use Rattle.sled_tree.specs.Merging.{HasPlan};
ghost use Rattle.sled_tree.specs.Performs.{Performs};

use super::plan::{Neighbours, Plan};
use crate::freeing::free_all;
use crate::splits::put;
use sled_pagecache::{Error, Log, PageCache, PageId};

/// Writes the index without the right neighbour, then both neighbours as one node on the left one's page, and then frees the right one's page.
pub fn carry_out<L: Log>(
    cache: &mut PageCache<L>,
    root: PageId,
    above: PageId,
    neighbours: Neighbours,
    plan: Plan,
) -> Result<(), Error>
    requires above { pid_of plan.above.token ≡ above }
    requires left { pid_of plan.left.token ≡ neighbours.left }
    requires right { pid_of plan.right ≡ neighbours.right }
    ensures { Performs L.Log (Keeps (HasPlan root above neighbours plan)) cache.old cache.new }
{
    put(cache, above, plan.above.token, plan.above.node)?;
    put(cache, neighbours.left, plan.left.token, plan.left.node)?;
    free_all(cache, &[plan.right]);
    Ok(())
}
