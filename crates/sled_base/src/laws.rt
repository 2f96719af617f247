//! Laws of the definitions that contracts cite.

ghost use Rattle.std.specs.Prelude.{◌≡◌};
ghost use Rattle.sled_base.specs.Limits.{inline_limit, shard_count};

use crate::ivec::CUTOFF;
use crate::lru::SHARDS;

/// Proves that the constants of the crate are the numbers of the definitions.
pub fn constants_are_the_numbers()
    ensures inline { CUTOFF ≡ inline_limit }
    ensures shards { SHARDS ≡ shard_count }
{}
