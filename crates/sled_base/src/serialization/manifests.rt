//! The encoding of what the mark of a batch holds.

ghost use Rattle.std.specs.Prelude.{◌≡◌};
ghost use Rattle.sled_base.specs.Payloads.Manifests.{place_in, ReadsManifest, written_manifest, CanWriteManifest};
ghost use Rattle.sled_base.specs.Payloads.Reading.{AsksNever};
ghost use Rattle.sled_base.specs.Payloads.ManifestLaws.{Manifest-grammar};
ghost use Rattle.sled_base.specs.Payloads.ReadingLaws.{some_taken};

use super::Serialize;
use crate::types::{BatchManifest, Error, Lsn};
use std::alloc::Global;

impl Serialize for BatchManifest {
    ghost reads = { ReadsManifest };

    ghost asks = { AsksNever };

    ghost written = { written_manifest };

    ghost can_write = { CanWriteManifest };

    ghost least_size = { 8 };

    ghost grammar = { Manifest-grammar };

    ghost takes = { some_taken Manifest-grammar };

    fn serialized_size(&self) -> u64 {
        self.0.serialized_size()
    }

    fn serialize_into(&self, out: &mut [u8]) -> usize {
        self.0.serialize_into(out)
    }

    fn deserialize(alloc: Global, input: &mut &[u8]) -> Result<BatchManifest, Error> {
        Ok(mark_of(i64::deserialize(alloc, input)?))
    }
}

// The mark that holds this place.
fn mark_of(place: Lsn) -> BatchManifest
    ensures { place_in result ≡ place }
{
    BatchManifest(place)
}
