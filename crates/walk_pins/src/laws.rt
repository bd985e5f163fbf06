//! What pins and their end do to the counts.
ghost use Rattle.std.specs.Prelude.{◌≡◌, ℕ, ◌+◌, ◌-◌, ◌<◌, ◌≤◌, ◌^◌, List, Contains, IsSome};
ghost use Rattle.fl_digest.specs.declared.BlobRef.{BlobRef};
ghost use Rattle.cache_node.specs.Cache.{Cache, clean_at};
ghost use Rattle.tree_walk.specs.Pins.{IsOnce};
ghost use Rattle.tree_walk.specs.Walks.{with_pins, without_pins};
ghost use Rattle.walk_pins.specs.Pins.{pins_at, times};

/// A content is pinned once more for each time that it is pinned, where the contents are clean and
/// the count has room; and once less for each time that it is unpinned, where it was pinned so
/// often and its count isn't the last one. The clean contents stay. Among references none of which
/// stands twice it stands once at most.
pub fn pins_are_counted()
    ensures pinned { (references : List BlobRef) (cache : Cache) (r : BlobRef)
        → ((q : BlobRef) → Contains references q → IsSome (clean_at q cache))
        → pins_at r cache + times r references < 2 ^ 64
        → pins_at r (with_pins references cache) ≡ pins_at r cache + times r references }
    ensures released { (references : List BlobRef) (cache : Cache) (r : BlobRef)
        → times r references ≤ pins_at r cache → pins_at r cache < 2 ^ 64 - 1
        → pins_at r (without_pins references cache) ≡ pins_at r cache - times r references }
    ensures kept { (references : List BlobRef) (cache : Cache) (r : BlobRef)
        → clean_at r (with_pins references cache) ≡ clean_at r cache }
    ensures left { (references : List BlobRef) (cache : Cache) (r : BlobRef)
        → clean_at r (without_pins references cache) ≡ clean_at r cache }
    ensures once { (references : List BlobRef) (r : BlobRef) → IsOnce references
        → times r references ≤ 1 }
{}
