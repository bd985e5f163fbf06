//! Roots of stores, which are references with numbers (Flux RFC 10).
use fl_digest::{BlobRef, Hash, Root};
use lists::Copied;
use std::test::Fail;

#[test]
fn roots_are_copied(rt: HostRuntime) -> Result<(), Fail> {
    let root = Root {
        reference: BlobRef::of(Hash::Sha256, b"abc"),
        number: 7,
    };
    assert_eq!(rt; root.copy()?, root);
    Ok(())
}
