//! A clean content.
ghost use Rattle.std.specs.Prelude.{◌≡◌, length};
ghost use Rattle.cache_node.specs.Order.{unpinned, pinned, released, is_pinned, unpinned_size};

use lists::Bytes;

/// A clean content, and how often it is pinned.
#[derive(Drop)]
pub struct Held {
    pub bytes: Bytes,
    pub pins: u64,
}

impl Held {
    /// A content that nobody has pinned.
    pub(crate) fn new(bytes: Bytes) -> Held
        ensures { result ≡ unpinned bytes }
    {
        Held { bytes, pins: 0 }
    }

    /// The number of its bytes.
    pub(crate) fn size(&self) -> u64
        ensures { result ≡ length self.now.bytes }
    {
        self.bytes.as_slice().len() as u64
    }

    pub(crate) fn is_pinned(&self) -> bool
        ensures { result ≡ is_pinned self.now }
    {
        0 < self.pins
    }

    /// The bytes that count for the limit.
    pub(crate) fn unpinned_size(&self) -> u64
        ensures { result ≡ unpinned_size self.now }
    {
        if self.is_pinned() { 0 } else { self.size() }
    }

    /// Pins it once more. The last count stays for good.
    pub(crate) fn pin(&mut self)
        ensures { self.new ≡ pinned self.old }
    {
        self.pins = self.pins.saturating_add(1);
    }

    /// Takes a pin back, if there is one.
    pub(crate) fn release(&mut self)
        ensures { self.new ≡ released self.old }
    {
        if 0 < self.pins && self.pins < u64::MAX {
            self.pins -= 1;
        }
    }
}
