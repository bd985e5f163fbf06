//! Directories that stay decoded from one transaction to the next.
ghost use Rattle.std.specs.Prelude.{◌≡◌, ◌<◌, ◌≤◌, [], Ok, IfSome, length};
ghost use Rattle.tree_objects.specs.Reading.{Gives};
ghost use Rattle.tree_objects.specs.declared.object.Object.TheVariants as object;
ghost use Rattle.tree_store.specs.Kept.{most_kept};

use fl_digest::BlobRef;
use lists::Bytes;
use std::alloc::{AllocError, Global};
use std::marker::Model;
use tree_objects::ObjectMap;

/// The most directories that stay decoded.
const MOST_KEPT: usize = 32;

/// A directory beside its text, which is found by its reference.
#[derive(Drop)]
struct Decoded {
    reference: BlobRef,
    text: Bytes,
    directory: ObjectMap,
}

impl Model for Decoded {
    ghost use Rattle.std.specs.Prelude.{List, ℕ};
    ghost use Rattle.tree_rules.specs.Objects.{Entries};
    ghost use Rattle.tree_store.specs.Kept.{IsDecoded};

    ghost Value = { List ℕ × Entries };

    ghost use Rattle.tree_store.specs.Codes.{decoded_code};

    ghost coded = { decoded_code };

    ghost view = { λ d. (d.text, d.directory) };

    ghost invariant = { λ d. IsDecoded (d.text, d.directory) };
}

/// Directories that stay decoded, which contracts see as a list of texts with what they tell, the
/// one that was kept first at the head.
#[derive(Drop)]
pub struct Kept {
    directories: Vec<Decoded>,
}

impl Model for Kept {
    ghost use Rattle.std.specs.Prelude.{List, ℕ, ◌≤◌, length};
    ghost use Rattle.tree_rules.specs.Objects.{Entries};
    ghost use Rattle.tree_store.specs.Kept.{most_kept};

    ghost Value = { List (List ℕ × Entries) };

    ghost use Rattle.tree_store.specs.Codes.{kept_code};

    ghost coded = { kept_code };

    ghost view = { λ k. k.directories.items };

    ghost invariant = { λ k. length k.directories.items ≤ most_kept };
}

impl Kept {
    /// No directories.
    pub fn new(alloc: Global) -> Kept
        ensures { result ≡ [] }
    {
        Kept {
            directories: Vec::new(alloc),
        }
    }

    /// There are 32 directories at most.
    pub fn are_few(&self)
        ensures { length self.now ≤ most_kept }
    {
        let _directories = &self.directories;
    }

    /// Where a directory is kept whose text has the reference.
    fn place_of(&self, reference: &BlobRef) -> Option<usize>
        ensures { IfSome result (λ place. place < length self.now) }
    {
        for place in 0..self.directories.len() {
            if self.directories[place].reference == *reference {
                return Some(place);
            }
        }
        None
    }

    /// Takes out the directory with this text, whose reference is given, if it is kept.
    pub fn take(&mut self, reference: &BlobRef, text: &Bytes) -> Option<ObjectMap>
        ensures { IfSome result (λ es. Gives text.now (Ok (object.Dir es))) }
    {
        let place = self.place_of(reference)?;
        let found = self.directories.remove(place);
        if found.text == *text {
            return Some(found.directory);
        }
        None
    }

    /// Keeps a directory beside its text, in the place of the one that was kept first where there
    /// are 32.
    pub fn put(
        &mut self,
        reference: BlobRef,
        text: Bytes,
        directory: ObjectMap,
    ) -> Result<(), AllocError>
        requires { Gives text (Ok (object.Dir directory)) }
    {
        self.directories.reserve(1)?;
        if MOST_KEPT <= self.directories.len() {
            let _first = self.directories.remove(0);
        }
        self.directories.push_reserved(Decoded {
            reference,
            text,
            directory,
        });
        Ok(())
    }
}
