//! Where a store keeps a job (Flux RFC 16 and 19).
ghost use Rattle.std.specs.Prelude.{◌≡◌, ◌∷◌, ◌++◌, ◌≤◌, List, ℕ, [], length, IfOk};
ghost use Rattle.kvs_txn.specs.Keys.{IsComponent, IsKey};
ghost use Rattle.kvs_txn.specs.Words.{path_text};
ghost use Rattle.manager_rules.specs.Keys.{job_path, log_path, r_path, spec_path};

use fluid_ids::Form;
use kvs_txn::words::keys_are_read_again;
use kvs_txn::{Path, PathFault};
use lists::Bytes;
use std::alloc::{AllocError, Global};

/// The key with this text.
fn read_key(alloc: Global, text: Bytes) -> Result<Path, AllocError>
    requires { (path : List (List ℕ)) × IsKey path × (text ≡ path_text path) }
    ensures { IfOk result (λ path. (key : List (List ℕ)) → IsKey key → text ≡ path_text key
        → path ≡ key) }
{
    keys_are_read_again();
    let text = String::from_utf8(text.into_vec()).unwrap();
    match Path::read(alloc, text.as_str()) {
        Ok(path) => Ok(path),
        Err(PathFault::NoMemory) => Err(AllocError),
        Err(PathFault::TooLong) | Err(PathFault::TooDeep) => unreachable!(),
    }
}

/// The key of this name in the directory of a job.
fn key(alloc: Global, id: u64, name: &[u8]) -> Result<Path, AllocError>
    requires name { IsComponent name.now }
    requires short { length name.now ≤ 8 }
    ensures { IfOk result (λ path. path ≡ job_path id ++ name.now ∷ []) }
{
    let mut text = Bytes::of(alloc, b"job.")?;
    let id = fluid_ids::print(alloc, id, Form::Dothex)?;
    text.add(id.as_slice())?;
    text.add(b".")?;
    text.add(name)?;
    read_key(alloc, text)
}

/// Where the jobspec of a job stands.
pub fn spec_path(alloc: Global, id: u64) -> Result<Path, AllocError>
    ensures { IfOk result (λ path. path ≡ spec_path id) }
{
    key(alloc, id, b"jobspec")
}

/// Where the resources of a job stand.
pub fn r_path(alloc: Global, id: u64) -> Result<Path, AllocError>
    ensures { IfOk result (λ path. path ≡ r_path id) }
{
    key(alloc, id, b"R")
}

/// Where the log of a job stands.
pub fn log_path(alloc: Global, id: u64) -> Result<Path, AllocError>
    ensures { IfOk result (λ path. path ≡ log_path id) }
{
    key(alloc, id, b"eventlog")
}
