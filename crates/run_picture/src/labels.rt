//! The labels under which jobs are submitted.

use kvs_txn::By;
use lists::{Bytes, Copied, ListOf};
use std::alloc::{AllocError, Global};
use workload::{Command, Workload};

/// For each actor its commands in order, each with the label of the job that it submits, or none.
pub type Labels = ListOf<ListOf<Bytes>>;

/// The label under which a command submits a job; another has none.
fn label_in(alloc: Global, command: &Command) -> Result<Bytes, AllocError> {
    match command {
        Command::Submit { label, .. } => label.copy(),
        _ => Ok(Bytes::new(alloc)),
    }
}

/// The labels of a workload.
pub fn labels_of(alloc: Global, work: &Workload) -> Result<Labels, AllocError> {
    let mut labels = Vec::new(alloc);
    for _ in work.actors.as_slice() {
        labels.push(ListOf::new(alloc))?;
    }
    for line in work.lines.as_slice() {
        if let Some(row) = labels.get_mut(line.actor as usize) {
            row.push(label_in(alloc, &line.command)?)?;
        }
    }
    Ok(ListOf::from_vec(labels))
}

/// The label of the job that a command submitted.
pub fn label_of(alloc: Global, labels: &Labels, by: Option<&By>) -> Result<Bytes, AllocError> {
    let found = by.and_then(|by| {
        let row = labels.as_slice().get(by.actor as usize)?;
        row.as_slice().get(by.command as usize)
    });
    match found {
        Some(label) => label.copy(),
        None => Ok(Bytes::new(alloc)),
    }
}
