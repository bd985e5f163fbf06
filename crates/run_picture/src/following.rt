//! An instance that is followed through the chronicle of its run.
ghost use Rattle.std.specs.Prelude.{◌≡◌, Some, None, IfOk, OnOk, map, slice_set};
ghost use Rattle.kvs_rules.specs.Namespaces.{is_primary};
ghost use Rattle.run_picture.specs.Follows.{Enters, IsBegun, IsDrawn, KeepGroups, column_of, first_heard, with_column};
ghost use Rattle.run_picture.specs.Rows.{cell_of};

use crate::cells::cells_of;
use crate::drawing::PictureFault;
use crate::jobs::JobRow;
use crate::labels::Labels;
use crate::picture::{Cell, Column, JobSign, Place};
use crate::posts::land_all;
use answers::Entry;
use kvs_txn::Group;
use lists::{Bytes, Copied, ListOf};
use std::alloc::{AllocError, Global};

/// An instance as the chronicle up to some entry has it.
#[derive(Drop)]
pub struct Following {
    /// The second that it is in the run.
    pub second: u64,
    pub lives: bool,
    /// By rising ids.
    pub rows: Vec<JobRow>,
    /// What each broker has heard of `primary`.
    pub heard: Vec<Option<u64>>,
    /// The cells of its places, if nothing has landed since they were drawn.
    pub cells: Option<ListOf<Cell>>,
    pub columns: ListOf<Column>,
}

/// What brokers have heard of `primary` from the start.
fn first_heard(alloc: Global, brokers: u32) -> Result<Vec<Option<u64>>, AllocError>
    ensures { IfOk result (λ heard. heard.items ≡ first_heard brokers) }
{
    Ok(vec![in alloc; Some(0u64); brokers as usize]?)
}

/// Whether a namespace is `primary`.
fn is_primary(namespace: &Bytes) -> bool
    ensures { result ≡ is_primary namespace.now }
{
    namespace.as_slice() == b"primary".as_slice()
}

/// The jobs of the legend.
pub fn signs(alloc: Global, rows: &[JobRow]) -> Result<ListOf<JobSign>, AllocError> {
    let mut jobs = ListOf::new(alloc);
    for row in rows {
        jobs.push(JobSign {
            id: row.id,
            label: row.label.copy()?,
            state: row.job.state,
        })?;
    }
    Ok(jobs)
}

impl Following {
    /// An instance with so many brokers before anything has happened: the top lives.
    pub fn begin(alloc: Global, is_top: bool, brokers: u32) -> Result<Following, AllocError>
        ensures { IfOk result (IsBegun is_top brokers) }
    {
        Ok(Following {
            second: 0,
            lives: is_top,
            rows: Vec::new(alloc),
            heard: first_heard(alloc, brokers)?,
            cells: None,
            columns: ListOf::new(alloc),
        })
    }

    /// Takes in a landing.
    fn land(&mut self, alloc: Global, labels: &Labels, groups: &[Group]) -> Result<(), PictureFault>
        ensures rows { OnOk result
            (KeepGroups self.old.rows.items groups.now self.new.rows.items) }
        ensures rest { OnOk result
            (self.new ≡ record self.old { rows = self.new.rows; cells = None }) }
    {
        land_all(alloc, &mut self.rows, labels, groups)?;
        self.cells = None;
        Ok(())
    }

    /// Takes in what a broker has heard of `primary`.
    fn hear(&mut self, broker: u32, number: u64)
        ensures heard { self.new.heard.items
            ≡ slice_set self.old.heard.items broker (Some number) }
        ensures rest { self.new ≡ record self.old { heard = self.new.heard } }
    {
        let at = broker as usize;
        if at < self.heard.len() {
            self.heard[at] = Some(number);
        }
    }

    /// The cells of this moment: those that were drawn last, if nothing has landed since.
    fn drawn(&self, alloc: Global, places: &[Place]) -> Result<ListOf<Cell>, AllocError>
        ensures { IsDrawn self.now places.now
            → IfOk result (λ cells. cells ≡ map (cell_of self.now.rows.items) places.now) }
    {
        match &self.cells {
            Some(cells) => cells.copy(),
            None => cells_of(alloc, &self.rows, places),
        }
    }

    /// The column of this moment, with these cells.
    fn column(&self, alloc: Global, cells: ListOf<Cell>) -> Result<Column, AllocError>
        ensures { IfOk result (λ column. column ≡ column_of self.now cells) }
    {
        Ok(Column {
            second: self.second,
            cells,
            brokers: ListOf::from_vec(Vec::from_slice(alloc, &self.heard)?),
        })
    }

    /// Adds the column of the second that ends, while the instance lives.
    pub fn end_second(&mut self, alloc: Global, places: &[Place]) -> Result<(), AllocError>
        ensures { IsDrawn self.old places.now
            → OnOk result (self.new ≡ with_column self.old places.now) }
    {
        if !self.lives {
            return Ok(());
        }
        let cells = self.drawn(alloc, places)?;
        let column = self.column(alloc, cells.copy()?)?;
        self.cells = Some(cells);
        self.columns.push(column)
    }

    /// Takes in what happens next in the run, for the instance of this number.
    pub fn enter(
        &mut self,
        alloc: Global,
        labels: &Labels,
        number: u32,
        places: &[Place],
        entry: &Entry,
    ) -> Result<(), PictureFault>
        ensures { OnOk result (Enters number places.now entry.now self.old self.new) }
    {
        match entry {
            Entry::Landed {
                instance,
                namespace,
                groups,
                ..
            } => if *instance == number && is_primary(namespace) {
                self.land(alloc, labels, groups.as_slice())?;
            }
            Entry::Heard {
                instance,
                broker,
                namespace,
                number: root,
            } => if *instance == number && is_primary(namespace) {
                self.hear(*broker, *root);
            }
            Entry::Ticked { second } => {
                self.end_second(alloc, places)?;
                self.second = *second;
            }
            Entry::Born { child, .. } => if *child == number {
                self.lives = true;
            }
            Entry::Gone { child, .. } => if *child == number {
                self.lives = false;
            }
            _ => {}
        }
        Ok(())
    }
}
