//! The words that both texts of a picture show.

use crate::picture::{Cell, JobSign, Place};
use fluid_ids::Form;
use itoa::Buffer;
use lists::{Bytes, Copied};
use std::alloc::{AllocError, Global};

/// Adds a number.
pub fn digits(text: &mut Bytes, number: u64) -> Result<(), AllocError> {
    let mut buffer = Buffer::new();
    text.add(buffer.format(number).as_bytes())
}

/// Adds the sign of the job at a place of the legend: `a` to `z`, and behind these `a1` to `z1` and
/// so on.
pub fn sign(text: &mut Bytes, place: usize) -> Result<(), AllocError> {
    text.push(b'a' + (place % 26) as u8)?;
    if 26 <= place {
        digits(text, (place / 26) as u64)?;
    }
    Ok(())
}

/// Where a job stands in the legend.
pub fn place_in(jobs: &[JobSign], id: u64) -> usize {
    jobs.partition_point(|job| job.id < id)
}

/// The text of a cell: the signs of its jobs with `+` between them, or a dot where it has none.
pub fn cell_text(alloc: Global, jobs: &[JobSign], cell: &Cell) -> Result<Bytes, AllocError> {
    let mut text = Bytes::new(alloc);
    for id in cell.as_slice() {
        if !text.as_slice().is_empty() {
            text.push(b'+')?;
        }
        sign(&mut text, place_in(jobs, *id))?;
    }
    if text.as_slice().is_empty() {
        text.push(b'.')?;
    }
    Ok(text)
}

/// The text of what a broker has heard: a number, or a dash where it has heard of none.
pub fn heard_text(alloc: Global, heard: Option<u64>) -> Result<Bytes, AllocError> {
    let mut text = Bytes::new(alloc);
    match heard {
        Some(number) => digits(&mut text, number)?,
        None => text.push(b'-')?,
    }
    Ok(text)
}

/// The text of a number.
pub fn number_text(alloc: Global, number: u64) -> Result<Bytes, AllocError> {
    let mut text = Bytes::new(alloc);
    digits(&mut text, number)?;
    Ok(text)
}

/// The name of a row: a host, or a host and one of its units.
pub fn place_text(place: &Place) -> Result<Bytes, AllocError> {
    let mut text = place.host.copy()?;
    if let Some(unit) = place.unit {
        text.add(if unit.is_gpu {
            b"/gpu".as_slice()
        } else {
            b"/core".as_slice()
        })?;
        digits(&mut text, u64::from(unit.id))?;
    }
    Ok(text)
}

/// Adds a job of the legend: its label, its id and its state.
pub fn add_job(alloc: Global, text: &mut Bytes, job: &JobSign) -> Result<(), AllocError> {
    text.add(job.label.as_slice())?;
    text.push(b' ')?;
    text.add(&fluid_ids::print(alloc, job.id, Form::F58)?)?;
    text.push(b' ')?;
    text.add(job.state.name().as_bytes())
}

/// The title of an instance: its number, and of a child its parent's, with the job for which it was
/// born.
pub fn title(alloc: Global, number: u32, born: Option<(u32, u64)>) -> Result<Bytes, AllocError> {
    let mut text = Bytes::of(alloc, b"instance ")?;
    digits(&mut text, u64::from(number))?;
    if let Some((parent, job)) = born {
        text.add(b", of job ")?;
        text.add(&fluid_ids::print(alloc, job, Form::F58)?)?;
        text.add(b" in instance ")?;
        digits(&mut text, u64::from(parent))?;
    }
    Ok(text)
}
