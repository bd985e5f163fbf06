//! A picture as a text: a table for each instance, and its legend.

use crate::picture::{Column, Picture, Scene};
use crate::signs::{add_job, cell_text, digits, heard_text, number_text, place_text, sign, title};
use lists::{Bytes, ListOf};
use std::alloc::{AllocError, Global};

/// A row of a table: its words, the first of which is its name.
type Words = ListOf<Bytes>;

/// The row of the seconds.
fn seconds(alloc: Global, scene: &Scene) -> Result<Words, AllocError> {
    let mut words = Words::new(alloc);
    words.push(Bytes::of(alloc, b"second")?)?;
    for column in scene.columns.as_slice() {
        words.push(number_text(alloc, column.second)?)?;
    }
    Ok(words)
}

/// The row of the place of this number.
fn place_row(alloc: Global, scene: &Scene, at: usize, name: Bytes) -> Result<Words, AllocError> {
    let mut words = Words::new(alloc);
    words.push(name)?;
    for column in scene.columns.as_slice() {
        if let Some(cell) = column.cells.as_slice().get(at) {
            words.push(cell_text(alloc, scene.jobs.as_slice(), cell)?)?;
        }
    }
    Ok(words)
}

/// The row of the broker of this number.
fn broker_row(alloc: Global, columns: &[Column], at: usize) -> Result<Words, AllocError> {
    let mut words = Words::new(alloc);
    let mut name = Bytes::of(alloc, b"broker ")?;
    digits(&mut name, at as u64)?;
    words.push(name)?;
    for column in columns {
        if let Some(heard) = column.brokers.as_slice().get(at) {
            words.push(heard_text(alloc, *heard)?)?;
        }
    }
    Ok(words)
}

/// All rows of an instance.
fn rows(alloc: Global, scene: &Scene) -> Result<Vec<Words>, AllocError> {
    let mut rows = Vec::new(alloc);
    rows.push(seconds(alloc, scene)?)?;
    for (at, place) in scene.places.as_slice().iter().enumerate() {
        rows.push(place_row(alloc, scene, at, place_text(place)?)?)?;
    }
    let columns = scene.columns.as_slice();
    let brokers = columns
        .first()
        .map_or(0, |column| column.brokers.as_slice().len());
    for at in 0..brokers {
        rows.push(broker_row(alloc, columns, at)?)?;
    }
    Ok(rows)
}

/// How wide the widest word in a place of the rows is.
fn width_of(rows: &[Words], at: usize) -> usize {
    let mut width = 0;
    for row in rows {
        if let Some(word) = row.as_slice().get(at) {
            width = width.max(word.as_slice().len());
        }
    }
    width
}

/// How wide each place of the rows is.
fn widths_of(alloc: Global, rows: &[Words]) -> Result<Vec<usize>, AllocError> {
    let mut widths = Vec::new(alloc);
    let count = rows.first().map_or(0, |row| row.as_slice().len());
    for at in 0..count {
        widths.push(width_of(rows, at))?;
    }
    Ok(widths)
}

/// Adds spaces.
fn add_spaces(text: &mut Bytes, count: usize) -> Result<(), AllocError> {
    for _ in 0..count {
        text.push(b' ')?;
    }
    Ok(())
}

/// Adds a row: its name at the left, the others at the right of their widths.
fn add_row(text: &mut Bytes, row: &Words, widths: &[usize]) -> Result<(), AllocError> {
    let mut spaces = 0;
    for (at, word) in row.as_slice().iter().enumerate() {
        let word = word.as_slice();
        let width = widths.get(at).copied().unwrap_or(0);
        let left = width.saturating_sub(word.len());
        if at == 0 {
            text.add(word)?;
            spaces = left;
        } else {
            add_spaces(text, spaces.saturating_add(left).saturating_add(2))?;
            text.add(word)?;
            spaces = 0;
        }
    }
    text.push(b'\n')
}

/// Adds an instance.
fn add_scene(alloc: Global, text: &mut Bytes, scene: &Scene) -> Result<(), AllocError> {
    text.add(title(alloc, scene.number, scene.born)?.as_slice())?;
    text.push(b'\n')?;
    let rows = rows(alloc, scene)?;
    let widths = widths_of(alloc, &rows)?;
    for row in &rows {
        add_row(text, row, &widths)?;
    }
    for (place, job) in scene.jobs.as_slice().iter().enumerate() {
        sign(text, place)?;
        text.add(b" = ")?;
        add_job(alloc, text, job)?;
        text.push(b'\n')?;
    }
    Ok(())
}

/// The picture as a text, with an empty line between two instances.
pub fn text(alloc: Global, picture: &Picture) -> Result<Vec<u8>, AllocError> {
    let mut text = Bytes::new(alloc);
    for (place, scene) in picture.as_slice().iter().enumerate() {
        if 0 < place {
            text.push(b'\n')?;
        }
        add_scene(alloc, &mut text, scene)?;
    }
    Ok(text.into_vec())
}
