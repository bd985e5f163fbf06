//! A picture as a page of SVG.

use crate::picture::{Cell, JobSign, Picture, Scene};
use crate::signs::{add_job, digits, heard_text, number_text, place_in, place_text, sign, title};
use lists::Bytes;
use std::alloc::{AllocError, Global};

/// How high a row is, how wide a column and how wide the names, in pixels.
const ROW: u64 = 24;

const COLUMN: u64 = 56;

const NAMES: u64 = 160;

/// The colour of what no job holds, and those of jobs in turn.
const FREE: &str = "#f2f2f2";

const COLOURS: [&str; 12] = [
    "#8dd3c7", "#ffed6f", "#bebada", "#fb8072", "#80b1d3", "#fdb462", "#b3de69", "#fccde5",
    "#d9d9d9", "#bc80bd", "#ccebc5", "#ffffb3",
];

/// The colour of the job at a place of the legend.
fn colour(place: usize) -> &'static str {
    COLOURS[place % 12]
}

/// A place on a page, and how wide it is.
#[derive(Clone, Copy, Debug, PartialEq, Eq)]
struct Area {
    x: u64,
    y: u64,
    wide: u64,
}

/// Where the cell of a row's column stands.
fn area_at(y: u64, column: usize) -> Area {
    Area {
        x: NAMES.saturating_add(COLUMN.saturating_mul(column as u64)),
        y,
        wide: COLUMN,
    }
}

/// The part of an area that one of so many has.
fn part_of(area: Area, place: usize, count: usize) -> Area {
    let wide = area.wide / (count as u64).max(1);
    Area {
        x: area.x.saturating_add(wide.saturating_mul(place as u64)),
        y: area.y,
        wide,
    }
}

/// Adds an attribute with a number.
fn attribute(text: &mut Bytes, name: &[u8], value: u64) -> Result<(), AllocError> {
    text.push(b' ')?;
    text.add(name)?;
    text.add(b"=\"")?;
    digits(text, value)?;
    text.push(b'"')
}

/// Adds a text, in which the marks of SVG are written as it asks for.
fn add_escaped(text: &mut Bytes, bytes: &[u8]) -> Result<(), AllocError> {
    for byte in bytes {
        match *byte {
            b'&' => text.add(b"&amp;")?,
            b'<' => text.add(b"&lt;")?,
            b'>' => text.add(b"&gt;")?,
            other => text.push(other)?,
        }
    }
    Ok(())
}

/// Adds a box of a colour.
fn fill(page: &mut Bytes, area: Area, colour: &str) -> Result<(), AllocError> {
    page.add(b"<rect")?;
    attribute(page, b"x", area.x)?;
    attribute(page, b"y", area.y)?;
    attribute(page, b"width", area.wide)?;
    attribute(page, b"height", ROW)?;
    page.add(b" fill=\"")?;
    page.add(colour.as_bytes())?;
    page.add(b"\" stroke=\"#ffffff\"/>\n")
}

/// Adds a text at the left of an area.
fn write(page: &mut Bytes, area: Area, words: &[u8]) -> Result<(), AllocError> {
    page.add(b"<text")?;
    attribute(page, b"x", area.x)?;
    attribute(page, b"y", area.y.saturating_add(16))?;
    page.push(b'>')?;
    add_escaped(page, words)?;
    page.add(b"</text>\n")
}

/// Adds a text in the middle of an area.
fn write_within(page: &mut Bytes, area: Area, words: &[u8]) -> Result<(), AllocError> {
    page.add(b"<text text-anchor=\"middle\"")?;
    attribute(page, b"x", area.x.saturating_add(area.wide / 2))?;
    attribute(page, b"y", area.y.saturating_add(16))?;
    page.push(b'>')?;
    add_escaped(page, words)?;
    page.add(b"</text>\n")
}

/// Adds the box of a job.
fn add_box(alloc: Global, page: &mut Bytes, area: Area, place: usize) -> Result<(), AllocError> {
    let mut name = Bytes::new(alloc);
    sign(&mut name, place)?;
    fill(page, area, colour(place))?;
    write_within(page, area, name.as_slice())
}

/// Adds a cell: a box for each of its jobs, beside one another.
fn add_cell(
    alloc: Global,
    page: &mut Bytes,
    area: Area,
    jobs: &[JobSign],
    cell: &Cell,
) -> Result<(), AllocError> {
    let ids = cell.as_slice();
    if ids.is_empty() {
        return fill(page, area, FREE);
    }
    for (place, id) in ids.iter().enumerate() {
        add_box(
            alloc,
            page,
            part_of(area, place, ids.len()),
            place_in(jobs, *id),
        )?;
    }
    Ok(())
}

/// Adds the name of a row.
fn add_name(page: &mut Bytes, y: u64, name: &[u8]) -> Result<(), AllocError> {
    write(
        page,
        Area {
            x: 8,
            y,
            wide: NAMES,
        },
        name,
    )
}

/// Adds the seconds of an instance.
fn add_seconds(alloc: Global, page: &mut Bytes, y: u64, scene: &Scene) -> Result<(), AllocError> {
    add_name(page, y, b"second")?;
    for (place, column) in scene.columns.as_slice().iter().enumerate() {
        let words = number_text(alloc, column.second)?;
        write_within(page, area_at(y, place), words.as_slice())?;
    }
    Ok(())
}

/// Adds the row of a place.
fn add_place(
    alloc: Global,
    page: &mut Bytes,
    y: u64,
    scene: &Scene,
    at: usize,
) -> Result<(), AllocError> {
    for (place, column) in scene.columns.as_slice().iter().enumerate() {
        if let Some(cell) = column.cells.as_slice().get(at) {
            add_cell(alloc, page, area_at(y, place), scene.jobs.as_slice(), cell)?;
        }
    }
    Ok(())
}

/// Adds the row of a broker.
fn add_broker(
    alloc: Global,
    page: &mut Bytes,
    y: u64,
    scene: &Scene,
    at: usize,
) -> Result<(), AllocError> {
    let mut name = Bytes::of(alloc, b"broker ")?;
    digits(&mut name, at as u64)?;
    add_name(page, y, name.as_slice())?;
    for (place, column) in scene.columns.as_slice().iter().enumerate() {
        if let Some(heard) = column.brokers.as_slice().get(at) {
            let words = heard_text(alloc, *heard)?;
            write_within(page, area_at(y, place), words.as_slice())?;
        }
    }
    Ok(())
}

/// Adds the rows of an instance from this height on, and gives the height behind them.
fn add_rows(alloc: Global, page: &mut Bytes, from: u64, scene: &Scene) -> Result<u64, AllocError> {
    let mut y = from;
    for (at, place) in scene.places.as_slice().iter().enumerate() {
        add_name(page, y, place_text(place)?.as_slice())?;
        add_place(alloc, page, y, scene, at)?;
        y = y.saturating_add(ROW);
    }
    let columns = scene.columns.as_slice();
    let brokers = columns
        .first()
        .map_or(0, |column| column.brokers.as_slice().len());
    for at in 0..brokers {
        add_broker(alloc, page, y, scene, at)?;
        y = y.saturating_add(ROW);
    }
    Ok(y)
}

/// Adds the legend of an instance from this height on, and gives the height behind it.
fn add_legend(
    alloc: Global,
    page: &mut Bytes,
    from: u64,
    jobs: &[JobSign],
) -> Result<u64, AllocError> {
    let mut y = from;
    for (place, job) in jobs.iter().enumerate() {
        let mark = Area {
            x: 8,
            y,
            wide: COLUMN,
        };
        add_box(alloc, page, mark, place)?;
        let mut words = Bytes::new(alloc);
        add_job(alloc, &mut words, job)?;
        let beside = Area {
            x: COLUMN.saturating_add(16),
            y,
            wide: NAMES,
        };
        write(page, beside, words.as_slice())?;
        y = y.saturating_add(ROW);
    }
    Ok(y)
}

/// Adds an instance from this height on, and gives the height behind it.
fn add_scene(alloc: Global, page: &mut Bytes, from: u64, scene: &Scene) -> Result<u64, AllocError> {
    add_name(
        page,
        from,
        title(alloc, scene.number, scene.born)?.as_slice(),
    )?;
    let seconds = from.saturating_add(ROW);
    add_seconds(alloc, page, seconds, scene)?;
    let legend = add_rows(alloc, page, seconds.saturating_add(ROW), scene)?;
    let end = add_legend(alloc, page, legend.saturating_add(8), scene.jobs.as_slice())?;
    Ok(end.saturating_add(ROW))
}

/// How wide the page of a picture is: as wide as its longest row, and wide enough for a legend.
fn width_of(picture: &Picture) -> u64 {
    let mut columns = 6;
    for scene in picture.as_slice() {
        columns = columns.max(scene.columns.as_slice().len());
    }
    area_at(0, columns).x
}

/// The picture as a page of SVG: for each instance its rows, and below them its legend.
pub fn svg(alloc: Global, picture: &Picture) -> Result<Vec<u8>, AllocError> {
    let mut body = Bytes::new(alloc);
    let mut y = 0;
    for scene in picture.as_slice() {
        y = add_scene(alloc, &mut body, y, scene)?;
    }
    let mut page = Bytes::of(alloc, b"<svg xmlns=\"http://www.w3.org/2000/svg\"")?;
    attribute(&mut page, b"width", width_of(picture))?;
    attribute(&mut page, b"height", y)?;
    page.add(b" font-family=\"sans-serif\" font-size=\"13\">\n")?;
    page.add(b"<rect width=\"100%\" height=\"100%\" fill=\"#ffffff\"/>\n")?;
    page.add(body.as_slice())?;
    page.add(b"</svg>\n")?;
    Ok(page.into_vec())
}
