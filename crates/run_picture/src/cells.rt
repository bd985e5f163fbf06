//! Which jobs a cell names.
ghost use Rattle.std.specs.Prelude.{◌≡◌, IfOk, map};
ghost use Rattle.std.specs.List.{list_any};
ghost use Rattle.resource_set.specs.Units.{units_of_node};
ghost use Rattle.run_picture.specs.Cells.{is_at};
ghost use Rattle.run_picture.specs.Rows.{cell_of, has_unit, holds_in};

use crate::jobs::JobRow;
use crate::picture::{Cell, HostUnit, Place};
use lists::ListOf;
use resource_set::Node;
use std::alloc::{AllocError, Global};

/// Whether a host has the unit, or one at all.
fn has_unit(unit: Option<HostUnit>, node: &Node) -> bool
    ensures { result ≡ has_unit unit node.now }
{
    match unit {
        None => node.cores.count() != 0 || node.gpus.count() != 0,
        Some(unit) => if unit.is_gpu {
            node.gpus.has(unit.id)
        } else {
            node.cores.has(unit.id)
        }
    }
}

/// Whether a host has a unit at the place.
#[tactic(auto, using(crate::proofs::Units::at_node))]
fn is_at(place: &Place, node: &Node) -> bool
    ensures { result ≡ list_any (is_at place.now) (units_of_node node.now) }
{
    node.host.as_slice() == place.host.as_slice() && has_unit(place.unit, node)
}

/// Whether one of these hosts has a unit at the place.
fn have_unit_at(place: &Place, nodes: &[Node]) -> bool
    ensures { result
        ≡ list_any (λ node. list_any (is_at place.now) (units_of_node node)) nodes.now }
{
    nodes.iter().any(|node| is_at(place, node))
}

/// Whether a job holds a unit at the place.
fn holds_at(place: &Place, row: &JobRow) -> bool
    ensures { result ≡ holds_in place.now row.now }
{
    match &row.held {
        Some(nodes) => have_unit_at(place, nodes.as_slice()),
        None => false,
    }
}

/// The jobs that hold a unit at the place.
fn cell_of(alloc: Global, rows: &[JobRow], place: &Place) -> Result<Cell, AllocError>
    ensures { IfOk result (λ cell. cell ≡ cell_of rows.now place.now) }
{
    let mut cell = Cell::new(alloc);
    for row in rows {
        if holds_at(place, row) {
            cell.push(row.id)?;
        }
    }
    Ok(cell)
}

/// The cells of all places.
pub fn cells_of(
    alloc: Global,
    rows: &[JobRow],
    places: &[Place],
) -> Result<ListOf<Cell>, AllocError>
    ensures { IfOk result (λ cells. cells ≡ map (cell_of rows.now) places.now) }
{
    let mut cells = ListOf::new(alloc);
    for place in places {
        cells.push(cell_of(alloc, rows, place)?)?;
    }
    Ok(cells)
}
