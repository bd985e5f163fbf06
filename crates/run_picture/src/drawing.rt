//! The picture of a run.
ghost use Rattle.std.specs.Prelude.{◌≡◌, ◌++◌, IfOk, OnOk, flat_map, map};
ghost use Rattle.answers.specs.Chronicle.{Setup};
ghost use Rattle.hierarchy.specs.Own.{setup_in};
ghost use Rattle.run_picture.specs.Columns.{AreColumns, IsPicture, IsScene, ends_of};
ghost use Rattle.run_picture.specs.Shown.{AddsBorn, IsShownRun, IsSubject, place_of_id, places_of_node};
ghost use Rattle.run_picture.specs.declared.drawing.PictureFault.TheVariants.{NoMemory};

use crate::following::{Following, signs};
use crate::labels::{Labels, labels_of};
use crate::picture::{HostUnit, Picture, Place, Rows, Scene};
use answers::{Chronicle, Entry};
use lists::{Bytes, Copied, ListOf};
use resource_set::{Node, Resources};
use std::alloc::{AllocError, Global};
use workload::Workload;

/// Why there is no picture.
#[derive(Clone, Copy, Debug, PartialEq, Eq)]
pub enum PictureFault {
    NoMemory,
    /// The chronicle is none of a run: what the job manager landed tells no job.
    Unread,
}

impl From<AllocError> for PictureFault {
    ghost from_gives = { λ _ fault. fault ≡ NoMemory };

    fn from(_: AllocError) -> PictureFault {
        PictureFault::NoMemory
    }
}

/// The most brokers that an instance has.
const MOST_BROKERS: usize = 32;

/// Adds the places of a host's units.
fn add_units(
    places: &mut ListOf<Place>,
    host: &Bytes,
    is_gpu: bool,
    ids: &[u32],
) -> Result<(), AllocError>
    ensures { OnOk result
        (places.new ≡ places.old ++ map (place_of_id host.now is_gpu) ids.now) }
{
    for id in ids {
        places.push(Place {
            host: host.copy()?,
            unit: Some(HostUnit { is_gpu, id: *id }),
        })?;
    }
    Ok(())
}

/// Adds the rows of a host.
#[tactic(auto, using(crate::proofs::Drawn::units_shown))]
fn add_places(places: &mut ListOf<Place>, rows: Rows, node: &Node) -> Result<(), AllocError>
    ensures { OnOk result (places.new ≡ places.old ++ places_of_node rows node.now) }
{
    match rows {
        Rows::Hosts => places.push(Place {
            host: node.host.copy()?,
            unit: None,
        }),
        Rows::Units => {
            let (cores, gpus) = (node.cores.ids()?, node.gpus.ids()?);
            add_units(places, &node.host, false, &cores)?;
            add_units(places, &node.host, true, &gpus)
        }
    }
}

/// The rows of an instance with this grant.
fn places_of(alloc: Global, rows: Rows, grant: &Resources) -> Result<ListOf<Place>, AllocError>
    ensures { IfOk result (λ places. places ≡ flat_map (places_of_node rows) grant.now.nodes) }
{
    let mut places = ListOf::new(alloc);
    for node in grant.nodes.as_slice() {
        add_places(&mut places, rows, node)?;
    }
    Ok(places)
}

/// An instance that is to be shown: its number, the job for which it was born, and how many brokers
/// it has.
#[derive(Clone, Copy, Debug, PartialEq, Eq)]
struct Subject {
    number: u32,
    born: Option<(u32, u64)>,
    brokers: u32,
}

/// An instance that is followed to the end of the run.
fn followed(
    alloc: Global,
    labels: &Labels,
    chronicle: &Chronicle,
    subject: Subject,
    places: &[Place],
) -> Result<Following, PictureFault>
    ensures { (set : Setup) → IsShownRun set chronicle.now
        → IsSubject set chronicle.now subject.number subject.brokers
        → IfOk result (λ f. AreColumns set subject.number places.now
        (ends_of set chronicle.now subject.number) f.columns) }
{
    let number = subject.number;
    let mut following = Following::begin(alloc, number == 0, subject.brokers)?;
    for entry in chronicle.as_slice() {
        following.enter(alloc, labels, number, places, entry)?;
    }
    following.end_second(alloc, places)?;
    Ok(following)
}

/// What is shown of an instance with this grant.
fn scene_of(
    alloc: Global,
    labels: &Labels,
    chronicle: &Chronicle,
    rows: Rows,
    subject: Subject,
    grant: &Resources,
) -> Result<Scene, PictureFault>
    ensures { (set : Setup) → IsShownRun set chronicle.now
        → IsSubject set chronicle.now subject.number subject.brokers
        → grant.now ≡ (setup_in set chronicle.now subject.number).resources
        → IfOk result (IsScene set chronicle.now rows subject.number) }
{
    let places = places_of(alloc, rows, grant)?;
    let following = followed(alloc, labels, chronicle, subject, places.as_slice())?;
    Ok(Scene {
        number: subject.number,
        born: subject.born,
        places,
        jobs: signs(alloc, &following.rows)?,
        columns: following.columns,
    })
}

/// Adds the instance that is born in an entry, if one is.
fn add_born(
    alloc: Global,
    picture: &mut Picture,
    labels: &Labels,
    chronicle: &Chronicle,
    rows: Rows,
    entry: &Entry,
) -> Result<(), PictureFault>
    ensures { OnOk result (AddsBorn chronicle.now rows entry.now picture.old picture.new) }
{
    if let Entry::Born {
        child,
        parent,
        job,
        grant,
        ..
    } = entry
    {
        let subject = Subject {
            number: *child,
            born: Some((*parent, *job)),
            brokers: grant.nodes.as_slice().len().min(MOST_BROKERS) as u32,
        };
        picture.push(scene_of(alloc, labels, chronicle, rows, subject, grant)?)?;
    }
    Ok(())
}

/// The picture of a run at so many brokers, with these resources, of this workload and with this
/// chronicle: its instances in the order of their births, each with a column for each second at
/// whose end it lives. Each instance is followed through the chronicle once; a run has 16 at most.
pub fn picture_of(
    alloc: Global,
    size: u32,
    grant: &Resources,
    work: &Workload,
    chronicle: &Chronicle,
    rows: Rows,
) -> Result<Picture, PictureFault>
    ensures { (set : Setup) → IsShownRun set chronicle.now → set.size ≡ size
        → set.resources ≡ grant.now → IfOk result (IsPicture set chronicle.now rows) }
{
    let labels = labels_of(alloc, work)?;
    let mut picture = Picture::new(alloc);
    let top = Subject {
        number: 0,
        born: None,
        brokers: size,
    };
    picture.push(scene_of(alloc, &labels, chronicle, rows, top, grant)?)?;
    for entry in chronicle.as_slice() {
        add_born(alloc, &mut picture, &labels, chronicle, rows, entry)?;
    }
    Ok(picture)
}
