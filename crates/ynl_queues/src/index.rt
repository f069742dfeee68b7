//! An index of the queues, and how it is built.

ghost use Rattle.std.specs.Prelude.{◌≡◌, [], ◌∷◌, ◌++◌, ◌&&◌, ◌<◌, length, not, map, slice_index_or, IfOk, IfSome, OnOk, List, Some, None, if◌then◌else◌};
ghost use Rattle.std.specs.List.{All, position};
ghost use Rattle.std.specs.Option.{IsSome, option_or};
ghost use Rattle.ynl_resource.specs.Names.{same_path, is_within};
ghost use Rattle.ynl_resource.specs.declared.labels.Label.{Label};
ghost use Rattle.ynl_queues.specs.Grants.{capacity_at};
ghost use Rattle.ynl_resource.specs.declared.paths.Path.{Path as Names};
ghost use Rattle.ynl_model.specs.Queues.{QueueRow as Row, Config as Configured};
ghost use Rattle.ynl_queues.specs.Index.{AreSteps, IsKeptOf, ArePlaces, AreShares, HasSteps, IsIndexOf, has_below, place_in, capacities_on};

use crate::draft::Draft;
use crate::grants::Grant;
use crate::labels::Labels;
use crate::rows::QueueRow;
use crate::ways::{is_within, step_at};
use std::alloc::{AllocError, Global};
use std::collections::BTreeMap;
use ynl_resource::{Hundredths, Label, Name, Path};

/// What is kept of a queue: the places of those on the way to it, where each of them has a row, and
/// whether another queue is below it.
#[derive(Drop)]
pub(crate) struct IndexRow {
    pub path: Path,
    pub steps: Option<Vec<usize>>,
    pub has_below: bool,
}

/// What each queue's capacity on a partition is.
#[derive(Drop)]
pub(crate) struct LabelShares {
    pub label: Label,
    pub capacities: Vec<Hundredths>,
}

/// A row for each queue, in the order of the configuration; the capacities on each partition, DEFAULT
/// first; and each queue's place.
#[derive(Drop)]
pub(crate) struct QueueIndex {
    pub rows: Vec<IndexRow>,
    pub shares: Vec<LabelShares>,
    pub places: BTreeMap<Vec<Name>, usize>,
}

impl QueueIndex {
    /// The index of queues, which has no shares yet.
    pub fn new(alloc: Global, rows: &[QueueRow]) -> Result<QueueIndex, AllocError>
        ensures { IfOk result (λ index. (config : Configured) → config.queues ≡ rows.now → IsIndexOf config index) }
    {
        let places = all_places(alloc, rows)?;
        let kept = all_rows(alloc, rows, &places)?;
        Ok(QueueIndex {
            rows: kept,
            shares: Vec::new(alloc),
            places,
        })
    }

    /// The place of a queue, where it has one.
    pub fn place(&self, queue: &[Name]) -> Option<usize>
        ensures { (rows : List Row) → ArePlaces rows self.now.places → result ≡ position (λ row. same_path row.path queue.now) rows }
    {
        place_of(&self.places, queue)
    }

    /// What is kept of the queue at a place.
    pub fn row_at(&self, place: usize) -> Option<&IndexRow>
        ensures kept { (rows : List Row) → All (IsKeptOf rows) self.now.rows.items → IfSome result (λ row. IsKeptOf rows row.now) }
        ensures path { (rows : List Row) (d : Row) → map (λ row. row.path) self.now.rows.items ≡ map (λ row. row.path) rows → IfSome result (λ row. row.now.path ≡ (slice_index_or rows place d).path) }
        ensures sure { (rows : List Row) → map (λ row. row.path) self.now.rows.items ≡ map (λ row. row.path) rows → place < length rows → IsSome result }
    {
        self.rows.get(place)
    }

    /// What is kept of the queue at a place, where that is its path.
    pub fn row(&self, place: usize, path: &[Name]) -> Option<&IndexRow>
        ensures kept { (rows : List Row) → All (IsKeptOf rows) self.now.rows.items → IfSome result (λ row. IsKeptOf rows row.now) }
        ensures path { IfSome result (λ row. row.now.path ≡ path.now) }
    {
        let row = self.row_at(place)?;
        if row.path.names() == path {
            Some(row)
        } else {
            None
        }
    }
}

/// Another row for a queue that has a place already changes nothing.
fn add_place(
    places: &mut BTreeMap<Vec<Name>, usize>,
    alloc: Global,
    queue: &Path,
    place: usize,
) -> Result<(), AllocError>
    ensures { OnOk result ((other : Names) → place_in places.new other ≡ option_or (place_in places.old other) (if same_path queue.now other then Some place else None)) }
{
    if places.contains_key(queue.names()) {
        return Ok(());
    }
    let key = Vec::from_slice(alloc, queue.names())?;
    places.insert(key, place)?;
    Ok(())
}

/// The places of all queues, by their names below root.
fn all_places(alloc: Global, rows: &[QueueRow]) -> Result<BTreeMap<Vec<Name>, usize>, AllocError>
    ensures { IfOk result (ArePlaces rows.now) }
{
    let mut places = BTreeMap::new(alloc);
    for i in 0..rows.len() {
        let row = &rows[i];
        add_place(&mut places, alloc, &row.path, i)?;
    }
    Ok(places)
}

fn place_of(places: &BTreeMap<Vec<Name>, usize>, queue: &[Name]) -> Option<usize>
    ensures { (rows : List Row) → ArePlaces rows places.now → result ≡ position (λ row. same_path row.path queue.now) rows }
{
    places.get(queue).copied()
}

/// The places of the queues on the way to a queue; nothing where one of them has no row.
fn steps_to(
    alloc: Global,
    places: &BTreeMap<Vec<Name>, usize>,
    queue: &[Name],
) -> Result<Option<Vec<usize>>, AllocError>
    ensures steps { IfOk result (λ found. IfSome found (λ steps. (rows : List Row) → ArePlaces rows places.now → AreSteps rows queue.now steps.items)) }
    ensures sure { IfOk result (λ found. (rows : List Row) → ArePlaces rows places.now → HasSteps rows queue.now → IsSome found) }
{
    let mut steps = Vec::new(alloc);
    for depth in 0..queue.len() {
        let Some(place) = place_of(places, step_at(queue, depth + 1)) else {
            return Ok(None);
        };
        steps.push(place)?;
    }
    Ok(Some(steps))
}

/// Whether a queue is below another. Most are not, as the lengths of their paths tell.
#[tactic(auto, using(crate::proofs::Beneath::longer, crate::proofs::Beneath::no_longer))]
fn is_beneath(queue: &[Name], path: &[Name]) -> bool
    ensures { result ≡ (is_within queue.now path.now && not (same_path queue.now path.now)) }
{
    if queue.len() >= path.len() {
        return false;
    }
    is_within(queue, path)
}

/// Whether another queue is below a queue.
pub(crate) fn has_below(rows: &[QueueRow], queue: &[Name]) -> bool
    ensures { result ≡ has_below rows.now queue.now }
{
    rows.iter().any(|row| is_beneath(queue, row.path.names()))
}

fn push_row(
    kept: &mut Vec<IndexRow>,
    alloc: Global,
    rows: &[QueueRow],
    places: &BTreeMap<Vec<Name>, usize>,
    path: &Path,
) -> Result<(), AllocError>
    requires { ArePlaces rows.now places.now }
    ensures kept { OnOk result (All (IsKeptOf rows.now) kept.old.items → All (IsKeptOf rows.now) kept.new.items) }
    ensures paths { OnOk result (map (λ row. row.path) kept.new.items ≡ map (λ row. row.path) kept.old.items ++ path.now ∷ []) }
{
    let steps = steps_to(alloc, places, path.names())?;
    kept.push(IndexRow {
        path: *path,
        steps,
        has_below: has_below(rows, path.names()),
    })?;
    Ok(())
}

/// What is kept of all queues.
fn all_rows(
    alloc: Global,
    rows: &[QueueRow],
    places: &BTreeMap<Vec<Name>, usize>,
) -> Result<Vec<IndexRow>, AllocError>
    requires { ArePlaces rows.now places.now }
    ensures kept { IfOk result (λ kept. All (IsKeptOf rows.now) kept.items) }
    ensures paths { IfOk result (λ kept. map (λ row. row.path) kept.items ≡ map (λ row. row.path) rows.now) }
{
    let mut kept = Vec::with_capacity(alloc, rows.len())?;
    for row in rows {
        push_row(&mut kept, alloc, rows, places, &row.path)?;
    }
    Ok(kept)
}

/// How all queues stand.
fn all_grants(alloc: Global, config: &Draft) -> Result<Vec<Grant<'_>>, AllocError>
    ensures { IfOk result (λ grants. (label : Label) → map (λ s. capacity_at config.now.labels s label) grants.items ≡ capacities_on config.now label) }
{
    let mut grants = Vec::with_capacity(alloc, config.queues().len())?;
    for row in config.queues() {
        grants.push(config.grant(row.path.names()))?;
    }
    Ok(grants)
}

fn shares_on(
    alloc: Global,
    labels: &Labels,
    grants: &[Grant],
    label: &Label,
) -> Result<Vec<Hundredths>, AllocError>
    ensures { IfOk result (λ shares. shares.items ≡ map (λ s. capacity_at labels.now s label.now) grants.now) }
{
    let mut shares = Vec::with_capacity(alloc, grants.len())?;
    for grant in grants {
        shares.push(grant.capacity_on(labels, label))?;
    }
    Ok(shares)
}

fn push_shares(
    shares: &mut Vec<LabelShares>,
    alloc: Global,
    config: &Draft,
    grants: &[Grant],
    label: Label,
) -> Result<(), AllocError>
    requires { (l : Label) → map (λ s. capacity_at config.now.labels s l) grants.now ≡ capacities_on config.now l }
    ensures { OnOk result (All (AreShares config.now) shares.old.items → All (AreShares config.now) shares.new.items) }
{
    let capacities = shares_on(alloc, config.labels(), grants, &label)?;
    shares.push(LabelShares { label, capacities })?;
    Ok(())
}

/// The capacities on all partitions.
pub(crate) fn all_shares(alloc: Global, config: &Draft) -> Result<Vec<LabelShares>, AllocError>
    ensures { IfOk result (λ shares. All (AreShares config.now) shares.items) }
{
    let grants = all_grants(alloc, config)?;
    let mut shares = Vec::new(alloc);
    push_shares(&mut shares, alloc, config, &grants, Label::Unlabelled)?;
    for row in config.labels().rows() {
        push_shares(&mut shares, alloc, config, &grants, Label::Named(row.name))?;
    }
    Ok(shares)
}
