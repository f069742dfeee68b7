//! The configuration that queues make as they are written, or its first fault.

ghost use Rattle.std.specs.Prelude.{◌≡◌, ◌≤◌, ◌||◌, length, map, true, false, None, IfOk, IsTrue, MatchOption};
ghost use Rattle.std.specs.List.{list_all, list_any};
ghost use Rattle.std.specs.Result.{IsOk};
ghost use Rattle.ynl_resource.specs.Amounts.{amount};
ghost use Rattle.ynl_resource.specs.Texts.{read_path};
ghost use Rattle.ynl_resource.specs.Refusals.{first_that_holds};
ghost use Rattle.ynl_resource.specs.Names.{same_name};
ghost use Rattle.ynl_model.specs.Accepted.{all_differ, tree_faults};
ghost use Rattle.ynl_queues.specs.Written.{is_too_deep, are_too_many, is_below_root, row_of, is_crowded, configured, unless_fault, built_of};
ghost use Rattle.ynl_resource.specs.Ranges.{most_queues};

use crate::config::Config;
use crate::draft::Draft;
use crate::labels::Labels;
use crate::rows::QueueRow;
use crate::texts::{any_too_deep, are_too_many};
use crate::written::WrittenQueue;
use std::alloc::{AllocError, Global};
use ynl_model::TreeFault;
use ynl_resource::Size;

fn smallest() -> Size
    ensures { result ≡ amount 1 1 }
{
    match Size::new(1, 1) {
        Some(size) => size,
        None => unreachable!(),
    }
}

/// The rows with their paths read, if each text is the path of a queue below root.
fn read_rows(alloc: Global, rows: Vec<WrittenQueue>) -> Result<Option<Vec<QueueRow>>, AllocError>
    ensures { IfOk result (λ read. MatchOption read (list_all (λ row. is_below_root (read_path row.path)) rows.items ≡ false) (λ v. (list_all (λ row. is_below_root (read_path row.path)) rows.items ≡ true) × (v.items ≡ map row_of rows.items))) }
{
    let mut read = Vec::with_capacity(alloc, rows.len())?;
    for row in rows {
        match row.read() {
            Some(row) => read.push(row)?,
            None => return Ok(None),
        }
    }
    Ok(Some(read))
}

impl Draft {
    /// The first fault of the tree, but for too many queues.
    #[tactic(auto, unfolding(ynl_model::specs::Accepted::tree_faults))]
    fn tree_fault(&self, alloc: Global) -> Result<Option<TreeFault>, AllocError>
        requires few { length self.now.queues ≤ most_queues }
        requires apart { is_crowded self.now ≡ false }
        ensures { IfOk result (λ fault. fault ≡ first_that_holds (tree_faults self.now)) }
    {
        if !self.queues_differ() {
            Ok(Some(TreeFault::DuplicateQueue))
        } else if !self.parents_are_there() {
            Ok(Some(TreeFault::NoParent))
        } else if !self.labels_are_known() {
            Ok(Some(TreeFault::NoSuchLabel))
        } else if !self.labels_stay_within() {
            Ok(Some(TreeFault::NotSubset))
        } else if !self.maxima_cover() {
            Ok(Some(TreeFault::MaximumBelowCapacity))
        } else if !self.all_add_up(alloc)? {
            Ok(Some(TreeFault::SumNot100))
        } else {
            Ok(None)
        }
    }
}

/// A draft of these rows.
#[tactic(auto, unfolding(crate::specs::Written::configured))]
fn configured(alloc: Global, labels: &Labels, rows: Vec<QueueRow>) -> Result<Draft, AllocError>
    ensures { IfOk result (λ draft. draft ≡ configured labels.now rows.items) }
{
    Draft::new(alloc, labels.copy(alloc)?, rows, 1, smallest())
}

/// A draft of these queues as they are written, whatever faults their tree has; nothing where a text is no path of
/// a queue below root.
pub fn as_written(
    alloc: Global,
    labels: &Labels,
    rows: Vec<WrittenQueue>,
) -> Result<Option<Draft>, AllocError>
    ensures { IfOk result (λ read. MatchOption read (list_all (λ row. is_below_root (read_path row.path)) rows.items ≡ false) (λ draft. (list_all (λ row. is_below_root (read_path row.path)) rows.items ≡ true) × (draft ≡ configured labels.now (map row_of rows.items)))) }
{
    match read_rows(alloc, rows)? {
        Some(rows) => {
            let draft = configured(alloc, labels, rows)?;
            Ok(Some(draft))
        }
        None => Ok(None),
    }
}

/// The configuration of a draft, or its first fault, where there are not too many queues.
#[tactic(auto, using(crate::proofs::Faultless::tree_without_fault))]
fn accept(alloc: Global, draft: Draft) -> Result<Result<Config, TreeFault>, AllocError>
    requires few { length draft.queues ≤ most_queues }
    requires apart { is_crowded draft ≡ false }
    requires labels { all_differ same_name (map (λ row. row.name) draft.labels.rows) ≡ true }
    ensures { IfOk result (λ built. built ≡ unless_fault (first_that_holds (tree_faults draft)) draft) }
{
    match draft.tree_fault(alloc)? {
        Some(fault) => Ok(Err(fault)),
        None => Ok(Ok(Config::new(draft))),
    }
}

impl Config {
    /// The configuration of these labels, queues and numbers, or the first fault: of the paths' texts, and then of
    /// the tree. That a path is too deep, or that there are too many, is told whatever memory there is.
    pub fn build(
        alloc: Global,
        labels: Labels,
        rows: Vec<WrittenQueue>,
        containers_per_heartbeat: u32,
        maximum_allocation: Size,
    ) -> Result<Result<Config, TreeFault>, AllocError>
        requires { all_differ same_name (map (λ row. row.name) labels.rows) ≡ true }
        ensures built { IfOk result (λ built. built ≡ built_of labels rows.items containers_per_heartbeat maximum_allocation) }
        ensures accepted { IfOk result (λ built. IfOk built (λ config. first_that_holds (tree_faults config) ≡ None)) }
        ensures sure { IsTrue (list_any (λ row. is_too_deep row.path) rows.items || are_too_many rows.items) → IsOk result }
    {
        if any_too_deep(&rows) {
            return Ok(Err(TreeFault::TooDeep));
        }
        if are_too_many(&rows) {
            return Ok(Err(TreeFault::TooMany));
        }
        match read_rows(alloc, rows)? {
            Some(rows) => {
                let draft = Draft::new(
                    alloc,
                    labels,
                    rows,
                    containers_per_heartbeat,
                    maximum_allocation,
                )?;
                accept(alloc, draft)
            }
            None => Ok(Err(TreeFault::BadPath)),
        }
    }
}
