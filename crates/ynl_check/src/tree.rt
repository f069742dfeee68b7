//! What is said of an accepted configuration: the tree of its queues, with what each is given.

ghost use Rattle.std.specs.Prelude.{◌≡◌, ◌++◌, List, map, IfOk};
ghost use Rattle.std.specs.List.{All, flat_map};
ghost use Rattle.ynl_model.specs.Accepted.{parent_of};
ghost use Rattle.ynl_model.specs.Nodes.{partition_labels};
ghost use Rattle.ynl_model.specs.Queues.{QueueRow as Row};
ghost use Rattle.ynl_check.specs.Tree as spec;

use crate::columns::{put_column, put_heads};
use crate::objects::{number, put_object, text};
use crate::pieces::{Piece, put_pieces};
use crate::shares::{Portion, Queue, numbers_of, portions, put_numbers, state_word};
use crate::style::Style;
use std::alloc::{AllocError, Global};
use ynl_queues::{Config, QueueRow, parent_of};
use ynl_resource::{Label, Name};

/// The text with the line of a queue and a partition more, if the queue may use it, by what its parent has there.
fn put_share_if_usable<'a>(
    text: Vec<u8>,
    style: Style,
    config: &'a Config,
    queue: &'a Queue<'a>,
    above: &'a Portion,
) -> Result<Vec<u8>, AllocError>
    requires { above.now ≡ spec.portion config.now (parent_of queue.now.row.now.path) above.now.label }
    ensures { IfOk result (λ longer. longer.items ≡ text.items ++ spec.line_if_usable style config.now queue.now.row.now queue.now.path.now queue.now.state.now queue.now.is_leaf above.now.label) }
{
    let row = queue.row;
    let default = row.leaf.default_label;
    let label = &above.label;
    if !config.may_use(row.path.names(), label) {
        return Ok(text);
    }
    let numbers = numbers_of(config, row, above);
    match style {
        Style::Objects => put_numbers(text, queue, numbers, default.as_str(), label.as_str()),
        Style::Columns(widths) => put_column(text, widths, queue, numbers, label),
    }
}

/// The text with the lines of a queue more, by what its parent has on each partition.
fn put_shares<'a>(
    text: Vec<u8>,
    style: Style,
    config: &'a Config,
    queue: &'a Queue<'a>,
    portions: &'a [Portion],
) -> Result<Vec<u8>, AllocError>
    requires { All (λ above. above ≡ spec.portion config.now (parent_of queue.now.row.now.path) above.label) portions.now }
    ensures { IfOk result (λ longer. longer.items ≡ text.items ++ flat_map (λ above. spec.line_if_usable style config.now queue.now.row.now queue.now.path.now queue.now.state.now queue.now.is_leaf above.label) portions.now) }
{
    let mut longer = text;
    for above in portions {
        longer = put_share_if_usable(longer, style, config, queue, above)?;
    }
    Ok(longer)
}

/// What a queue has on all partitions.
#[derive(Drop)]
struct Above<'a> {
    queue: &'a [Name],
    portions: Vec<Portion>,
}

/// The text with the lines of a queue more, by what its parent has.
fn put_queue(
    alloc: Global,
    text: Vec<u8>,
    style: Style,
    config: &Config,
    row: &QueueRow,
    portions: &[Portion],
) -> Result<Vec<u8>, AllocError>
    requires { portions.now ≡ map (spec.portion config.now (parent_of row.now.path)) (partition_labels config.now.labels) }
    ensures { IfOk result (λ longer. longer.items ≡ text.items ++ spec.queue_lines style config.now row.now) }
{
    let names = row.path.names();
    let path = row.path.text(alloc)?;
    let queue = Queue {
        row,
        path: path.as_str(),
        state: state_word(config, names),
        is_leaf: config.is_leaf(names),
    };
    put_shares(text, style, config, &queue, portions)
}

/// What the parent has on all partitions: as it is kept, if that is the parent's.
fn above_of<'a>(
    alloc: Global,
    config: &Config,
    labels: &[Label],
    kept: Above<'a>,
    parent: &'a [Name],
) -> Result<Above<'a>, AllocError>
    requires { kept.portions.items ≡ map (spec.portion config.now kept.queue.now) labels.now }
    ensures queue { IfOk result (λ above. above.queue.now ≡ parent.now) }
    ensures portions { IfOk result (λ above. above.portions.items ≡ map (spec.portion config.now parent.now) labels.now) }
{
    if kept.queue == parent {
        return Ok(kept);
    }
    Ok(Above {
        queue: parent,
        portions: portions(alloc, config, parent, labels)?,
    })
}

/// The labels of all partitions: DEFAULT first, then as configured.
fn labels_of(alloc: Global, config: &Config) -> Result<Vec<Label>, AllocError>
    ensures { IfOk result (λ labels. labels.items ≡ partition_labels config.now.labels) }
{
    let mut labels = Vec::new(alloc);
    labels.push(Label::Unlabelled)?;
    for row in config.labels().rows() {
        labels.push(Label::Named(row.name))?;
    }
    Ok(labels)
}

/// The queues in the order of the configuration.
fn rows_of<'a>(alloc: Global, config: &'a Config) -> Result<Vec<&'a QueueRow>, AllocError>
    ensures { IfOk result (λ rows. map (λ row. row.now) rows.items ≡ config.now.queues) }
{
    config.queues().iter().collect(alloc)
}

/// The queues in the order of a walk from root down, with children by name.
fn walk<'a>(alloc: Global, config: &'a Config) -> Result<Vec<&'a QueueRow>, AllocError>
    ensures { IfOk result (λ rows. spec.IsWalk config.now (map (λ row. row.now) rows.items)) }
{
    let mut rows = rows_of(alloc, config)?;
    rows.sort_by(|a, b| a.path.names().cmp(&b.path.names()))?;
    Ok(rows)
}

/// The text with the lines of all these queues more. What a parent has is kept for the queues just below it, which mostly
/// come one after another.
fn put_queues<'a>(
    alloc: Global,
    text: Vec<u8>,
    style: Style,
    config: &'a Config,
    rows: &'a [&'a QueueRow],
) -> Result<Vec<u8>, AllocError>
    ensures { IfOk result (λ longer. longer.items ≡ text.items ++ flat_map (spec.queue_lines style config.now) (map (λ row. row.now) rows.now)) }
{
    let labels = labels_of(alloc, config)?;
    let mut above = Above {
        queue: &[],
        portions: portions(alloc, config, &[], &labels)?,
    };
    let mut longer = text;
    for row in rows {
        above = above_of(alloc, config, &labels, above, parent_of(row.path.names()))?;
        longer = put_queue(alloc, longer, style, config, row, &above.portions)?;
    }
    Ok(longer)
}

/// The heads of the columns, where there are any.
fn put_head(text: Vec<u8>, style: Style) -> Result<Vec<u8>, AllocError>
    ensures { IfOk result (λ longer. longer.items ≡ text.items ++ spec.head_in style) }
{
    match style {
        Style::Objects => Ok(text),
        Style::Columns(widths) => put_heads(text, widths),
    }
}

/// How many leaves there are.
fn leaves(config: &Config) -> u64
    ensures { result ≡ spec.leaves config.now }
{
    let leaves = config
        .queues()
        .iter()
        .filter(|row| config.is_leaf(row.path.names()))
        .count();
    leaves as u64
}

#[tactic(auto, unfolding(crate::specs::Tree::end_line))]
fn put_end_line(line: Vec<u8>, config: &Config) -> Result<Vec<u8>, AllocError>
    ensures { IfOk result (λ longer. longer.items ≡ line.items ++ spec.end_line config.now) }
{
    put_object(
        line,
        &[
            ("check", text("ok")),
            ("labels", number(config.labels().rows().len() as u64)),
            ("leaves", number(leaves(config))),
            ("queues", number(config.queues().len() as u64)),
        ],
    )
}

#[tactic(auto, unfolding(crate::specs::Tree::end_sentence))]
fn put_end_sentence(text: Vec<u8>, config: &Config) -> Result<Vec<u8>, AllocError>
    ensures { IfOk result (λ longer. longer.items ≡ text.items ++ spec.end_sentence config.now) }
{
    put_pieces(
        text,
        &[
            Piece::Number(Some(config.labels().rows().len() as u64)),
            Piece::Word(" labels, "),
            Piece::Number(Some(leaves(config))),
            Piece::Word(" leaves, "),
            Piece::Number(Some(config.queues().len() as u64)),
            Piece::Word(" queues\n"),
        ],
    )
}

/// The text with the line more that tells how many labels, leaves and queues there are.
fn put_end(text: Vec<u8>, style: Style, config: &Config) -> Result<Vec<u8>, AllocError>
    ensures { IfOk result (λ longer. longer.items ≡ text.items ++ spec.end_in style config.now) }
{
    match style {
        Style::Objects => put_end_line(text, config),
        Style::Columns(_) => put_end_sentence(text, config),
    }
}

/// What is said of an accepted configuration.
pub(crate) fn tree_text(alloc: Global, style: Style, config: &Config) -> Result<Vec<u8>, AllocError>
    ensures { IfOk result (λ text. (rows : List Row) × spec.IsWalk config.now rows × (text.items ≡ spec.tree_text style config.now rows)) }
{
    let rows = walk(alloc, config)?;
    let text = put_head(Vec::new(alloc), style)?;
    let text = put_queues(alloc, text, style, config, &rows)?;
    put_end(text, style, config)
}
