//! What a queue is given of a partition, in columns.

ghost use Rattle.std.specs.Prelude.{◌≡◌, ◌++◌, ◌≤◌, IfOk};
ghost use Rattle.ynl_check.specs.Tree as spec;

use crate::pieces::{Piece, put_pieces};
use crate::shares::{Numbers, Queue};
use crate::style::Widths;
use std::alloc::AllocError;
use ynl_queues::labels::Labels;
use ynl_queues::{Config, QueueRow};
use ynl_resource::{Label, Name};

/// How far the name of a queue is indented on the line of a partition.
fn depth_on(row: &QueueRow, label: &Label) -> usize
    ensures value { result ≡ spec.depth_on row.now label.now }
    ensures small { result ≤ 14 }
{
    match label {
        Label::Unlabelled => 2 * row.path.names().len().saturating_sub(1),
        Label::Named(_) => 0,
    }
}

fn last_name(names: &[Name]) -> &str
    ensures { result.now ≡ spec.last_name names.now }
{
    match names.last() {
        Some(name) => name.as_str(),
        None => "",
    }
}

/// The name of a queue, on the line of DEFAULT alone.
fn name_on<'a>(row: &'a QueueRow, label: &Label) -> &'a str
    ensures { result.now ≡ spec.name_on row.now label.now }
{
    match label {
        Label::Unlabelled => last_name(row.path.names()),
        Label::Named(_) => "",
    }
}

fn partition_name(label: &Label) -> &str
    ensures { result.now ≡ spec.partition_name label.now }
{
    match label {
        Label::Unlabelled => "DEFAULT",
        Label::Named(name) => name.as_str(),
    }
}

/// The text with the heads of the columns more.
#[tactic(auto, unfolding(crate::specs::Tree::heads))]
pub(crate) fn put_heads(text: Vec<u8>, widths: Widths) -> Result<Vec<u8>, AllocError>
    ensures { IfOk result (λ longer. longer.items ≡ text.items ++ spec.heads widths) }
{
    put_pieces(
        text,
        &[
            Piece::Filled(widths.queue, "queue"),
            Piece::Word("  "),
            Piece::Filled(widths.label, "label"),
            Piece::Word("  guaranteed     at most  state\n"),
        ],
    )
}

/// The text with the line of a queue that has these numbers on a partition more.
#[tactic(auto, unfolding(crate::specs::Tree::column_line))]
pub(crate) fn put_column<'a>(
    text: Vec<u8>,
    widths: Widths,
    queue: &'a Queue<'a>,
    numbers: Numbers,
    label: &'a Label,
) -> Result<Vec<u8>, AllocError>
    ensures { IfOk result (λ longer. longer.items ≡ text.items ++ spec.column_line widths numbers queue.now.row.now queue.now.state.now label.now) }
{
    let row = queue.row;
    let depth = depth_on(row, label);
    put_pieces(
        text,
        &[
            Piece::Blanks(depth),
            Piece::Filled(widths.queue.saturating_sub(depth), name_on(row, label)),
            Piece::Word("  "),
            Piece::Filled(widths.label, partition_name(label)),
            Piece::Word("  "),
            Piece::Millionths(numbers.share),
            Piece::Word("  "),
            Piece::Millionths(numbers.most),
            Piece::Word("  "),
            Piece::Word(queue.state),
            Piece::Word("\n"),
        ],
    )
}

/// The width of the widest name of a queue, with how far it is indented.
fn queue_width(rows: &[QueueRow]) -> usize {
    let mut width = "queue".len();
    for row in rows {
        let name = depth_on(row, &Label::Unlabelled).saturating_add(last_name(
            row.path.names(),
        ).len());
        width = width.max(name);
    }
    width
}

/// The width of the widest name of a label.
fn label_width(labels: &Labels) -> usize {
    let mut width = "DEFAULT".len();
    for row in labels.rows() {
        width = width.max(row.name.as_bytes().len());
    }
    width
}

/// The widths of the columns of a configuration.
pub(crate) fn widths_of(config: &Config) -> Widths {
    Widths {
        queue: queue_width(config.queues()),
        label: label_width(config.labels()),
    }
}
