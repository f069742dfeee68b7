//! Paths of queues as texts, before they are read.

ghost use Rattle.std.specs.Prelude.{◌≡◌, ◌≤◌, EachIndex, nat_lt, length, filter, count_by, bytes_eq, slice_index};
ghost use Rattle.std.specs.List.{list_any};
ghost use Rattle.ynl_resource.specs.Texts.{is_dot};
ghost use Rattle.ynl_queues.specs.Buckets.{count_in_bucket};
ghost use Rattle.ynl_queues.specs.Written.{is_too_deep, above, stand_together, are_too_many};
ghost use Rattle.ynl_resource.specs.Ranges.{most_children, most_queues};

use crate::buckets::{BUCKETS, bucket_of_row, count_by_bucket};
use crate::written::WrittenQueue;
use ynl_resource::{MOST_CHILDREN, MOST_NAMES, MOST_QUEUES};

fn dots(text: &[u8]) -> usize
    ensures { result ≡ count_by is_dot text.now }
{
    text.iter().filter(|b| **b == b'.').count()
}

/// Whether the text has more than eight parts between its dots.
pub fn is_too_deep(text: &[u8]) -> bool
    ensures { result ≡ is_too_deep text.now }
{
    dots(text) >= MOST_NAMES
}

/// Whether a path has more than eight names.
pub(crate) fn any_too_deep(rows: &[WrittenQueue]) -> bool
    ensures { result ≡ list_any (λ row. is_too_deep row.path) rows.now }
{
    rows.iter().any(|row| is_too_deep(row.path.as_bytes()))
}

/// What stands before the last dot.
pub fn above(text: &[u8]) -> &[u8]
    ensures { result.now ≡ above text.now }
{
    let mut end = text.len();
    while end > 0 {
        end -= 1;
        if text[end] == b'.' {
            return &text[..end];
        }
    }
    &[]
}

/// Whether a row's text but for its last part is this one.
fn stands_below(front: &[u8], row: &WrittenQueue) -> bool
    ensures { result ≡ bytes_eq front.now (above row.now.path) }
{
    front == above(row.path.as_bytes())
}

/// How many rows have a row's text but for its last part.
pub fn count_together(rows: &[WrittenQueue], row: &WrittenQueue) -> usize
    ensures { result ≡ length (filter (λ other. stand_together row.now.path other.path) rows.now) }
{
    let front = above(row.path.as_bytes());
    rows.iter()
        .filter(|other| stands_below(front, other))
        .count()
}

/// Whether more than 64 rows have a row's text but for its last part. Rows that have it are in one bucket: they are
/// compared, each with the row, only if there are enough in the row's.
fn is_in_crowd(counts: &[u16; BUCKETS], rows: &[WrittenQueue], row: &WrittenQueue) -> bool
    requires { EachIndex counts.now (λ k. slice_index counts.now k ≡ count_in_bucket rows.now k) }
    ensures { result ≡ nat_lt most_children (length (filter (λ other. stand_together row.now.path other.path) rows.now)) }
{
    usize::from(counts[bucket_of_row(row)]) > MOST_CHILDREN
        && count_together(rows, row) > MOST_CHILDREN
}

/// Whether more than 64 rows' texts are the same but for their last parts.
fn are_crowded(rows: &[WrittenQueue]) -> bool
    requires { length rows.now ≤ most_queues }
    ensures { result ≡ list_any (λ row. nat_lt most_children (length (filter (λ other. stand_together row.path other.path) rows.now))) rows.now }
{
    let counts = count_by_bucket(rows);
    rows.iter().any(|row| is_in_crowd(&counts, rows, row))
}

/// Whether there are more than 1,024 rows, or more than 64 whose texts are the same but for their
/// last parts.
pub(crate) fn are_too_many(rows: &[WrittenQueue]) -> bool
    ensures { result ≡ are_too_many rows.now }
{
    rows.len() > MOST_QUEUES || are_crowded(rows)
}
