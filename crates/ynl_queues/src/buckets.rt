//! Rows counted by a hash of their paths' texts but for the last parts. The table has one size, so that it takes no
//! memory that may be refused.

ghost use Rattle.std.specs.Prelude.{◌≡◌, ◌<◌, ◌≤◌, EachIndex, length, slice_index};
ghost use Rattle.ynl_queues.specs.Buckets.{bucket_of, bucket_of_row, count_in_bucket};
ghost use Rattle.ynl_resource.specs.Ranges.{most_queues};

use crate::texts::above;
use crate::written::WrittenQueue;

/// How many buckets there are: several times as many as rows, so that few texts share one.
pub(crate) const BUCKETS: usize = 4096;

/// The bucket of a text.
fn bucket_of(text: &[u8]) -> usize
    ensures value { result ≡ bucket_of text.now }
    ensures within { result < 4096 }
{
    let mut bucket = 0;
    for b in text {
        bucket = (bucket * 31 + usize::from(*b)) % BUCKETS;
    }
    bucket
}

/// The bucket of a row: that of its text but for the last part.
pub(crate) fn bucket_of_row(row: &WrittenQueue) -> usize
    ensures value { result ≡ bucket_of_row row.now }
    ensures within { result < 4096 }
{
    bucket_of(above(row.path.as_bytes()))
}

/// How many rows are in each bucket.
pub(crate) fn count_by_bucket(rows: &[WrittenQueue]) -> [u16; BUCKETS]
    requires few { length rows.now ≤ most_queues }
    ensures counted { EachIndex result (λ k. slice_index result k ≡ count_in_bucket rows.now k) }
{
    let mut counts = [0; BUCKETS];
    for row in rows {
        counts[bucket_of_row(row)] += 1;
    }
    counts
}
