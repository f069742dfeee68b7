//! What is noted of the queues on one partition.

ghost use Rattle.std.specs.Prelude.{◌≡◌, ℕ, true, IfOk, ◌&&◌, nat_eq, nat_lt, if◌then◌else◌, length, slice_index_or};
ghost use Rattle.ynl_laws.specs.Ways.{has_number};
ghost use Rattle.ynl_search.specs.notes.Notes.{has_in, noted_in, nothing_noted, put_at, row_of, with_more};

use crate::notes::noted::Noted;
use std::alloc::{AllocError, Global};
use ynl_resource::Resource;

/// What is noted of the queues on a partition, by number. Where nothing is known, what the list holds says nothing: so all
/// is forgotten at once.
#[derive(Drop)]
pub(crate) struct Row {
    pub(crate) known: bool,
    pub(crate) notes: Vec<Noted>,
}

/// Nothing is known of so many queues.
pub(crate) fn unknown(alloc: Global, queues: usize) -> Result<Row, AllocError>
    ensures has { IfOk result (λ row. (q : ℕ) → has_in (row_of row) q ≡ nat_lt q queues) }
    ensures noted { IfOk result (λ row. (q : ℕ) → noted_in (row_of row) q ≡ nothing_noted) }
{
    let mut notes = Vec::with_capacity(alloc, queues)?;
    for _queue in 0..queues {
        notes.push(Noted::nothing())?;
    }
    Ok(Row {
        known: false,
        notes,
    })
}

/// What is noted of a queue.
pub(crate) fn noted_in(row: &Row, queue: usize) -> Noted
    ensures { result ≡ noted_in (row_of row.now) queue }
{
    if !row.known {
        return Noted::nothing();
    }
    match row.notes.get(queue) {
        Some(noted) => *noted,
        None => Noted::nothing(),
    }
}

/// What is noted of a queue is set, if there is a place for it.
fn put(notes: &mut Vec<Noted>, queue: usize, noted: Noted)
    ensures len { length notes.new.items ≡ length notes.old.items }
    ensures each { (q : ℕ) → slice_index_or notes.new.items q nothing_noted
        ≡ put_at notes.old.items queue noted q }
{
    if queue < notes.len() {
        notes[queue] = noted;
    }
}

/// From here on what the list holds is known, and that is nothing.
fn clear(row: &mut Row)
    ensures len { length row.new.notes.items ≡ length row.old.notes.items }
    ensures none { (q : ℕ) → slice_index_or row.new.notes.items q nothing_noted ≡ nothing_noted }
    ensures known { row.new.known ≡ true }
{
    for queue in 0..row.notes.len() {
        put(&mut row.notes, queue, Noted::nothing());
    }
    row.known = true;
}

/// Something is noted of a queue, if there is a place for it.
pub(crate) fn note(row: &mut Row, queue: usize, noted: Noted)
    ensures has { (q : ℕ) → has_in (row_of row.new) q ≡ has_in (row_of row.old) q }
    ensures noted { (q : ℕ) → noted_in (row_of row.new) q
        ≡ (if has_in (row_of row.old) q && nat_eq q queue then noted else noted_in (row_of row.old) q) }
{
    if !row.known {
        clear(row);
    }
    put(&mut row.notes, queue, noted);
}

/// Requests may have come below a queue that are for so much at least.
fn change_one(notes: &mut Vec<Noted>, queue: usize, low: &Resource)
    ensures len { length notes.new.items ≡ length notes.old.items }
    ensures each { (q : ℕ) → slice_index_or notes.new.items q nothing_noted
        ≡ (if nat_eq q queue then with_more low.now (slice_index_or notes.old.items q nothing_noted)
        else slice_index_or notes.old.items q nothing_noted) }
{
    if queue < notes.len() {
        let noted = notes[queue].with_more(low);
        put(notes, queue, noted);
    }
}

/// Requests may have come below some queues that are for so much at least.
pub(crate) fn change(row: &mut Row, queues: &[usize], low: &Resource)
    ensures has { (q : ℕ) → has_in (row_of row.new) q ≡ has_in (row_of row.old) q }
    ensures noted { (q : ℕ) → noted_in (row_of row.new) q
        ≡ (if has_number queues.now q then with_more low.now (noted_in (row_of row.old) q)
        else noted_in (row_of row.old) q) }
{
    for i in 0..queues.len() {
        change_one(&mut row.notes, queues[i], low);
    }
}
