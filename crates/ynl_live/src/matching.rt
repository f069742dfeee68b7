//! Receipts held against a journal, place by place.

ghost use Rattle.std.specs.Prelude.{◌≡◌, ◌+◌, ◌<◌, ◌↔◌, [], ◌++◌, List, All, length, slice_index_or, IsTrue, OnOk, IfErr, true, slice_set};
ghost use Rattle.std.specs.Bool.{OnTrue};
ghost use Rattle.ynl_live.specs.declared.receipts.Receipt.{Receipt};
ghost use Rattle.ynl_live.specs.Receipts.{all_receipts, ListFits, calls_on, IsOneForEach};
ghost use Rattle.ynl_live.specs.Marks.{IsMarked, CanMark};
ghost use Rattle.ynl_live.specs.Misfits.{IsFirstMisfit, IsMisfit};

use crate::receipts::Receipts;
use crate::seats::Seat;
use ynl_packed::Entries;

/// Marks the place of a receipt, where that is at the front or behind it, not yet marked, and has the entry
/// that the receipt tells of.
fn mark(entries: &Entries, marks: &mut [bool], list: &Receipts, i: usize, front: u64) -> bool
    requires len { length marks.old ≡ length entries.now }
    requires inside { i < length list.now }
    ensures fits { (d : Receipt) → IsTrue result ↔ CanMark entries.now marks.old front (slice_index_or list.now i d) }
    ensures marked { (d : Receipt) → OnTrue result (marks.new ≡ slice_set marks.old (slice_index_or list.now i d).place true) }
{
    let place = list.place(i);
    if place < front || place >= entries.len() as u64 {
        return false;
    }
    let at = place as usize;
    if marks[at] || !list.tells_of(i, entries, at) {
        return false;
    }
    marks[at] = true;
    true
}

/// Marks the places of one seat's receipts, or answers the place of the first that does not fit.
fn mark_list(entries: &Entries, marks: &mut [bool], list: &Receipts) -> Result<(), u64>
    requires { length marks.old ≡ length entries.now }
    ensures fits { OnOk result (ListFits entries.now list.now) }
    ensures marks { OnOk result ((seen : List Receipt) → IsMarked marks.old seen → IsMarked marks.new (seen ++ list.now)) }
    ensures misfit { IfErr result (λ place. (seen : List Receipt) → IsMarked marks.old seen → IsFirstMisfit entries.now seen list.now place) }
{
    let mut front = 0;
    for i in 0..list.len() {
        let place = list.place(i);
        if !mark(entries, marks, list, i, front) {
            return Err(place);
        }
        front = place + 1;
    }
    Ok(())
}

/// Marks the places of all lists, or answers the place of the first receipt that does not fit.
pub(crate) fn mark_lists(
    entries: &Entries,
    marks: &mut [bool],
    lists: &[Receipts],
) -> Result<(), u64>
    requires len { length marks.old ≡ length entries.now }
    requires none { IsMarked marks.old [] }
    ensures fit { OnOk result (All (λ list. ListFits entries.now list) lists.now) }
    ensures marks { OnOk result (IsMarked marks.new (all_receipts lists.now)) }
    ensures misfit { IfErr result (IsMisfit entries.now lists.now) }
{
    for list in lists {
        mark_list(entries, marks, list)?;
    }
    Ok(())
}

/// Whether so many calls were answered on the seats together.
pub(crate) fn are_calls(seats: &[Seat], calls: u64) -> bool
    ensures { IsTrue result ↔ (calls_on seats.now ≡ calls) }
{
    let mut left = calls;
    for seat in seats {
        let made = seat.calls();
        if made > left {
            return false;
        }
        left -= made;
    }
    left == 0
}

/// Whether there is one list for each seat, as long as the seat's calls.
pub(crate) fn is_one_for_each(seats: &[Seat], lists: &[Receipts]) -> bool
    ensures { IsTrue result ↔ IsOneForEach seats.now lists.now }
{
    if lists.len() != seats.len() {
        return false;
    }
    for i in 0..seats.len() {
        if lists[i].len() as u64 != seats[i].calls() {
            return false;
        }
    }
    true
}
