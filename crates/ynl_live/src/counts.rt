//! What receipts of a closed journal say of its entries.

ghost use Rattle.ynl_live.specs.Counts.{CountAlike};

/// Whatever is counted, receipts that have each place of a journal once count it as the journal does: of
/// what kind the events are, which node is asked for, what was refused.
pub fn receipts_count_as_entries()
    ensures { CountAlike }
{}
