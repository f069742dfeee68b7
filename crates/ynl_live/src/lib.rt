//! A live scheduler: one cluster that many callers use at once. Each caller has a seat and keeps the
//! receipts of its calls, and at the end all receipts are held against the journal.
//!
//! A call waits for the lock round the cluster's book, has its event entered, and gives a receipt: the
//! event's place in the journal and the reply. What a call did to the book under the lock is no part of
//! its contract, since no clause can name a value that others share. What can be said is said at the end:
//! `close` answers a journal only where each entry has the cluster's reply, and each place stands in
//! exactly one receipt, with the event and the reply that the receipt has. So a call that answers without
//! entering, or that loses an entry, and a reply that is made up each leave a journal that is not closed
//! with these receipts.
#![tactic(auto)]

pub use calling::{CallFault, Live};
pub use closing::{Cause, Closed, Unclosed, close, close_for_good};
pub use receipts::{Receipt, Receipts};
pub use seats::Seat;

mod calling;
mod closing;
pub mod counts;
mod matching;
mod receipts;
mod seats;
