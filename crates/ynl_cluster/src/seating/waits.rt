//! What waits of an application.

ghost use Rattle.std.specs.Prelude.{◌≡◌, IsSome, unwrap_or, ◌&&◌};
ghost use Rattle.ynl_inventory.specs.Parts.{app_row};
ghost use Rattle.ynl_cluster.specs.seating.Seating.{least_asked, ticket_on, waits_if, with_least};

use ynl_lanes::firsts::Least;
use ynl_lanes::lane::Both;
use ynl_lanes::lows::Low;
use ynl_tables::apps::{AppRow, Ask};

/// The least so far, with one more ask, if that is for the partition.
fn with_least(p: u8, low: Low, ask: &Ask) -> Low
    ensures { result ≡ with_least p low ask.now }
{
    if ask.partition == p {
        low.least(Low::of(&ask.size))
    } else {
        low
    }
}

/// The least, part by part, of the sizes that are asked for on a partition.
fn least_asked(p: u8, asks: &[Ask]) -> Low
    ensures { result ≡ least_asked p asks.now }
{
    let mut low = Low::NONE;
    for ask in asks {
        low = with_least(p, low, ask);
    }
    low
}

/// What waits of an application's master on a partition.
fn master_on(runs: bool, p: u8, row: &AppRow) -> Low
    ensures { result ≡ (waits_if runs p (app_row row.now)).master }
{
    if !runs && row.home == p {
        Low::of(&row.master_size)
    } else {
        Low::NONE
    }
}

/// What waits of its asks there.
fn asks_on(runs: bool, p: u8, row: &AppRow) -> Low
    ensures { result ≡ (waits_if runs p (app_row row.now)).ask }
{
    if runs {
        least_asked(p, row.asks.as_slice())
    } else {
        Low::NONE
    }
}

/// What waits of an application on a partition.
pub(crate) fn waits_on(runs: bool, p: u8, row: &AppRow) -> Both<Low>
    ensures { result ≡ waits_if runs p (app_row row.now) }
{
    Both {
        master: master_on(runs, p, row),
        ask: asks_on(runs, p, row),
    }
}

/// The ticket of an application on a partition where it has one.
pub(crate) fn ticket_on(p: u8, row: &AppRow) -> u32
    requires { IsSome (ticket_on p (app_row row.now)) }
    ensures { result ≡ unwrap_or (ticket_on p (app_row row.now)) 0 }
{
    let ticket = if row.home == p {
        row.tickets.home
    } else {
        row.tickets.default
    };
    match ticket.get() {
        Some(ticket) => ticket,
        None => unreachable!(),
    }
}
