//! The order of queues on their ways, and of what an application wants.

ghost use Rattle.std.specs.Prelude.{◌≡◌, ◌*◌};
ghost use Rattle.std.specs.Ordering.{nat_cmp};
ghost use Rattle.std.specs.Cmp.Lexicographic.{slice_cmp};
ghost use Rattle.ynl_model.specs.Service.{rank, ratio_order, standing_order as by_standing};
ghost use Rattle.ynl_sights.specs.Rows.{standing_in};

use crate::rows::QueueSight;
use std::cmp::Ordering;
use ynl_model::What;

fn product(a: u64, b: u64) -> u128
    ensures { result ≡ a * b }
{
    u128::from(a) * u128::from(b)
}

/// The smaller ratio of use to guarantee first, compared as fractions; one over 0 comes last.
fn ratio_order(a: &QueueSight, b: &QueueSight) -> Ordering
    ensures { result ≡ ratio_order (standing_in a.now).ratio (standing_in b.now).ratio }
{
    if a.guaranteed == 0 {
        return if b.guaranteed == 0 {
            Ordering::Equal
        } else {
            Ordering::Greater
        };
    }
    if b.guaranteed == 0 {
        return Ordering::Less;
    }
    let left = product(a.margin.used.memory, b.guaranteed);
    let right = product(b.margin.used.memory, a.guaranteed);
    left.cmp(&right)
}

/// The smaller ratio first, and of equal ones the name that comes first.
pub(crate) fn standing_order(a: &QueueSight, b: &QueueSight) -> Ordering
    ensures { result ≡ by_standing (standing_in a.now) (standing_in b.now) }
{
    match ratio_order(a, b) {
        Ordering::Equal => a.name.cmp(&b.name),
        other => other,
    }
}

/// Within an application the master is first, and then the lower priority number.
pub(crate) fn rank_order(a: &What, b: &What) -> Ordering
    ensures { result ≡ slice_cmp nat_cmp (rank a.now) (rank b.now) }
{
    match (a, b) {
        (What::Master, What::Master) => Ordering::Equal,
        (What::Master, What::Ask(_, _)) => Ordering::Less,
        (What::Ask(_, _), What::Master) => Ordering::Greater,
        (What::Ask(_, p), What::Ask(_, q)) => p.cmp(q),
    }
}
