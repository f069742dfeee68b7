//! The choice made from a sight.

ghost use Rattle.std.specs.Prelude.{◌≡◌, ◌≤◌, ◌<◌, ◌^◌, ◌∷◌, List, [], length, map, option_map, filter};
ghost use Rattle.std.specs.List.{list_all};
ghost use Rattle.std.specs.Ordering.{nat_cmp};
ghost use Rattle.std.specs.Cmp.Lexicographic.{slice_cmp};
ghost use Rattle.ynl_model.specs.Check.{proposal_of, proposed};
ghost use Rattle.ynl_model.specs.Cluster.{State};
ghost use Rattle.ynl_model.specs.Queues.{Config};
ghost use Rattle.ynl_model.specs.Service.{key_order, standing_order as by_standing};
ghost use Rattle.ynl_model.specs.declared.nodes.Node.{Node as Noded};
ghost use Rattle.ynl_sights.specs.Sights.{chosen, first_bid, has_room, keeps_share, open_bids, passes, planned, sighted, stays_within};
ghost use Rattle.ynl_sights.specs.Rows.{asks_at, asks_in, bid_in, bids_of, masters_at, masters_in, offer_at, offer_by, reach_in, reach_of_queue, shown, standing_in, tests_in, AreLeaves, IsSpan};
ghost use Rattle.ynl_resource.specs.declared.labels.Label.TheVariants.{Unlabelled};
ghost use Rattle.ynl_resource.specs.declared.amounts.Resource.{Resource as Amount};
ghost use Rattle.ynl_sights.specs.declared.rows.Margin.{Margin as Reaches};
ghost use Rattle.ynl_sights.specs.declared.rows.QueueSight.{QueueSight as Queue};
ghost use Rattle.ynl_sights.specs.declared.rows.Wanted.{Wanted as Want};
ghost use Rattle.ynl_sights.specs.Planning.{bid_of, overtakes, HoldsFirst, open_in};

use crate::order::{rank_order, standing_order};
use crate::rows::{Held, LeafSight, LeafSights, Limits, Margin, Offered, QueueSight, Wanted};
use crate::sights::Sight;
use std::cmp::Ordering;
use ynl_model::{Node, Proposal, What};
use ynl_resource::{Label, Resource};

/// The order of two leaves, by how the queues on their ways stand.
fn ways_order(a: &[QueueSight], b: &[QueueSight]) -> Ordering
    ensures { result ≡ slice_cmp by_standing (map standing_in a.now) (map standing_in b.now) }
{
    match (a.split_first(), b.split_first()) {
        (None, None) => Ordering::Equal,
        (None, Some(_)) => Ordering::Less,
        (Some(_), None) => Ordering::Greater,
        (Some((x, xs)), Some((y, ys))) => match standing_order(x, y) {
            Ordering::Equal => ways_order(xs, ys),
            other => other,
        },
    }
}

fn turn_order(a: &Held<'_>, b: &Held<'_>) -> Ordering
    ensures { result ≡ slice_cmp nat_cmp (bid_of a.now).key.turn (bid_of b.now).key.turn }
{
    match a.wanted.place.cmp(&b.wanted.place) {
        Ordering::Equal => rank_order(&a.what, &b.what),
        other => other,
    }
}

fn order(a: &Held<'_>, b: &Held<'_>) -> Ordering
    ensures { result ≡ key_order (bid_of a.now).key (bid_of b.now).key }
{
    match ways_order(a.way, b.way) {
        Ordering::Equal => turn_order(a, b),
        other => other,
    }
}

/// Whether a request that comes up is before the one that is held.
fn is_before(held: &Option<Held<'_>>, next: &Held<'_>) -> bool
    ensures { result ≡ overtakes (option_map bid_of held.now) (bid_of next.now) }
{
    match held {
        Some(best) => order(best, next) == Ordering::Greater,
        None => true,
    }
}

/// Whether a queue stays within its maximum with so much more.
fn stays_within(margin: &Margin, size: &Resource) -> bool
    requires { (size.now.memory < 2 ^ 32) × (size.now.vcores ≤ 65536) }
    ensures { result ≡ stays_within size.now (reach_in margin.now) }
{
    margin.used.add(*size).fits_in(margin.maximum)
}

/// Whether the queues on a way stay within their maxima with so much more.
fn stay_within(queues: &[QueueSight], size: &Resource) -> bool
    requires { (size.now.memory < 2 ^ 32) × (size.now.vcores ≤ 65536) }
    ensures { result ≡ list_all (stays_within size.now) (map reach_of_queue queues.now) }
{
    queues.iter().all(|queue| stays_within(&queue.margin, size))
}

/// Whether a request keeps the master share, which is tested for masters alone.
fn keeps_share(limits: &Limits, what: &What, size: &Resource) -> bool
    requires { (size.now.memory < 2 ^ 32) × (size.now.vcores ≤ 65536) }
    ensures { (root : Reaches) (way : List Queue) (used : Amount) (wanted : Want) → result ≡ keeps_share what.now size.now (tests_in root way limits.now used wanted) }
{
    match what {
        What::Master => {
            limits.masters.add(*size).fits_in(limits.master_limit) || limits.no_master
        }
        What::Ask(_, _) => true,
    }
}

/// Whether a request passes its tests.
fn passes(
    free: &Resource,
    root: &Margin,
    way: &[QueueSight],
    limits: &Limits,
    what: &What,
    offered: &Offered,
) -> bool
    ensures { result ≡ passes free.now (offer_by root.now way.now limits.now what.now (shown offered.now)) }
{
    let size = offered.wanted.size.amount();
    if !size.fits_in(*free) {
        return false;
    }
    if !stays_within(root, &size) || !stay_within(way, &size) {
        return false;
    }
    let with = offered.user_used.add(size);
    limits.users.keeps(&with, &size) && keeps_share(limits, what, &size)
}

/// A request that comes up is held if it is before the one that is.
fn hold_wanted<'a>(
    way: &'a [QueueSight],
    what: &What,
    wanted: &'a Wanted,
    held: &mut Option<Held<'a>>,
)
    requires { 0 < length way.now }
    ensures { HoldsFirst held.old (bid_in way.now what.now wanted.now ∷ []) held.new }
{
    let next = Held {
        way,
        wanted,
        what: *what,
    };
    if is_before(held, &next) {
        *held = Some(next);
    }
}

/// A request for the partition, which is held if it passes its tests and is before the one that is.
fn hold_offered<'a>(
    free: &Resource,
    leaves: &'a LeafSights,
    leaf: &'a LeafSight,
    what: &What,
    offered: &'a Offered,
    held: &mut Option<Held<'a>>,
)
    requires { IsSpan leaves.now.queues.items leaf.now }
    ensures { HoldsFirst held.old (open_in free.now (offer_at leaves.now leaf.now what.now offered.now ∷ [])) held.new }
{
    let way = leaves.way(leaf);
    if passes(free, &leaves.root, way, &leaf.limits, what, offered) {
        hold_wanted(way, what, &offered.wanted, held);
    }
}

/// The masters of a leaf.
fn hold_masters_of<'a>(
    free: &Resource,
    leaves: &'a LeafSights,
    leaf: &'a LeafSight,
    held: &mut Option<Held<'a>>,
)
    requires { IsSpan leaves.now.queues.items leaf.now }
    ensures { HoldsFirst held.old (open_in free.now (masters_at leaves.now leaf.now)) held.new }
{
    let masters = leaf.list.masters.as_slice();
    for offered in masters {
        hold_offered(free, leaves, leaf, &What::Master, offered, held);
    }
}

/// The masters of all leaves.
fn hold_masters<'a>(free: &Resource, leaves: &'a LeafSights, held: &mut Option<Held<'a>>)
    requires { AreLeaves leaves.now }
    ensures { HoldsFirst held.old (open_in free.now (masters_in leaves.now)) held.new }
{
    let all = leaves.leaves.as_slice();
    for leaf in all {
        hold_masters_of(free, leaves, leaf, held);
    }
}

/// What is asked for on the partition in a leaf.
fn hold_asks_of<'a>(
    free: &Resource,
    label: &Label,
    leaves: &'a LeafSights,
    leaf: &'a LeafSight,
    held: &mut Option<Held<'a>>,
)
    requires { IsSpan leaves.now.queues.items leaf.now }
    ensures { HoldsFirst held.old (open_in free.now (asks_at label.now leaves.now leaf.now)) held.new }
{
    let asks = leaf.list.asks.as_slice();
    for offered in asks {
        let what = What::Ask(*label, offered.wanted.priority);
        hold_offered(free, leaves, leaf, &what, offered, held);
    }
}

/// What is asked for on the partition in all leaves.
fn hold_asks<'a>(
    free: &Resource,
    label: &Label,
    leaves: &'a LeafSights,
    held: &mut Option<Held<'a>>,
)
    requires { AreLeaves leaves.now }
    ensures { HoldsFirst held.old (open_in free.now (asks_in label.now leaves.now)) held.new }
{
    let all = leaves.leaves.as_slice();
    for leaf in all {
        hold_asks_of(free, label, leaves, leaf, held);
    }
}

/// The first of the requests for the partition that pass their tests.
fn first_wanted(sight: &Sight) -> Option<Held<'_>>
    ensures { option_map bid_of result ≡ first_bid (open_bids sight.now) }
{
    let mut held = None;
    hold_masters(&sight.free, &sight.leaves, &mut held);
    hold_asks(&sight.free, &sight.node.label, &sight.leaves, &mut held);
    held
}

/// The guests of a leaf that have room.
fn hold_guests_of<'a>(
    free: &Resource,
    guests: &'a LeafSights,
    leaf: &'a LeafSight,
    held: &mut Option<Held<'a>>,
)
    requires { IsSpan guests.now.queues.items leaf.now }
    ensures { HoldsFirst held.old (filter (has_room free.now) (bids_of (asks_at Unlabelled guests.now leaf.now))) held.new }
{
    let way = guests.way(leaf);
    let asks = leaf.list.asks.as_slice();
    for offered in asks {
        let wanted = &offered.wanted;
        if wanted.size.amount().fits_in(*free) {
            let what = What::Ask(Label::Unlabelled, wanted.priority);
            hold_wanted(way, &what, wanted, held);
        }
    }
}

/// The guests that have room.
fn hold_guests<'a>(free: &Resource, guests: &'a LeafSights, held: &mut Option<Held<'a>>)
    requires { AreLeaves guests.now }
    ensures { HoldsFirst held.old (filter (has_room free.now) (bids_of (asks_in Unlabelled guests.now))) held.new }
{
    let all = guests.leaves.as_slice();
    for leaf in all {
        hold_guests_of(free, guests, leaf, held);
    }
}

/// The first of the guests that have room.
fn first_guest(sight: &Sight) -> Option<Held<'_>>
    ensures { option_map bid_of result ≡ first_bid (filter (has_room sight.now.free) sight.now.guests) }
{
    let mut held = None;
    if let Some(guests) = &sight.guests {
        hold_guests(&sight.free, guests, &mut held);
    }
    held
}

/// The first of the requests for the partition that pass, or else the first guest that has room.
fn first_of(sight: &Sight) -> Option<Held<'_>>
    ensures { option_map (λ held. (bid_of held).item) result ≡ chosen sight.now }
{
    match first_wanted(sight) {
        Some(held) => Some(held),
        None => first_guest(sight),
    }
}

fn proposal_of(node: &Node, held: &Held<'_>) -> Proposal
    ensures { result ≡ proposal_of node.now (bid_of held.now).item }
{
    Proposal {
        node: node.name,
        stamp: node.stamp,
        tenant: held.way[0].name,
        app: held.wanted.app,
        what: held.what,
        size: held.wanted.size,
    }
}

/// The choice as a proposal with the node's stamp.
#[tactic(auto, unfolding(crate::specs::Sights::planned))]
fn propose(sight: &Sight) -> Option<Proposal>
    ensures { result ≡ planned sight.now }
{
    match first_of(sight) {
        Some(held) => Some(proposal_of(&sight.node, &held)),
        None => None,
    }
}

/// The choice from a sight, as a proposal with the node's stamp: the choice on the node in the state that the sight was copied
/// from, whatever has happened since. It takes no cluster, and waits for nothing.
pub fn plan(sight: &Sight) -> Option<Proposal>
    ensures planned { result ≡ planned sight.now }
    ensures choice { (c : Config) (s : State) (node : Noded) → sight.now ≡ sighted c s node → result ≡ proposed c s node }
{
    propose(sight)
}
