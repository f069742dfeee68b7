//! Whether two replies are the same.

ghost use Rattle.std.specs.Prelude.{◌≡◌, ◌↔◌, IsTrue};

use ynl_model::{Items, Pending, Placed, Reply};

fn is_same_container(a: &Placed, b: &Placed) -> bool
    ensures { IsTrue result ↔ (a.now ≡ b.now) }
{
    a.id == b.id
        && a.node == b.node
        && a.tenant == b.tenant
        && a.app == b.app
        && a.what == b.what
        && a.size == b.size
}

fn is_same_ask(a: &Pending, b: &Pending) -> bool
    ensures { IsTrue result ↔ (a.now ≡ b.now) }
{
    *a == *b
}

fn is_same_placed(given: &Items<Placed>, list: &Items<Placed>) -> bool
    ensures { IsTrue result ↔ (given.now ≡ list.now) }
{
    let given = given.as_slice();
    let list = list.as_slice();
    if given.len() != list.len() {
        return false;
    }
    for (i, container) in given.iter().enumerate() {
        if !is_same_container(container, &list[i]) {
            return false;
        }
    }
    true
}

fn is_same_pending(given: &Items<Pending>, list: &Items<Pending>) -> bool
    ensures { IsTrue result ↔ (given.now ≡ list.now) }
{
    let given = given.as_slice();
    let list = list.as_slice();
    if given.len() != list.len() {
        return false;
    }
    for (i, ask) in given.iter().enumerate() {
        if !is_same_ask(ask, &list[i]) {
            return false;
        }
    }
    true
}

/// Whether two replies are the same.
pub fn is_same_reply(given: &Reply, reply: &Reply) -> bool
    ensures { IsTrue result ↔ (given.now ≡ reply.now) }
{
    match (given, reply) {
        (Reply::Done, Reply::Done) => true,
        (Reply::Refused(a), Reply::Refused(b)) => *a == *b,
        (Reply::Placed(a), Reply::Placed(b)) => is_same_placed(a, b),
        (Reply::Proposed(a), Reply::Proposed(b)) => *a == *b,
        (Reply::Committed(a), Reply::Committed(b)) => is_same_container(a, b),
        (
            Reply::Held { containers, asks },
            Reply::Held {
                containers: others,
                asks: more,
            },
        ) => is_same_placed(containers, others) && is_same_pending(asks, more),
        (
            Reply::Usage {
                used,
                guaranteed,
                maximum,
                masters,
                guests,
            },
            Reply::Usage {
                used: used_there,
                guaranteed: guaranteed_there,
                maximum: maximum_there,
                masters: masters_there,
                guests: guests_there,
            },
        ) => {
            *used == *used_there
                && *guaranteed == *guaranteed_there
                && *maximum == *maximum_there
                && *masters == *masters_there
                && *guests == *guests_there
        }
        _ => false,
    }
}
