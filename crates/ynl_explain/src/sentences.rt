//! The sentences that tell a reader why a request waits.

ghost use Rattle.std.specs.Prelude.{◌≡◌, ◌++◌, IfOk};
ghost use Rattle.ynl_waits.specs.declared.waits.Reason.TheVariants as reason;
ghost use Rattle.ynl_explain.specs.Sentences as spec;

use crate::pieces::{Piece, put_pieces, put_word};
use crate::queues::text_of;
use std::alloc::{AllocError, Global};
use ynl_model::{Proposal, What};
use ynl_resource::{Label, Name, Resource};
use ynl_waits::{Reason, Request, Step, Turn};

/// The text with an application and its tenant more.
pub(crate) fn put_whole_name<'a>(
    text: Vec<u8>,
    tenant: &'a Name,
    app: &'a Name,
) -> Result<Vec<u8>, AllocError>
    ensures { IfOk result (λ longer.
        longer.items ≡ text.items ++ spec.whole_name tenant.now app.now) }
{
    put_pieces(
        text,
        &[Piece::Named(tenant), Piece::Word("/"), Piece::Named(app)],
    )
}

/// The text with what a request is for more.
fn put_wanted(text: Vec<u8>, request: &Request) -> Result<Vec<u8>, AllocError>
    ensures { IfOk result (λ longer.
        longer.items ≡ text.items ++ spec.wanted_by request.now.what request.now) }
{
    match &request.what {
        What::Master => put_pieces(
            text,
            &[
                Piece::Word("its master of "),
                Piece::Size(&request.size),
                Piece::Word(" on "),
                Piece::Partition(&request.label),
            ],
        ),
        What::Ask(_, priority) => put_pieces(
            text,
            &[
                Piece::Number(request.count),
                Piece::Word(" of "),
                Piece::Size(&request.size),
                Piece::Word(" on "),
                Piece::Partition(&request.label),
                Piece::Word(", priority "),
                Piece::Number(*priority),
            ],
        ),
    }
}

/// The text with the head of a request more.
pub(crate) fn put_head(
    text: Vec<u8>,
    tenant: &Name,
    app: &Name,
    request: &Request,
) -> Result<Vec<u8>, AllocError>
    ensures { IfOk result (λ longer.
        longer.items ≡ text.items ++ spec.head_line tenant.now app.now request.now) }
{
    let text = put_whole_name(text, tenant, app)?;
    let text = put_word(text, b" asks for ")?;
    let text = put_wanted(text, request)?;
    put_word(text, b":\n")
}

/// The text with a use and a limit more, above which the request would be.
fn put_over<'a>(
    text: Vec<u8>,
    request: &'a Request,
    used: Resource,
    name: &'a str,
    limit: Resource,
) -> Result<Vec<u8>, AllocError>
    ensures { IfOk result (λ longer.
        longer.items ≡ text.items ++ spec.over request.now used name.now limit) }
{
    put_pieces(
        text,
        &[
            Piece::Amount(used),
            Piece::Word(name),
            Piece::Amount(limit),
            Piece::Word(" on "),
            Piece::Partition(&request.label),
            Piece::Word("; "),
            Piece::Size(&request.size),
            Piece::Word(" more do not fit"),
        ],
    )
}

fn put_no_nodes(text: Vec<u8>, request: &Request) -> Result<Vec<u8>, AllocError>
    ensures { IfOk result (λ longer.
        longer.items ≡ text.items ++ spec.sentence request.now reason.Nodes) }
{
    put_pieces(
        text,
        &[
            Piece::Partition(&request.label),
            Piece::Word(" has no nodes"),
        ],
    )
}

fn put_spent(text: Vec<u8>, label: &Label) -> Result<Vec<u8>, AllocError>
    ensures { IfOk result (λ longer. longer.items ≡ text.items ++ spec.spent label.now) }
{
    put_pieces(
        text,
        &[
            Piece::Word("the clock of "),
            Piece::Partition(label),
            Piece::Word(" is spent: nothing more is placed there"),
        ],
    )
}

/// The text with a queue more, as the one that uses something.
fn put_queue(alloc: Global, text: Vec<u8>, queue: &Step) -> Result<Vec<u8>, AllocError>
    ensures { IfOk result (λ longer. longer.items ≡ text.items ++ spec.queue_text queue.now) }
{
    let path = text_of(alloc, queue)?;
    let text = put_word(text, path.as_bytes())?;
    put_word(text, b" uses ")
}

fn put_maximum(
    alloc: Global,
    text: Vec<u8>,
    request: &Request,
    queue: &Step,
    used: Resource,
    maximum: Resource,
) -> Result<Vec<u8>, AllocError>
    ensures { IfOk result (λ longer. longer.items ≡ text.items
        ++ spec.sentence request.now (reason.Maximum queue.now used maximum)) }
{
    let text = put_queue(alloc, text, queue)?;
    put_over(text, request, used, " of its maximum ", maximum)
}

/// The text with a user more, as the one who uses something.
fn put_user(text: Vec<u8>, user: &Name) -> Result<Vec<u8>, AllocError>
    ensures { IfOk result (λ longer. longer.items ≡ text.items ++ spec.user_text user.now) }
{
    put_pieces(
        text,
        &[
            Piece::Word("user "),
            Piece::Named(user),
            Piece::Word(" uses "),
        ],
    )
}

/// The text with what the leaf is guaranteed more.
fn put_guaranteed(text: Vec<u8>, guaranteed: Resource) -> Result<Vec<u8>, AllocError>
    ensures { IfOk result (λ longer. longer.items ≡ text.items ++ spec.guaranteed_text guaranteed) }
{
    put_pieces(
        text,
        &[
            Piece::Word(" (the leaf is guaranteed "),
            Piece::Amount(guaranteed),
            Piece::Word(")"),
        ],
    )
}

fn put_user_limit(
    text: Vec<u8>,
    request: &Request,
    user: &Name,
    used: Resource,
    limit: Resource,
    guaranteed: Resource,
) -> Result<Vec<u8>, AllocError>
    ensures { IfOk result (λ longer. longer.items ≡ text.items
        ++ spec.sentence request.now (reason.UserLimit user.now used limit guaranteed)) }
{
    let text = put_user(text, user)?;
    let text = put_over(text, request, used, " of the user limit ", limit)?;
    put_guaranteed(text, guaranteed)
}

fn put_master_share(
    text: Vec<u8>,
    request: &Request,
    used: Resource,
    limit: Resource,
) -> Result<Vec<u8>, AllocError>
    ensures { IfOk result (λ longer.
        longer.items ≡ text.items ++ spec.sentence request.now (reason.MasterShare used limit)) }
{
    let text = put_word(text, b"masters of the leaf use ")?;
    put_over(text, request, used, " of their limit ", limit)
}

fn put_room<'a>(
    text: Vec<u8>,
    request: &'a Request,
    label: &'a Label,
    nodes: usize,
    free: Resource,
) -> Result<Vec<u8>, AllocError>
    ensures { IfOk result (λ longer.
        longer.items ≡ text.items ++ spec.sentence request.now (reason.Room label.now nodes free)) }
{
    put_pieces(
        text,
        &[
            Piece::Partition(label),
            Piece::Word(" has "),
            Piece::Nodes(nodes),
            Piece::Word(": at most "),
            Piece::Amount(free),
            Piece::Word(" are free on any one; "),
            Piece::Size(&request.size),
            Piece::Word(" fit on none"),
        ],
    )
}

/// The text more with what a proposal is ahead.
fn put_lead(text: Vec<u8>, ahead: &Proposal) -> Result<Vec<u8>, AllocError>
    ensures { IfOk result (λ longer.
        longer.items ≡ text.items ++ spec.lead_by ahead.now.what ahead.now) }
{
    match &ahead.what {
        What::Master => put_pieces(
            text,
            &[
                Piece::Word(" is ahead with its master of "),
                Piece::Size(&ahead.size),
            ],
        ),
        What::Ask(label, priority) => put_pieces(
            text,
            &[
                Piece::Word(" is ahead with a container of "),
                Piece::Size(&ahead.size),
                Piece::Word(" on "),
                Piece::Partition(label),
                Piece::Word(", priority "),
                Piece::Number(*priority),
            ],
        ),
    }
}

/// The text with the nodes on which another is ahead more.
fn put_turn_nodes(text: Vec<u8>, turn: &Turn) -> Result<Vec<u8>, AllocError>
    ensures { IfOk result (λ longer. longer.items ≡ text.items ++ spec.turn_nodes turn.now) }
{
    put_pieces(
        text,
        &[
            Piece::Nodes(turn.nodes),
            Piece::Word(" may take it, by name first "),
            Piece::Named(&turn.node),
            Piece::Word("; there "),
        ],
    )
}

fn put_turn(text: Vec<u8>, turn: &Turn) -> Result<Vec<u8>, AllocError>
    ensures { IfOk result (λ longer. longer.items ≡ text.items ++ spec.turn_text turn.now) }
{
    let text = put_turn_nodes(text, turn)?;
    let text = put_whole_name(text, &turn.ahead.tenant, &turn.ahead.app)?;
    put_lead(text, &turn.ahead)
}

fn put_next(text: Vec<u8>, node: &Name, nodes: usize) -> Result<Vec<u8>, AllocError>
    ensures { IfOk result (λ longer. longer.items ≡ text.items ++ spec.next_text node.now nodes) }
{
    put_pieces(
        text,
        &[
            Piece::Word("it is next on "),
            Piece::Nodes(nodes),
            Piece::Word(", by name first "),
            Piece::Named(node),
        ],
    )
}

/// The text with the sentence of a reason more.
pub(crate) fn put_sentence(
    alloc: Global,
    text: Vec<u8>,
    request: &Request,
    reason: &Reason,
) -> Result<Vec<u8>, AllocError>
    ensures { IfOk result (λ longer.
        longer.items ≡ text.items ++ spec.sentence request.now reason.now) }
{
    match reason {
        Reason::Application => put_word(text, b"the application waits for its master"),
        Reason::Nodes => put_no_nodes(text, request),
        Reason::Clock(label) => put_spent(text, label),
        Reason::Maximum {
            queue,
            used,
            maximum,
        } => put_maximum(alloc, text, request, queue, *used, *maximum),
        Reason::UserLimit {
            user,
            used,
            limit,
            guaranteed,
        } => put_user_limit(text, request, user, *used, *limit, *guaranteed),
        Reason::MasterShare { used, limit } => put_master_share(text, request, *used, *limit),
        Reason::Room { label, nodes, free } => put_room(text, request, label, *nodes, *free),
        Reason::Turn(turn) => put_turn(text, turn),
        Reason::Next { node, nodes } => put_next(text, node, *nodes),
    }
}
