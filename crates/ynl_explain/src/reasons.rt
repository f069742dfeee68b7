//! A reason, as a JSON object.

ghost use Rattle.std.specs.Prelude.{◌≡◌, ◌++◌, ◌∷◌, OnOk, codes};
ghost use Rattle.ynl_waits.specs.declared.waits.Reason.TheVariants as reason;
ghost use Rattle.json.specs.Token.{key};
ghost use Rattle.ynl_lines.specs.Writing.{proposal_data};
ghost use Rattle.ynl_explain.specs.Objects.{tokens_of};
ghost use Rattle.ynl_explain.specs.Told.{reason_data, turn_tokens, word_data};

use crate::objects::{Content, put_members, put_object};
use crate::proposals::put_proposal;
use json::Writer;
use std::alloc::{AllocError, Global};
use ynl_model::Proposal;
use ynl_resource::{Label, Name, Resource};
use ynl_waits::{Reason, Step, Turn};

fn put_word(alloc: Global, line: &mut Writer, word: &str) -> Result<(), AllocError>
    ensures before { line.new.before ≡ line.old.before }
    ensures tokens { OnOk result (line.new.tokens ≡ line.old.tokens ++ tokens_of (word_data word.now)) }
{
    put_object(alloc, line, &[("reason", Content::Word(word))])
}

fn put_clock(alloc: Global, line: &mut Writer, label: &Label) -> Result<(), AllocError>
    ensures before { line.new.before ≡ line.old.before }
    ensures tokens { OnOk result (line.new.tokens ≡ line.old.tokens ++ tokens_of (reason_data (reason.Clock label.now))) }
{
    put_object(
        alloc,
        line,
        &[
            ("label", Content::Labelled(label)),
            ("reason", Content::Word("clock")),
        ],
    )
}

fn put_maximum(
    alloc: Global,
    line: &mut Writer,
    queue: &Step,
    used: Resource,
    maximum: Resource,
) -> Result<(), AllocError>
    ensures before { line.new.before ≡ line.old.before }
    ensures tokens { OnOk result (line.new.tokens ≡ line.old.tokens ++ tokens_of (reason_data (reason.Maximum queue.now used maximum))) }
{
    put_object(
        alloc,
        line,
        &[
            ("maximum", Content::Amount(maximum)),
            ("queue", Content::Queue(queue)),
            ("reason", Content::Word("maximum")),
            ("used", Content::Amount(used)),
        ],
    )
}

fn put_user_limit(
    alloc: Global,
    line: &mut Writer,
    user: &Name,
    used: Resource,
    limit: Resource,
    guaranteed: Resource,
) -> Result<(), AllocError>
    ensures before { line.new.before ≡ line.old.before }
    ensures tokens { OnOk result (line.new.tokens ≡ line.old.tokens ++ tokens_of (reason_data (reason.UserLimit user.now used limit guaranteed))) }
{
    put_object(
        alloc,
        line,
        &[
            ("guaranteed", Content::Amount(guaranteed)),
            ("limit", Content::Amount(limit)),
            ("reason", Content::Word("user-limit")),
            ("used", Content::Amount(used)),
            ("user", Content::Named(user)),
        ],
    )
}

fn put_master_share(
    alloc: Global,
    line: &mut Writer,
    used: Resource,
    limit: Resource,
) -> Result<(), AllocError>
    ensures before { line.new.before ≡ line.old.before }
    ensures tokens { OnOk result (line.new.tokens ≡ line.old.tokens ++ tokens_of (reason_data (reason.MasterShare used limit))) }
{
    put_object(
        alloc,
        line,
        &[
            ("limit", Content::Amount(limit)),
            ("reason", Content::Word("master-share")),
            ("used", Content::Amount(used)),
        ],
    )
}

fn put_room(
    alloc: Global,
    line: &mut Writer,
    label: &Label,
    nodes: usize,
    free: Resource,
) -> Result<(), AllocError>
    ensures before { line.new.before ≡ line.old.before }
    ensures tokens { OnOk result (line.new.tokens ≡ line.old.tokens ++ tokens_of (reason_data (reason.Room label.now nodes free))) }
{
    put_object(
        alloc,
        line,
        &[
            ("free", Content::Amount(free)),
            ("label", Content::Labelled(label)),
            ("nodes", Content::Count(nodes)),
            ("reason", Content::Word("room")),
        ],
    )
}

/// Who is ahead, under its key.
fn put_ahead(alloc: Global, line: &mut Writer, ahead: &Proposal) -> Result<(), AllocError>
    ensures before { line.new.before ≡ line.old.before }
    ensures tokens { OnOk result (line.new.tokens ≡ line.old.tokens ++ key (codes "ahead") ∷ tokens_of (proposal_data ahead.now)) }
{
    line.key("ahead")?;
    put_proposal(alloc, line, ahead)
}

/// The members of a turn.
fn put_turn_members(alloc: Global, line: &mut Writer, turn: &Turn) -> Result<(), AllocError>
    ensures before { line.new.before ≡ line.old.before }
    ensures tokens { OnOk result (line.new.tokens ≡ line.old.tokens ++ (key (codes "ahead") ∷ tokens_of (proposal_data turn.now.ahead) ++ turn_tokens turn.now)) }
{
    put_ahead(alloc, line, &turn.ahead)?;
    put_members(
        alloc,
        line,
        &[
            ("node", Content::Named(&turn.node)),
            ("nodes", Content::Count(turn.nodes)),
            ("reason", Content::Word("turn")),
        ],
    )
}

fn put_turn(alloc: Global, line: &mut Writer, turn: &Turn) -> Result<(), AllocError>
    ensures before { line.new.before ≡ line.old.before }
    ensures tokens { OnOk result (line.new.tokens ≡ line.old.tokens ++ tokens_of (reason_data (reason.Turn turn.now))) }
{
    line.begin_object()?;
    put_turn_members(alloc, line, turn)?;
    line.end_object()
}

fn put_next(alloc: Global, line: &mut Writer, node: &Name, nodes: usize) -> Result<(), AllocError>
    ensures before { line.new.before ≡ line.old.before }
    ensures tokens { OnOk result (line.new.tokens ≡ line.old.tokens ++ tokens_of (reason_data (reason.Next node.now nodes))) }
{
    put_object(
        alloc,
        line,
        &[
            ("node", Content::Named(node)),
            ("nodes", Content::Count(nodes)),
            ("reason", Content::Word("next")),
        ],
    )
}

/// A reason.
pub(crate) fn put_reason(
    alloc: Global,
    line: &mut Writer,
    reason: &Reason,
) -> Result<(), AllocError>
    ensures before { line.new.before ≡ line.old.before }
    ensures tokens { OnOk result (line.new.tokens ≡ line.old.tokens ++ tokens_of (reason_data reason.now)) }
{
    match reason {
        Reason::Application => put_word(alloc, line, "application"),
        Reason::Nodes => put_word(alloc, line, "nodes"),
        Reason::Clock(label) => put_clock(alloc, line, label),
        Reason::Maximum {
            queue,
            used,
            maximum,
        } => put_maximum(alloc, line, queue, *used, *maximum),
        Reason::UserLimit {
            user,
            used,
            limit,
            guaranteed,
        } => put_user_limit(alloc, line, user, *used, *limit, *guaranteed),
        Reason::MasterShare { used, limit } => put_master_share(alloc, line, *used, *limit),
        Reason::Room { label, nodes, free } => put_room(alloc, line, label, *nodes, *free),
        Reason::Turn(turn) => put_turn(alloc, line, turn),
        Reason::Next { node, nodes } => put_next(alloc, line, node, *nodes),
    }
}
