//! Members of JSON objects, written one after another.

ghost use Rattle.std.specs.Prelude.{◌≡◌, ◌++◌, ◌∷◌, [], OnOk, codes, decimal};
ghost use Rattle.std.specs.List.{flat_map};
ghost use Rattle.json.specs.Token.{begin_object, end_object, key, number, string};
ghost use Rattle.ynl_resource.specs.Texts.{path_text};
ghost use Rattle.ynl_lines.specs.Writing.{amount_data};
ghost use Rattle.ynl_waits.specs.Steps.{path_of};
ghost use Rattle.ynl_explain.specs.Objects.{content_data, tokens_of};

use crate::queues::text_of;
use json::Writer;
use std::alloc::{AllocError, Global};
use ynl_resource::{Label, Name, Resource, Size};
use ynl_waits::Step;

/// What stands under a key.
#[derive(Clone, Copy)]
pub(crate) enum Content<'a> {
    Word(&'a str),
    Named(&'a Name),
    Labelled(&'a Label),
    Queue(&'a Step),
    Number(u64),
    Small(u32),
    Count(usize),
    Memory(&'a Size),
    Vcores(&'a Size),
    Amount(Resource),
}

/// A key, and what stands under it.
pub(crate) type Member<'a> = (&'a str, Content<'a>);

fn put_number(line: &mut Writer, name: &str, count: u64) -> Result<(), AllocError>
    ensures before { line.new.before ≡ line.old.before }
    ensures tokens { OnOk result (line.new.tokens ≡ line.old.tokens ++ key name.now ∷ number (decimal count) ∷ []) }
{
    line.key(name)?;
    line.u64(count)
}

/// The members of an amount.
fn put_parts(line: &mut Writer, amount: &Resource) -> Result<(), AllocError>
    ensures before { line.new.before ≡ line.old.before }
    ensures tokens { OnOk result (line.new.tokens ≡ line.old.tokens ++ key (codes "memory") ∷ number (decimal amount.now.memory) ∷ key (codes "vcores") ∷ number (decimal amount.now.vcores) ∷ []) }
{
    put_number(line, "memory", amount.memory)?;
    put_number(line, "vcores", amount.vcores)
}

fn put_amount(line: &mut Writer, amount: &Resource) -> Result<(), AllocError>
    ensures before { line.new.before ≡ line.old.before }
    ensures tokens { OnOk result (line.new.tokens ≡ line.old.tokens ++ tokens_of (amount_data amount.now)) }
{
    line.begin_object()?;
    put_parts(line, amount)?;
    line.end_object()
}

fn put_queue(alloc: Global, line: &mut Writer, queue: &Step) -> Result<(), AllocError>
    ensures before { line.new.before ≡ line.old.before }
    ensures tokens { OnOk result (line.new.tokens ≡ line.old.tokens ++ string (path_text (path_of queue.now)) ∷ []) }
{
    let text = text_of(alloc, queue)?;
    line.string(text.as_str())
}

fn put_content(alloc: Global, line: &mut Writer, content: &Content<'_>) -> Result<(), AllocError>
    ensures before { line.new.before ≡ line.old.before }
    ensures tokens { OnOk result (line.new.tokens ≡ line.old.tokens ++ tokens_of (content_data content.now)) }
{
    match content {
        Content::Word(text) => line.string(text),
        Content::Named(name) => line.string(name.as_str()),
        Content::Labelled(label) => line.string(label.as_str()),
        Content::Queue(queue) => put_queue(alloc, line, queue),
        Content::Number(number) => line.u64(*number),
        Content::Small(number) => line.u64(u64::from(*number)),
        Content::Count(count) => line.u64(*count as u64),
        Content::Memory(size) => line.u64(size.amount().memory),
        Content::Vcores(size) => line.u64(size.amount().vcores),
        Content::Amount(amount) => put_amount(line, amount),
    }
}

fn put_member(
    alloc: Global,
    line: &mut Writer,
    name: &str,
    content: &Content<'_>,
) -> Result<(), AllocError>
    ensures before { line.new.before ≡ line.old.before }
    ensures tokens { OnOk result (line.new.tokens ≡ line.old.tokens ++ key name.now ∷ tokens_of (content_data content.now)) }
{
    line.key(name)?;
    put_content(alloc, line, content)
}

/// Members, one after another.
pub(crate) fn put_members(
    alloc: Global,
    line: &mut Writer,
    members: &[Member<'_>],
) -> Result<(), AllocError>
    ensures before { line.new.before ≡ line.old.before }
    ensures tokens { OnOk result (line.new.tokens ≡ line.old.tokens ++ flat_map (λ m. key m.0.now ∷ tokens_of (content_data m.1)) members.now) }
{
    for member in members {
        put_member(alloc, line, member.0, &member.1)?;
    }
    Ok(())
}

/// An object of these members.
pub(crate) fn put_object(
    alloc: Global,
    line: &mut Writer,
    members: &[Member<'_>],
) -> Result<(), AllocError>
    ensures before { line.new.before ≡ line.old.before }
    ensures tokens { OnOk result (line.new.tokens ≡ line.old.tokens ++ begin_object ∷ (flat_map (λ m. key m.0.now ∷ tokens_of (content_data m.1)) members.now ++ end_object ∷ [])) }
{
    line.begin_object()?;
    put_members(alloc, line, members)?;
    line.end_object()
}
