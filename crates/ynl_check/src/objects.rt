//! Lines that are JSON objects, whose members come in the order in which they are given.

ghost use Rattle.std.specs.Prelude.{◌≡◌, ◌++◌, ◌∷◌, [], IfOk, OnOk, option_map, Some};
ghost use Rattle.std.specs.List.{flat_map};
ghost use Rattle.json.specs.Print.{token_text};
ghost use Rattle.json.specs.Token.{string};
ghost use Rattle.ynl_check.specs.Objects.{braced, count, member_by, only, token_of};

use json::Writer;
use std::alloc::AllocError;

/// What stands under a key.
#[derive(Clone, Copy)]
pub(crate) enum Content<'a> {
    Text(&'a str),
    Number(u64),
    Integer(i64),
}

/// A key, and what stands under it, if anything does.
pub(crate) type Member<'a> = (&'a str, Option<Content<'a>>);

/// A number under a key.
pub(crate) fn number<'a>(number: u64) -> Option<Content<'a>>
    ensures { option_map token_of result ≡ Some (count number) }
{
    Some(Content::Number(number))
}

/// A text under a key.
pub(crate) fn text(text: &str) -> Option<Content<'_>>
    ensures { option_map token_of result ≡ Some (string text.now) }
{
    Some(Content::Text(text))
}

/// A number under a key, if the condition holds.
pub(crate) fn number_if<'a>(there: bool, number: u64) -> Option<Content<'a>>
    ensures { option_map token_of result ≡ only there (Some (count number)) }
{
    if there {
        Some(Content::Number(number))
    } else {
        None
    }
}

/// A text under a key, if the condition holds.
pub(crate) fn text_if(there: bool, text: &str) -> Option<Content<'_>>
    ensures { option_map token_of result ≡ only there (Some (string text.now)) }
{
    if there {
        Some(Content::Text(text))
    } else {
        None
    }
}

#[tactic(auto, unfolding(crate::specs::Objects::count))]
fn put_content(line: &mut Writer, content: &Content<'_>) -> Result<(), AllocError>
    ensures before { line.new.before ≡ line.old.before }
    ensures tokens { OnOk result (line.new.tokens ≡ line.old.tokens ++ token_of content.now ∷ []) }
{
    match content {
        Content::Text(text) => line.string(text),
        Content::Number(number) => line.u64(*number),
        Content::Integer(integer) => line.i64(*integer),
    }
}

/// Adds a member, unless nothing stands under its key.
fn put_member(line: &mut Writer, key: &str, content: &Option<Content<'_>>) -> Result<(), AllocError>
    ensures before { line.new.before ≡ line.old.before }
    ensures tokens { OnOk result (line.new.tokens ≡ line.old.tokens ++ member_by key.now (option_map token_of content.now)) }
{
    match content {
        Some(content) => {
            line.key(key)?;
            put_content(line, content)
        }
        None => Ok(()),
    }
}

fn put_members(line: &mut Writer, members: &[Member<'_>]) -> Result<(), AllocError>
    ensures before { line.new.before ≡ line.old.before }
    ensures tokens { OnOk result (line.new.tokens ≡ line.old.tokens ++ flat_map (λ m. member_by m.0.now (option_map token_of m.1)) members.now) }
{
    for member in members {
        put_member(line, member.0, &member.1)?;
    }
    Ok(())
}

/// The text with the line of an object more.
#[tactic(auto, unfolding(crate::specs::Objects::braced))]
pub(crate) fn put_object(text: Vec<u8>, members: &[Member<'_>]) -> Result<Vec<u8>, AllocError>
    ensures { IfOk result (λ longer. longer.items ≡ text.items ++ braced (flat_map (λ m. member_by m.0.now (option_map token_of m.1)) members.now)) }
{
    let mut line = Writer::new(text);
    line.begin_object()?;
    put_members(&mut line, members)?;
    line.end_object()?;
    let mut longer = line.into_inner();
    longer.push(b'\n')?;
    Ok(longer)
}

/// The text with a value more, in the form of JSON.
pub(crate) fn put_alone(text: Vec<u8>, content: &Content<'_>) -> Result<Vec<u8>, AllocError>
    ensures { IfOk result (λ longer. longer.items ≡ text.items ++ token_text (token_of content.now)) }
{
    let mut line = Writer::new(text);
    put_content(&mut line, content)?;
    Ok(line.into_inner())
}
