//! The lines of the requests of an application.

ghost use Rattle.std.specs.Prelude.{◌≡◌, ◌++◌, ◌∷◌, [], OnOk, IfOk, codes};
ghost use Rattle.std.specs.List.{flat_map};
ghost use Rattle.json.specs.Token.{begin_array, begin_object, end_object, key};
ghost use Rattle.ynl_explain.specs.Objects.{tokens_of};
ghost use Rattle.ynl_explain.specs.Told.{back, front, inside_tokens, reason_data, reasons_tokens, told_text, wait_line, word_of};

use crate::objects::{Content, put_members};
use crate::reasons::put_reason;
use json::Writer;
use std::alloc::{AllocError, Global};
use ynl_lines::write_reply;
use ynl_model::{Reply, What};
use ynl_resource::Name;
use ynl_waits::{Explained, Reason, Request, Wait};

fn put_all(alloc: Global, line: &mut Writer, reasons: &[Reason]) -> Result<(), AllocError>
    ensures before { line.new.before ≡ line.old.before }
    ensures tokens { OnOk result (line.new.tokens ≡ line.old.tokens ++ flat_map (λ reason. tokens_of (reason_data reason)) reasons.now) }
{
    for reason in reasons {
        put_reason(alloc, line, reason)?;
    }
    Ok(())
}

fn begin_reasons(line: &mut Writer) -> Result<(), AllocError>
    ensures before { line.new.before ≡ line.old.before }
    ensures tokens { OnOk result (line.new.tokens ≡ line.old.tokens ++ key (codes "reasons") ∷ begin_array ∷ []) }
{
    line.key("reasons")?;
    line.begin_array()
}

/// The reasons of a request under their key.
fn put_reasons(alloc: Global, line: &mut Writer, reasons: &[Reason]) -> Result<(), AllocError>
    ensures before { line.new.before ≡ line.old.before }
    ensures tokens { OnOk result (line.new.tokens ≡ line.old.tokens ++ reasons_tokens reasons.now) }
{
    begin_reasons(line)?;
    put_all(alloc, line, reasons)?;
    line.end_array()
}

/// The reasons of a request, and the members behind them.
fn put_back<'a>(
    alloc: Global,
    line: &mut Writer,
    tenant: &'a Name,
    wait: &'a Wait,
    what: &'a str,
) -> Result<(), AllocError>
    ensures before { line.new.before ≡ line.old.before }
    ensures tokens { OnOk result (line.new.tokens ≡ line.old.tokens ++ (reasons_tokens wait.now.reasons ++ back tenant.now wait.now what.now)) }
{
    put_reasons(alloc, line, wait.reasons.as_slice())?;
    put_members(
        alloc,
        line,
        &[
            ("tenant", Content::Named(tenant)),
            ("vcores", Content::Vcores(&wait.request.size)),
            ("what", Content::Word(what)),
        ],
    )
}

/// The members of a request before its reasons.
fn put_front<'a>(
    alloc: Global,
    line: &mut Writer,
    app: &'a Name,
    request: &'a Request,
) -> Result<(), AllocError>
    ensures before { line.new.before ≡ line.old.before }
    ensures tokens { OnOk result (line.new.tokens ≡ line.old.tokens ++ front request.now.what app.now request.now) }
{
    match &request.what {
        What::Master => put_members(
            alloc,
            line,
            &[
                ("app", Content::Named(app)),
                ("label", Content::Labelled(&request.label)),
                ("memory", Content::Memory(&request.size)),
            ],
        ),
        What::Ask(_, priority) => put_members(
            alloc,
            line,
            &[
                ("app", Content::Named(app)),
                ("count", Content::Small(request.count)),
                ("label", Content::Labelled(&request.label)),
                ("memory", Content::Memory(&request.size)),
                ("priority", Content::Small(*priority)),
            ],
        ),
    }
}

/// The word of what a request is for.
fn word_of(what: &What) -> &'static str
    ensures { result.now ≡ word_of what.now }
{
    match what {
        What::Master => "master",
        What::Ask(_, _) => "ask",
    }
}

/// The members of a request.
fn put_inside(
    alloc: Global,
    line: &mut Writer,
    tenant: &Name,
    app: &Name,
    wait: &Wait,
) -> Result<(), AllocError>
    ensures before { line.new.before ≡ line.old.before }
    ensures tokens { OnOk result (line.new.tokens ≡ line.old.tokens ++ inside_tokens wait.now.request.what tenant.now app.now wait.now) }
{
    put_front(alloc, line, app, &wait.request)?;
    put_back(alloc, line, tenant, wait, word_of(&wait.request.what))
}

/// A request with its reasons.
fn put_wait(
    alloc: Global,
    line: &mut Writer,
    tenant: &Name,
    app: &Name,
    wait: &Wait,
) -> Result<(), AllocError>
    ensures before { line.new.before ≡ line.old.before }
    ensures tokens { OnOk result (line.new.tokens ≡ line.old.tokens ++ begin_object ∷ (inside_tokens wait.now.request.what tenant.now app.now wait.now ++ end_object ∷ [])) }
{
    line.begin_object()?;
    put_inside(alloc, line, tenant, app, wait)?;
    line.end_object()
}

/// The text with the line of a request more.
fn with_line(
    alloc: Global,
    text: Vec<u8>,
    tenant: &Name,
    app: &Name,
    wait: &Wait,
) -> Result<Vec<u8>, AllocError>
    ensures { IfOk result (λ longer. longer.items ≡ text.items ++ wait_line tenant.now app.now wait.now) }
{
    let mut line = Writer::new(text);
    put_wait(alloc, &mut line, tenant, app, wait)?;
    let mut longer = line.into_inner();
    longer.push(b'\n')?;
    Ok(longer)
}

fn with_lines(
    alloc: Global,
    text: Vec<u8>,
    tenant: &Name,
    app: &Name,
    waits: &[Wait],
) -> Result<Vec<u8>, AllocError>
    ensures { IfOk result (λ longer. longer.items ≡ text.items ++ flat_map (wait_line tenant.now app.now) waits.now) }
{
    let mut longer = text;
    for wait in waits {
        longer = with_line(alloc, longer, tenant, app, wait)?;
    }
    Ok(longer)
}

/// The text of why an application waits: a line for each of its requests, or the reply of a refusal. Amounts are in MB and
/// virtual cores.
pub fn told_text(
    alloc: Global,
    tenant: &Name,
    app: &Name,
    explained: &Explained,
) -> Result<Vec<u8>, AllocError>
    ensures { IfOk result (λ text. text.items ≡ told_text tenant.now app.now explained.now) }
{
    match explained {
        Explained::Refused(refusal) => {
            let mut text = write_reply(alloc, &Reply::Refused(*refusal))?;
            text.push(b'\n')?;
            Ok(text)
        }
        Explained::Waits(waits) => {
            with_lines(alloc, Vec::new(alloc), tenant, app, waits.as_slice())
        }
    }
}
