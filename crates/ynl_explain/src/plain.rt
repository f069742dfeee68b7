//! Why an application waits, for a reader: a head for each of its requests, and a line for each reason.

ghost use Rattle.std.specs.Prelude.{◌≡◌, ◌++◌, IfOk};
ghost use Rattle.std.specs.List.{flat_map};
ghost use Rattle.ynl_explain.specs.Sentences as spec;

use crate::pieces::{Piece, put_pieces, put_word};
use crate::sentences::{put_head, put_sentence, put_whole_name};
use std::alloc::{AllocError, Global};
use ynl_resource::Name;
use ynl_waits::{Explained, Reason, Request, Wait};

/// The text with the line of a reason more.
fn put_reason_line(
    alloc: Global,
    text: Vec<u8>,
    request: &Request,
    reason: &Reason,
) -> Result<Vec<u8>, AllocError>
    ensures { IfOk result (λ longer.
        longer.items ≡ text.items ++ spec.reason_line request.now reason.now) }
{
    let text = put_word(text, b"  ")?;
    let text = put_sentence(alloc, text, request, reason)?;
    put_word(text, b"\n")
}

fn put_reason_lines(
    alloc: Global,
    text: Vec<u8>,
    request: &Request,
    reasons: &[Reason],
) -> Result<Vec<u8>, AllocError>
    ensures { IfOk result (λ longer.
        longer.items ≡ text.items ++ flat_map (spec.reason_line request.now) reasons.now) }
{
    let mut longer = text;
    for reason in reasons {
        longer = put_reason_line(alloc, longer, request, reason)?;
    }
    Ok(longer)
}

/// The text with the lines of a request more.
fn put_request(
    alloc: Global,
    text: Vec<u8>,
    tenant: &Name,
    app: &Name,
    wait: &Wait,
) -> Result<Vec<u8>, AllocError>
    ensures { IfOk result (λ longer.
        longer.items ≡ text.items ++ spec.plain_lines tenant.now app.now wait.now) }
{
    let text = put_head(text, tenant, app, &wait.request)?;
    put_reason_lines(alloc, text, &wait.request, wait.reasons.as_slice())
}

fn put_requests(
    alloc: Global,
    text: Vec<u8>,
    tenant: &Name,
    app: &Name,
    waits: &[Wait],
) -> Result<Vec<u8>, AllocError>
    ensures { IfOk result (λ longer.
        longer.items ≡ text.items ++ flat_map (spec.plain_lines tenant.now app.now) waits.now) }
{
    let mut longer = text;
    for wait in waits {
        longer = put_request(alloc, longer, tenant, app, wait)?;
    }
    Ok(longer)
}

/// The text with all requests more, or that there is none.
fn put_waits(
    alloc: Global,
    text: Vec<u8>,
    tenant: &Name,
    app: &Name,
    waits: &[Wait],
) -> Result<Vec<u8>, AllocError>
    ensures { IfOk result (λ longer.
        longer.items ≡ text.items ++ spec.plain_waits tenant.now app.now waits.now) }
{
    if waits.is_empty() {
        let text = put_whole_name(text, tenant, app)?;
        return put_word(text, b" waits for nothing\n");
    }
    put_requests(alloc, text, tenant, app, waits)
}

/// The text with the refusal more: there is no such application.
fn put_refused<'a>(text: Vec<u8>, tenant: &'a Name, app: &'a Name) -> Result<Vec<u8>, AllocError>
    ensures { IfOk result (λ longer.
        longer.items ≡ text.items ++ spec.refused_text tenant.now app.now) }
{
    put_pieces(
        text,
        &[
            Piece::Named(tenant),
            Piece::Word(" has no live application "),
            Piece::Named(app),
            Piece::Word("\n"),
        ],
    )
}

/// Why an application waits, in sentences: below a head for each of its requests a line for each reason. Or a line
/// that nothing waits, or that the tenant has no such application.
pub fn plain_text(
    alloc: Global,
    tenant: &Name,
    app: &Name,
    explained: &Explained,
) -> Result<Vec<u8>, AllocError>
    ensures { IfOk result (λ text. text.items ≡ spec.plain_text tenant.now app.now explained.now) }
{
    let text = Vec::new(alloc);
    match explained {
        Explained::Refused(_) => put_refused(text, tenant, app),
        Explained::Waits(waits) => put_waits(alloc, text, tenant, app, waits.as_slice()),
    }
}
