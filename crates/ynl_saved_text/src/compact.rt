//! Lines in the compact form, of the kinds of which a state has many. What is read here is a guess: who asks compares the
//! line with the text that is written for it. So contracts say that its clocks and counts are in range, and no more.

ghost use Rattle.std.specs.Prelude.{IfSome};
ghost use Rattle.ynl_saved_text.specs.StateLines.{IsClocked};

use ynl_fields::Cursor;
use ynl_model::{AskRow, Node, Placed, What};
use ynl_resource::{Label, MOST_CLOCK, MOST_COUNT, Name, Size};
use ynl_saved::StateLine;

/// Where the first byte of a key stands, behind a brace or a comma and a quote.
const KEY: usize = 2;

/// A label, and the memory that is told behind it.
fn cut_labelled(line: &mut Cursor<'_>, front: &[u8]) -> Option<(Label, u64)> {
    let label = line.label(front)?;
    let memory = line.number(b",\"memory\":")?;
    Some((label, memory))
}

/// The name of a user or a tenant, and the size whose memory was told before it.
fn cut_owned(line: &mut Cursor<'_>, front: &[u8], memory: u64) -> Option<(Name, Size)> {
    let owner = line.name(front)?;
    let size = line.size(b",\"vcores\":", memory)?;
    Some((owner, size))
}

fn cut_node(line: &mut Cursor<'_>, into: &mut StateLine) -> Option<()>
    ensures { IfSome result (λ _. IsClocked into.new) }
{
    let (label, memory) = cut_labelled(line, b"{\"label\":\"")?;
    let name = line.name(b",\"node\":\"")?;
    let stamp = line.within(b",\"stamp\":", MOST_CLOCK)?;
    let size = line.size(b",\"state\":\"node\",\"vcores\":", memory)?;
    *into = StateLine::Node(Node {
        name,
        label,
        size,
        stamp,
    });
    Some(())
}

/// A live application, from what stands behind its name.
fn cut_live(line: &mut Cursor<'_>, app: Name, into: &mut StateLine) -> Option<()>
    ensures { IfSome result (λ _. IsClocked into.new) }
{
    let (label, memory) = cut_labelled(line, b",\"label\":\"")?;
    let queue = line.path(b",\"queue\":\"")?;
    let (user, master) = cut_owned(line, b",\"state\":\"live\",\"user\":\"", memory)?;
    *into = StateLine::Live {
        queue,
        app,
        user,
        label,
        master,
    };
    Some(())
}

/// What an application asks for, from what stands behind its name.
fn cut_ask(line: &mut Cursor<'_>, app: Name, into: &mut StateLine) -> Option<()>
    ensures { IfSome result (λ _. IsClocked into.new) }
{
    let count = line.small(b",\"count\":", MOST_COUNT)?;
    let (label, memory) = cut_labelled(line, b",\"label\":\"")?;
    let priority = line.small(b",\"priority\":", u32::MAX)?;
    let (tenant, size) = cut_owned(line, b",\"state\":\"ask\",\"tenant\":\"", memory)?;
    let ask = AskRow {
        label,
        priority,
        count,
        size,
    };
    *into = StateLine::Ask { tenant, app, ask };
    Some(())
}

/// A finished application, from what stands behind its name.
fn cut_finished(line: &mut Cursor<'_>, app: Name, into: &mut StateLine) -> Option<()>
    ensures { IfSome result (λ _. IsClocked into.new) }
{
    let queue = line.path(b",\"queue\":\"")?;
    *into = StateLine::Finished { queue, app };
    Some(())
}

/// The label of what was asked for and the memory behind it, or the memory alone, of a master.
fn cut_wanted(line: &mut Cursor<'_>) -> Option<(Option<Label>, u64)> {
    if line.ahead(KEY)? == b'l' {
        let (label, memory) = cut_labelled(line, b",\"label\":\"")?;
        return Some((Some(label), memory));
    }
    let memory = line.number(b",\"memory\":")?;
    Some((None, memory))
}

/// What a container is for, from its label and its priority.
fn cut_what(line: &mut Cursor<'_>, label: Option<Label>) -> Option<What> {
    let Some(label) = label else {
        return Some(What::Master);
    };
    let priority = line.small(b",\"priority\":", u32::MAX)?;
    Some(What::Ask(label, priority))
}

/// A container, from what stands behind the name of its application.
fn cut_container(line: &mut Cursor<'_>, app: Name, into: &mut StateLine) -> Option<()>
    ensures { IfSome result (λ _. IsClocked into.new) }
{
    let id = line.id(b",\"id\":\"")?;
    let (label, memory) = cut_wanted(line)?;
    let node = line.name(b",\"node\":\"")?;
    let what = cut_what(line, label)?;
    let (tenant, size) = cut_owned(line, b",\"state\":\"container\",\"tenant\":\"", memory)?;
    *into = StateLine::Container(Placed {
        id,
        node,
        tenant,
        app,
        what,
        size,
    });
    Some(())
}

/// What a line tells that begins with the name of an application. The next key tells the kinds apart.
fn cut_of_app(line: &mut Cursor<'_>, into: &mut StateLine) -> Option<()>
    ensures { IfSome result (λ _. IsClocked into.new) }
{
    let app = line.name(b"{\"app\":\"")?;
    match line.ahead(KEY)? {
        b'i' => cut_container(line, app, into),
        b'c' => cut_ask(line, app, into),
        b'l' => cut_live(line, app, into),
        _ => cut_finished(line, app, into),
    }
}

/// What a line in the compact form tells, if it is of a kind of which a state has many: it is put into `into`, since a
/// line is large. It may end otherwise than the text of what it tells.
pub fn cut_line(line: &[u8], into: &mut StateLine) -> Option<()>
    ensures { IfSome result (λ _. IsClocked into.new) }
{
    let mut line = Cursor::new(line);
    match line.ahead(KEY)? {
        b'a' => cut_of_app(&mut line, into),
        _ => cut_node(&mut line, into),
    }
}
