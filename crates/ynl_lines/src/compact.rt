//! Heartbeats in the compact form: most lines are such. Each is just the text that is written for the event, and that
//! reads as the event; so it need not be read as JSON.

ghost use Rattle.std.specs.Prelude.{◌≡◌, IfSome, Ok};
ghost use Rattle.ynl_model.specs.declared.events.Event.TheVariants.{Heartbeat};
ghost use Rattle.ynl_lines.specs.Reading.{event_of_line};

use ynl_resource::Name;

/// What stands before the node in the text of a heartbeat.
const FRONT: &[u8] = b"{\"event\":\"heartbeat\",\"node\":\"";

/// Where the first byte of its word stands there. No other event has that byte there, so lines of others cost one look.
const WORD: usize = 10;

/// What stands behind it.
const END: &[u8] = b"\"}";

/// The node of a heartbeat, where a line is just the text that [`write_event`](crate::write_event) gives for one.
pub fn heartbeat_of(line: &[u8]) -> Option<Name>
    ensures { IfSome result (λ node. event_of_line line.now ≡ Ok (Heartbeat node)) }
{
    if line.get(WORD) != Some(&b'h') {
        return None;
    }
    let Some(rest) = line.strip_prefix(FRONT) else {
        return None;
    };
    let Some(node) = rest.strip_suffix(END) else {
        return None;
    };
    match Name::of_bytes(node) {
        Ok(name) => Some(name),
        Err(_) => None,
    }
}
