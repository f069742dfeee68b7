//! What a tenant's partition sees of an event.

ghost use Rattle.std.specs.Prelude.{◌≡◌, List, ℕ};
ghost use Rattle.ynl_model.specs.declared.events.Event.TheVariants.{Relabel};
ghost use Rattle.ynl_model.specs.View.{kept_if, seen_of};
ghost use Rattle.ynl_resource.specs.Names.{top_level, is_within};

use crate::track::Track;
use ynl_model::Event;
use ynl_queues::{Config, is_within};
use ynl_resource::{Label, Name, Path};

/// Whether the queue is the tenant's top-level queue or below it.
fn is_of(tenant: &Name, queue: &Path) -> bool
    ensures { result ≡ is_within (top_level tenant.now) queue.now }
{
    is_within(&[*tenant], queue.names())
}

/// Puts what is seen of a node that goes to another partition, and tells whether anything is: it registers in the one,
/// and is lost in the other.
#[tactic(auto, unfolding(ynl_model::specs::View::seen_of))]
fn narrow_relabel(
    label: &Label,
    config: &Config,
    track: &Track,
    node: &Name,
    to: &Label,
    seen: &mut Event,
) -> bool
    ensures { (tenant : List ℕ) → kept_if result seen.new ≡ seen_of tenant label.now config.now track.now (Relabel node.now to.now) }
{
    if !track.relabels(config, node, to) {
        return false;
    }
    if *to != *label {
        *seen = Event::Lost { node: *node };
        return track.has(node, label);
    }
    match track.node(node) {
        Some(found) => {
            *seen = Event::Register {
                node: *node,
                label: *label,
                size: found.size,
            };
            true
        }
        None => false,
    }
}

/// Makes of an event what the tenant's partition sees of it, by the track before it, and tells whether it sees anything. Of
/// the tenant's own doings it sees what is done in its queues and to its applications, and of these what names the
/// partition; of the nodes it sees what happens on those of the partition, whatever tenant a commit names. An event is
/// large, so `seen` holds it already, and is changed where it is seen as another.
#[tactic(auto, unfolding(ynl_model::specs::View::seen_of))]
pub fn narrow(
    tenant: &Name,
    label: &Label,
    config: &Config,
    track: &Track,
    event: &Event,
    seen: &mut Event,
) -> bool
    requires { seen.old ≡ event.now }
    ensures { kept_if result seen.new ≡ seen_of tenant.now label.now config.now track.now event.now }
{
    match event {
        Event::Submit { queue, .. } | Event::Stop { queue } | Event::Start { queue } => {
            is_of(tenant, queue)
        }
        Event::Finish { tenant: of, .. } => *of == *tenant,
        Event::Ask {
            tenant: of,
            label: on,
            ..
        } => *of == *tenant && *on == *label,
        Event::Poll {
            tenant: of,
            label: on,
            ..
        } => *of == *tenant && *on == *label,
        Event::Release { tenant: of, id } => *of == *tenant && id.label == *label,
        Event::Usage { queue, label: on } => *on == *label && is_of(tenant, queue),
        Event::Maximum {
            queue,
            label: on,
            ..
        } => *on == *label && is_of(tenant, queue),
        Event::Heartbeat { node }
        | Event::Exited { node, .. }
        | Event::Propose { node }
        | Event::Lost { node } => track.has(node, label),
        Event::Commit { proposal } => track.has(&proposal.node, label),
        Event::Register {
            node,
            label: on,
            ..
        } => track.registers(config, node, on) && *on == *label,
        Event::Relabel { node, label: to } => {
            narrow_relabel(label, config, track, node, to, seen)
        }
    }
}
