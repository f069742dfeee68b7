//! The reasons that nodes and partitions give.

ghost use Rattle.std.specs.Prelude.{◌≡◌, ◌++◌, ◌∷◌, [], OnOk};
ghost use Rattle.ynl_waits.specs.Waits.{clock_told, next_told, room_told, turn_on};

use crate::grounds::{Ground, Spot, first_by_name, fits_any, has_nodes, most_free};
use crate::waits::{Reason, Turn};
use std::alloc::AllocError;
use ynl_model::Proposal;
use ynl_resource::Resource;

/// Adds a reason. It is copied from a list of one: a push gives a reason back where memory is refused, which nobody wants.
pub fn add(told: &mut Vec<Reason>, reason: Reason) -> Result<(), AllocError>
    ensures { OnOk result (told.new.items ≡ told.old.items ++ reason ∷ []) }
{
    told.extend_from_slice(&[reason])
}

/// Adds that a partition's clock is spent, where it is.
pub fn add_clock(told: &mut Vec<Reason>, ground: &Ground) -> Result<(), AllocError>
    ensures { OnOk result (told.new.items ≡ told.old.items ++ clock_told ground.now) }
{
    if ground.is_spent {
        add(told, Reason::Clock(ground.label))?;
    }
    Ok(())
}

/// Adds that a size fits what is free on no node of a partition, where nodes are there and that is so.
pub fn add_room(told: &mut Vec<Reason>, size: &Resource, ground: &Ground) -> Result<(), AllocError>
    ensures { OnOk result (told.new.items ≡ told.old.items ++ room_told size.now ground.now) }
{
    let spots = ground.spots.as_slice();
    if has_nodes(ground) && !fits_any(size, spots) {
        let free = most_free(spots);
        add(
            told,
            Reason::Room {
                label: ground.label,
                nodes: spots.len(),
                free,
            },
        )?;
    }
    Ok(())
}

/// Adds that another is ahead on the first of the nodes on which a request may be placed.
pub fn add_turn(
    told: &mut Vec<Reason>,
    first: &Spot,
    there: &[Spot],
    ahead: &Proposal,
) -> Result<(), AllocError>
    ensures { OnOk result (told.new.items ≡ told.old.items ++ turn_on first.now there.now ahead.now) }
{
    let turn = Turn {
        node: first.node.name,
        nodes: there.len(),
        ahead: *ahead,
    };
    add(told, Reason::Turn(turn))
}

/// Adds that a request is next on some nodes, where there are any.
pub fn add_next(told: &mut Vec<Reason>, chosen: &[Spot]) -> Result<(), AllocError>
    ensures { OnOk result (told.new.items ≡ told.old.items ++ next_told chosen.now) }
{
    if let Some(first) = first_by_name(chosen) {
        let next = Reason::Next {
            node: first.node.name,
            nodes: chosen.len(),
        };
        add(told, next)?;
    }
    Ok(())
}
