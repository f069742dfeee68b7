//! Where a request may go: the nodes on which it may be placed, and the reasons of each partition.

ghost use Rattle.std.specs.Prelude.{◌≡◌, ◌++◌, ◌∷◌, IfOk, OnOk, flat_map};
ghost use Rattle.ynl_waits.specs.Grounds.{open_spots};
ghost use Rattle.ynl_waits.specs.Waits.{application_told, clock_told, nodes_told, places, room_told};

use crate::grounds::{Ground, Spot, add_open_spots, has_nodes};
use crate::telling::{add, add_clock, add_room};
use crate::waits::{Applicant, Reason, Request};
use std::alloc::{AllocError, Global};
use ynl_model::What;
use ynl_resource::Resource;

/// Adds the nodes of some partitions that have room for a size, unless their clocks are spent.
fn add_all_open(list: &mut Vec<Spot>, size: &Resource, grounds: &[Ground]) -> Result<(), AllocError>
    ensures { OnOk result (list.new.items ≡ list.old.items ++ flat_map (open_spots size.now) grounds.now) }
{
    for ground in grounds {
        add_open_spots(list, size, ground)?;
    }
    Ok(())
}

/// The nodes on which a request may be placed: it is given whether it passes the tests of its own partition, that
/// partition, and those where it may go as a guest.
#[tactic(auto, unfolding(crate::specs::Waits::places))]
pub fn places(
    alloc: Global,
    app: &Applicant,
    request: &Request,
    passes: bool,
    own: &Ground,
    guests: &[Ground],
) -> Result<Vec<Spot>, AllocError>
    ensures { IfOk result (λ list. list.items ≡ places app.now request.now passes own.now guests.now) }
{
    let mut list = Vec::new(alloc);
    let size = request.size.amount();
    if passes {
        add_open_spots(&mut list, &size, own)?;
    }
    if app.runs {
        add_all_open(&mut list, &size, guests)?;
    }
    Ok(list)
}

/// Adds that the application waits, where that keeps a request back.
fn add_application(
    told: &mut Vec<Reason>,
    app: &Applicant,
    request: &Request,
) -> Result<(), AllocError>
    ensures { OnOk result (told.new.items ≡ told.old.items ++ application_told app.now request.now) }
{
    if let What::Ask(_, _) = &request.what {
        if !app.runs {
            add(told, Reason::Application)?;
        }
    }
    Ok(())
}

/// Adds that no node is in a request's own partition, where that is so.
fn add_nodes(told: &mut Vec<Reason>, own: &Ground) -> Result<(), AllocError>
    ensures { OnOk result (told.new.items ≡ told.old.items ++ nodes_told own.now) }
{
    if !has_nodes(own) {
        add(told, Reason::Nodes)?;
    }
    Ok(())
}

fn add_clocks(told: &mut Vec<Reason>, grounds: &[Ground]) -> Result<(), AllocError>
    ensures { OnOk result (told.new.items ≡ told.old.items ++ flat_map clock_told grounds.now) }
{
    for ground in grounds {
        add_clock(told, ground)?;
    }
    Ok(())
}

/// Adds the reasons that come first: the application, and whether the partitions take anything.
pub fn add_where(
    told: &mut Vec<Reason>,
    app: &Applicant,
    request: &Request,
    own: &Ground,
    guests: &[Ground],
) -> Result<(), AllocError>
    ensures { OnOk result (told.new.items ≡ told.old.items ++ application_told app.now request.now ++ nodes_told own.now ++ flat_map clock_told (own.now ∷ guests.now)) }
{
    add_application(told, app, request)?;
    add_nodes(told, own)?;
    add_clock(told, own)?;
    add_clocks(told, guests)
}

/// Adds the partitions where a size fits on no node.
pub fn add_rooms(
    told: &mut Vec<Reason>,
    size: &Resource,
    own: &Ground,
    guests: &[Ground],
) -> Result<(), AllocError>
    ensures { OnOk result (told.new.items ≡ told.old.items ++ flat_map (room_told size.now) (own.now ∷ guests.now)) }
{
    add_room(told, size, own)?;
    for ground in guests {
        add_room(told, size, ground)?;
    }
    Ok(())
}
