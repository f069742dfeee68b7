//! The lanes of all leaves on all partitions.

ghost use Rattle.std.specs.Prelude.{◌≡◌, ◌<◌, ◌-◌, ◌^◌, IfOk, IsSome, replicate};
ghost use Rattle.ynl_lanes.specs.lane.Rows.{IsUse};
ghost use Rattle.ynl_lanes.specs.lane.Seats.{IsSeat};
ghost use Rattle.ynl_lanes.specs.table.Lanes.{AddsOne, Changes, Enters, IsLaneAt, Removes, Reserves, SetsUsed, lane_at, no_seats};

use crate::lane::{Both, Lane};
use crate::lows::Low;
use std::alloc::{AllocError, Global};
use std::marker::Model;
use ynl_resource::Resource;

/// The lanes by partition and queue. A lane takes no memory until room for a first seat is reserved.
pub struct Lanes {
    lanes: Vec<Vec<Lane>>,
}

impl Drop for Lanes {
    fn drop(self) {
        let Lanes { lanes: _ } = self;
    }
}

impl Model for Lanes {
    ghost use Rattle.std.specs.Prelude.{List, map};
    ghost use Rattle.ynl_lanes.specs.lane.Seats.{Seats};

    ghost Value = { List (List Seats) };

    ghost view = { λ a. map (λ row. row.items) a.lanes.items };
}

/// As many lanes with no seats.
fn empty_lanes(alloc: Global, queues: usize) -> Result<Vec<Lane>, AllocError>
    ensures { IfOk result (λ lanes. lanes.items ≡ replicate queues no_seats) }
{
    let mut lanes = Vec::with_capacity(alloc, queues)?;
    for _queue in 0..queues {
        lanes.push(Lane::new(alloc))?;
    }
    Ok(lanes)
}

impl Lanes {
    /// A lane with no seats for each of so many queues on each of so many partitions. It fails if memory is refused.
    pub fn new(alloc: Global, partitions: usize, queues: usize) -> Result<Lanes, AllocError>
        ensures { IfOk result (λ lanes. lanes ≡ replicate partitions (replicate queues no_seats)) }
    {
        let mut lanes = Vec::with_capacity(alloc, partitions)?;
        for _partition in 0..partitions {
            lanes.push(empty_lanes(alloc, queues)?)?;
        }
        Ok(Lanes { lanes })
    }

    /// The lane of a queue on a partition.
    pub fn lane(&self, partition: usize, queue: usize) -> &Lane
        requires { IsLaneAt partition queue self.now }
        ensures { result.now ≡ lane_at partition queue self.now }
    {
        &self.lanes[partition][queue]
    }

    /// One more seat in a lane, for an application of the user for whom there is room.
    pub fn add(&mut self, partition: usize, queue: usize, app: u32) -> u32
        requires lane { IsLaneAt partition queue self.old }
        requires ready { IsSome (lane_at partition queue self.old).ready }
        ensures lanes { Changes partition queue (AddsOne app result) self.old self.new }
        ensures small { result < 2 ^ 32 - 1 }
    {
        self.lanes[partition][queue].add(app)
    }

    /// Takes all memory that the next seat of a user in a lane needs, so `add` takes none. It fails if memory is refused, and if
    /// the lane has 2^32 - 1 seats or users.
    pub fn reserve(&mut self, partition: usize, queue: usize, user: u32) -> Result<(), AllocError>
        requires { IsLaneAt partition queue self.old }
        ensures { Changes partition queue (Reserves user result) self.old self.new }
    {
        self.lanes[partition][queue].reserve_for(user)
    }

    /// What waits at a seat of a lane from now on: of each kind the least of the sizes, or `Low::NONE`.
    pub fn enter(&mut self, partition: usize, queue: usize, ticket: u32, waits: &Both<Low>)
        requires lane { IsLaneAt partition queue self.old }
        requires seat { IsSeat ticket (lane_at partition queue self.old).seats }
        ensures { Changes partition queue (Enters ticket waits.now) self.old self.new }
    {
        self.lanes[partition][queue].enter(ticket, waits);
    }

    /// What the user of a seat of a lane uses of the partition from now on: at most 2^48 MB and virtual cores.
    pub fn set_used(&mut self, partition: usize, queue: usize, ticket: u32, used: Resource)
        requires lane { IsLaneAt partition queue self.old }
        requires seat { IsSeat ticket (lane_at partition queue self.old).seats }
        requires used { IsUse used }
        ensures { Changes partition queue (SetsUsed ticket used) self.old self.new }
    {
        self.lanes[partition][queue].set_used(ticket, used);
    }

    /// The seat of a lane goes. What its user uses is forgotten with the last seat.
    pub fn remove(&mut self, partition: usize, queue: usize, ticket: u32)
        requires lane { IsLaneAt partition queue self.old }
        requires seat { IsSeat ticket (lane_at partition queue self.old).seats }
        ensures { Changes partition queue (Removes ticket) self.old self.new }
    {
        self.lanes[partition][queue].remove(ticket);
    }
}
