//! A cluster: all its parts together.

ghost use Rattle.std.specs.Prelude.{◌≡◌, ◌≢◌, ◌<◌, ◌≤◌, ◌+◌, ◌-◌, false, true, length, None, Some, IfOk, IfSome, IsOk, IsSome, nat_eq, OnErr, OnOk, option_map, slice_get, slice_index_or, []};
ghost use Rattle.std.specs.Map.{lookup};
ghost use Rattle.ynl_model.specs.Cluster.{guaranteed, in_partition, maximum, opening, total};
ghost use Rattle.ynl_model.specs.Nodes.{is_full, nodes_of, stamped};
ghost use Rattle.ynl_model.specs.Queues.{accepts, capacity_on, maximum_on, queue_row, set_maximum, set_stop};
ghost use Rattle.ynl_model.specs.Applications.{finished, in_leaf, new_app, set_ask, submitted, with_app};
ghost use Rattle.ynl_model.specs.Changes.{app_finishes, end, node_joins, node_leaves, place, with_container};
ghost use Rattle.ynl_resource.specs.Ranges.{most_nodes};
ghost use Rattle.ynl_laws.specs.Uses.{use_of};
ghost use Rattle.ynl_inventory.specs.layout.Paths.{HasNumber};
ghost use Rattle.ynl_cluster.specs.uses.Tallies.{IsSmallUse, IsTotal};
ghost use Rattle.ynl_slots.specs.Slots.{without, IsLive, IsUnused};
ghost use Rattle.ynl_tables.specs.declared.apps.app.Tickets.{Tickets as TicketPair};
ghost use Rattle.ynl_inventory.specs.Rows.{AppRow, NodeRow};
ghost use Rattle.ynl_inventory.specs.Changes.{partition_of_node, with_app_gone, with_asked, with_dropped, with_ended, with_joined, with_left, with_node_gone, with_placed, with_submitted, with_clock, with_stamp, with_stood, with_tickets, with_user_known};
ghost use Rattle.ynl_inventory.specs.Meaning.{app_name, app_of, ask_of, item_of, node_number, node_of, placed_of};
ghost use Rattle.ynl_inventory.specs.Parts.{CanPlace, CanStand, LeavesRoom, containers_of, held_at, placed_on};
ghost use Rattle.ynl_inventory.specs.Sound.{CanAsk, CanShow, CanSubmit, HasNoContainers, HasPartition, IsFor, IsPlaceable, IsSound, OwnsNoContainers};
ghost use Rattle.ynl_cluster.specs.ledger.Ledger.{total_in, IsBounded};
ghost use Rattle.ynl_cluster.specs.seating.Seating.{AreSeated};
ghost use Rattle.ynl_cluster.specs.Cluster.{held_in, label_of, path_of, state_in, stood_in, AreNumbered, AskSizes, IsCell, IsLaneIn};
ghost use Rattle.ynl_cluster.specs.Leaving.{IsLeaving};
ghost use Rattle.ynl_cluster.specs.Finishing.{IsFinishing, OwnsNoneBefore};

use crate::ledger::{Totals, tally_of};
use crate::seating::{enter, follow_end, follow_placement, reserve, seat, unseat};
use crate::uses::Uses;
use crate::ways::way_to;
use std::alloc::{AllocError, Global};
use std::marker::Model;
use ynl_inventory::layout::settings::{Shares, Stops};
use ynl_inventory::{Inventory, NewSubmission, Placement};
use ynl_lanes::lane::Lane;
use ynl_lanes::table::Lanes;
use ynl_model::{LeafSettings, Use};
use ynl_queues::Config;
use ynl_resource::{Hundredths, MOST_NODES, Name, Resource, Size};
use ynl_tables::apps::Ask;
use ynl_tables::containers::Container;

/// A cluster under numbers. What its queues use and how much there is of each partition is kept
/// beside its rows, and so are the lanes of those who wait. A contract sees the configuration, the
/// rows and what is set of the queues.
pub struct Cluster {
    config: Config,
    inventory: Inventory,
    uses: Uses,
    totals: Totals,
    shares: Shares,
    stops: Stops,
    lanes: Lanes,
}

// By hand, so that crates above call it: one that is derived is proved anew in each of them, with
// all that it holds.
impl Drop for Cluster {
    fn drop(self) {
        let Cluster {
            config: _,
            inventory: _,
            uses: _,
            totals: _,
            shares: _,
            stops: _,
            lanes: _,
        } = self;
    }
}

impl Model for Cluster {
    ghost use Rattle.ynl_cluster.specs.Cluster.{ClusterView};
    ghost use Rattle.ynl_cluster.specs.Whole.{view_of, IsCluster};

    ghost Value = { ClusterView };

    ghost view = { view_of };

    ghost invariant = { IsCluster };
}

impl Cluster {
    /// The cluster of a configuration before any event. It fails if memory is refused, and where
    /// there are more labels or queues than numbers. An accepted configuration has at most 64
    /// labels and 1,024 queues.
    pub fn new(alloc: Global, config: Config) -> Result<Cluster, AllocError>
        ensures config { IfOk result (λ cluster. cluster.config ≡ config) }
        ensures state { IfOk result (λ cluster. state_in cluster ≡ opening config) }
    {
        let labels = config.labels().rows().len();
        let below_root = config.queues().len();
        if labels > u8::MAX as usize || below_root > u32::MAX as usize {
            return Err(AllocError);
        }
        let partitions = labels + 1;
        let queues = below_root + 1;
        let uses = Uses::new(alloc, partitions, queues)?;
        let totals = Totals::new(alloc, partitions)?;
        let shares = Shares::new(alloc, &config)?;
        let stops = Stops::new(alloc, &config)?;
        let lanes = Lanes::new(alloc, partitions, queues)?;
        let inventory = Inventory::new(alloc, &config)?;
        // Opens the inventory, whose rows are sound.
        let _ = inventory.partition_count();
        Ok(Cluster {
            config,
            inventory,
            uses,
            totals,
            shares,
            stops,
            lanes,
        })
    }

    /// Its configuration.
    pub fn config(&self) -> &Config
        ensures { result.now ≡ self.now.config }
    {
        &self.config
    }

    /// What it holds.
    pub fn inventory(&self) -> &Inventory
        ensures value { result.now ≡ held_in self.now }
        ensures rooms { length self.now.rooms ≡ length self.now.rows.partitions }
        ensures configured { IsFor self.now.config self.now.rows }
        ensures bounded { IsBounded self.now.rows }
        ensures sizes { AskSizes self.now.rows }
        ensures sound { IsSound self.now.rows }
        ensures numbers { AreNumbered self.now.rows }
    {
        // Opens the inventory, which has room by partition.
        let _ = self.inventory.partition_count();
        &self.inventory
    }

    /// The lanes of those who wait.
    pub fn lanes(&self) -> &Lanes
        ensures { AreSeated self.now.rows result.now }
    {
        &self.lanes
    }

    /// What a queue uses of a partition.
    pub fn used(&self, p: u8, queue: usize) -> &Use
        requires { IsCell self.now p queue }
        ensures value { result.now ≡ use_of (state_in self.now)
            (label_of self.now p) (path_of self.now queue) }
        ensures small { IsSmallUse result.now }
    {
        self.uses.of(p as usize, queue)
    }

    /// How much there is of a partition.
    pub fn total(&self, p: u8) -> Resource
        requires { HasPartition self.now.rows p }
        ensures value { result ≡ total (state_in self.now) (label_of self.now p) }
        ensures small { IsTotal result }
    {
        self.totals.amount(p as usize)
    }

    /// How many nodes a partition has.
    pub fn nodes(&self, p: u8) -> u32
        requires { HasPartition self.now.rows p }
        ensures { result ≡ length (nodes_of (state_in self.now).nodes (label_of self.now p)) }
    {
        self.totals.nodes(p as usize)
    }

    /// Whether a partition has as many nodes as it may have.
    pub fn is_full(&self, p: u8) -> bool
        requires { HasPartition self.now.rows p }
        ensures { result ≡ is_full (state_in self.now).nodes (label_of self.now p) }
    {
        self.totals.nodes(p as usize) as usize >= MOST_NODES
    }

    /// What a queue is guaranteed of a partition.
    pub fn guaranteed(&self, p: u8, queue: usize) -> Resource
        requires { IsCell self.now p queue }
        ensures { result ≡ guaranteed self.now.config (state_in self.now)
            (path_of self.now queue) (label_of self.now p) }
    {
        let total = self.totals.amount(p as usize);
        let way = way_to(self.inventory.layout(), queue);
        self.shares.guaranteed(p as usize, way, &total)
    }

    /// The most that a queue may use of a partition.
    pub fn maximum(&self, p: u8, queue: usize) -> Resource
        requires { IsCell self.now p queue }
        ensures { result ≡ maximum (state_in self.now)
            (path_of self.now queue) (label_of self.now p) }
    {
        let total = self.totals.amount(p as usize);
        let way = way_to(self.inventory.layout(), queue);
        self.shares.most(p as usize, way, &total)
    }

    /// The part of its parent's that a queue below root is guaranteed of a partition.
    pub fn capacity_share(&self, p: u8, queue: usize) -> Hundredths
        requires below_root { 0 < queue }
        requires there { IsCell self.now p queue }
        ensures { result ≡ capacity_on self.now.config
            (path_of self.now queue) (label_of self.now p) }
    {
        self.shares.capacity(p as usize, queue)
    }

    /// The part of its parent's that a queue below root may use of a partition at most.
    pub fn maximum_share(&self, p: u8, queue: usize) -> Hundredths
        requires below_root { 0 < queue }
        requires there { IsCell self.now p queue }
        ensures { result ≡ maximum_on (state_in self.now).maxima
            (path_of self.now queue) (label_of self.now p) }
    {
        self.shares.maximum(p as usize, queue)
    }

    /// What is configured of a queue below root as a leaf.
    pub fn leaf_settings(&self, queue: usize) -> &LeafSettings
        requires below_root { 0 < queue }
        requires there { HasNumber self.now.rows.paths queue }
        ensures { option_map (λ row. row.leaf)
            (queue_row self.now.config (path_of self.now queue)) ≡ Some result.now }
    {
        &self.config.row_at(queue - 1).leaf
    }

    /// The lane of those who wait in a leaf on a partition.
    pub fn lane(&self, p: u8, leaf: usize) -> &Lane
        requires { IsCell self.now p leaf }
        ensures lane { IsLaneIn self.now p leaf result.now }
        ensures sound { IsSound self.now.rows }
        ensures sizes { AskSizes self.now.rows }
    {
        self.lanes.lane(p as usize, leaf)
    }

    /// Whether neither a queue nor one above it is stopped.
    pub fn accepts(&self, queue: usize) -> bool
        requires { HasNumber self.now.rows.paths queue }
        ensures { result ≡ accepts (state_in self.now).stops (path_of self.now queue) }
    {
        !self.stops.any(way_to(self.inventory.layout(), queue))
    }

    /// Whether a queue below root is stopped itself.
    pub fn is_stopped(&self, queue: usize) -> bool
        requires below_root { 0 < queue }
        requires there { HasNumber self.now.rows.paths queue }
        ensures { slice_get (state_in self.now).stops (queue - 1)
            ≡ Some (record { queue = path_of self.now queue; stopped = result }) }
    {
        self.stops.of(queue)
    }

    /// A queue below root is stopped, or started again.
    pub fn set_stopped(&mut self, queue: usize, stopped: bool)
        requires below_root { 0 < queue }
        requires there { HasNumber self.old.rows.paths queue }
        ensures rows { self.new ≡ record self.old { stops = self.new.stops } }
        ensures state { state_in self.new ≡ record (state_in self.old) {
          stops = set_stop (path_of self.old queue) stopped (state_in self.old).stops;
        } }
    {
        self.stops.set(queue, stopped);
    }

    /// The most that a queue below root may use of a partition is another part of its parent's.
    pub fn set_maximum(&mut self, p: u8, queue: usize, share: Hundredths)
        requires below_root { 0 < queue }
        requires there { IsCell self.old p queue }
        ensures rows { self.new ≡ record self.old { shares = self.new.shares } }
        ensures state { state_in self.new ≡ record (state_in self.old) {
          maxima = set_maximum (path_of self.old queue) (label_of self.old p) share
              (state_in self.old).maxima;
        } }
    {
        self.shares.set_maximum(p as usize, queue, share);
    }

    /// The clock of a partition is set. It takes no memory.
    pub fn set_clock(&mut self, p: u8, clock: u64)
        requires there { HasPartition self.old.rows p }
        requires can { CanShow self.old.rows p clock }
        ensures rows { self.new ≡ record self.old { rows = with_clock p clock self.old.rows } }
        ensures state { state_in self.new ≡ record (state_in self.old) {
          partitions = in_partition (label_of self.old p) (λ row. record row { clock = clock })
              (state_in self.old).partitions;
        } }
    {
        self.inventory.set_clock(p, clock);
        // Opens the inventory, whose rows are sound.
        let _ = self.inventory.partition_count();
    }

    /// The stamp of a node is set. It takes no memory.
    pub fn set_stamp(&mut self, node: u32, stamp: u64)
        requires { IsLive node self.old.rows.nodes }
        ensures rows { self.new ≡ record self.old { rows = with_stamp node stamp self.old.rows } }
        ensures state { (row : NodeRow) → lookup (nat_eq node) self.old.rows.nodes ≡ Some row
            → state_in self.new ≡ record (state_in self.old) {
              nodes = stamped row.name (label_of self.old row.partition) stamp (state_in self.old).nodes;
            } }
    {
        self.inventory.set_stamp(node, stamp);
        // Opens the inventory, whose rows are sound.
        let _ = self.inventory.partition_count();
    }

    /// Reserves room for so many more containers in a partition. It fails where
    /// `Inventory::reserve_for` does.
    pub fn reserve_for(&mut self, p: u8, count: u32) -> Result<(), AllocError>
        requires { HasPartition self.old.rows p }
        ensures rows { self.new ≡ record self.old { rooms = self.new.rooms } }
        ensures ok { OnOk result (IfSome (slice_get self.new.rooms p) (λ room. count ≤ room)) }
        ensures rooms { LeavesRoom p 0 self.old.rooms self.new.rooms }
    {
        self.inventory.reserve_for(p, count)
    }

    /// The number of the user of a name, a new one if there is none. It fails where
    /// `Inventory::user` does.
    pub fn user(&mut self, name: &Name) -> Result<u32, AllocError>
        ensures ok { OnOk result (self.new ≡ record self.old {
          rows = with_user_known name.now self.old.rows;
        }) }
        ensures own { IfOk result (λ user. slice_get self.new.rows.users user ≡ Some name.now) }
        ensures state { state_in self.new ≡ state_in self.old }
        ensures err { OnErr result (self.new ≡ self.old) }
    {
        let user = self.inventory.user(name)?;
        // Opens the inventory, whose rows are sound.
        let _ = self.inventory.partition_count();
        Ok(user)
    }

    /// A container is placed on a node. It returns the container's number in the node's partition.
    /// It takes no memory.
    pub fn place(&mut self, placed: &Placement) -> u32
        requires { CanPlace (held_in self.old) placed.now }
        ensures rows { self.new ≡ record self.old {
          rows = with_placed result
              placed.now.node placed.now.app placed.now.role placed.now.size self.old.rows;
          rooms = self.new.rooms;
        } }
        ensures unused { IsUnused result (containers_of self.old.rows
            (partition_of_node self.old.rows.nodes placed.now.node)) }
        ensures rooms { LeavesRoom (partition_of_node self.old.rows.nodes placed.now.node) 1
            self.old.rooms self.new.rooms }
        ensures state { (can : IsPlaceable self.old.rows placed.now.node placed.now.app placed.now.role)
            → state_in self.new ≡ place self.old.config
            (node_of self.old.rows.partitions can.node_row)
            (item_of self.old.rows can.app_row placed.now.role placed.now.size)
            (state_in self.old) }
    {
        let app = self.inventory.app(placed.app);
        let asked = app.asks.as_slice().len();
        let line = self.inventory.layout().line(app.leaf as usize);
        let node = self.inventory.node(placed.node);
        let p = node.partition;
        // Opens the size, which is one that requests may have.
        let _size = placed.size.amount();
        self.uses
            .raise(p as usize, line, &tally_of(p, placed.role, placed.size));
        let number = self.inventory.place(placed);
        follow_placement(&self.inventory, &mut self.lanes, p, placed, asked);
        number
    }

    /// A container stands on a node as one that was placed at this clock, as `Inventory::stand` says, and fails where
    /// that does. It returns the container's number in the node's partition.
    pub fn stand(&mut self, placed: &Placement, clock: u64) -> Result<u32, AllocError>
        requires { CanStand self.old.rows placed.now clock }
        ensures rows { IfOk result (λ number. self.new ≡ record self.old {
          rows = with_stood (partition_of_node self.old.rows.nodes placed.now.node) number
              (placed_on placed.now clock) self.old.rows;
          rooms = self.new.rooms;
        }) }
        ensures state { OnOk result (state_in self.new
            ≡ with_container (stood_in self.old placed.now clock) (state_in self.old)) }
        ensures err { OnErr result (self.new ≡ record self.old { rooms = self.new.rooms }) }
    {
        let number = self.inventory.stand(placed, clock)?;
        // Opens the inventory, whose rows are sound.
        let _ = self.inventory.partition_count();
        // Opens the size, which is one that requests may have.
        let _size = placed.size.amount();
        let app = self.inventory.app(placed.app);
        let asked = app.asks.as_slice().len();
        let line = self.inventory.layout().line(app.leaf as usize);
        let p = self.inventory.node(placed.node).partition;
        let tally = tally_of(p, placed.role, placed.size);
        self.uses.raise(p as usize, line, &tally);
        let lanes = &mut self.lanes;
        follow_placement(&self.inventory, lanes, p, placed, asked);
        Ok(number)
    }

    /// The container under a number in a partition ends. It takes no memory.
    pub fn end(&mut self, p: u8, number: u32) -> Container
        requires { IsSome (held_at self.old.rows p number) }
        ensures value { held_at self.old.rows p number ≡ Some result }
        ensures rows { self.new ≡ record self.old {
          rows = with_ended p number result.node self.old.rows;
          rooms = self.new.rooms;
        } }
        ensures rooms { LeavesRoom p 0 self.old.rooms self.new.rooms }
        ensures state { state_in self.new ≡ end self.old.config (state_in self.old)
            (placed_of self.old.rows (label_of self.old p) result) }
    {
        let held = self.inventory.container(p, number);
        let app = self.inventory.app(held.app);
        let line = self.inventory.layout().line(app.leaf as usize);
        self.uses
            .lower(p as usize, line, &tally_of(p, held.role, held.size));
        let ended = self.inventory.end(p, number);
        follow_end(&self.inventory, &mut self.lanes, p, &ended);
        ended
    }

    /// A node of a new name joins a partition that is not full, with all of it free. It returns the
    /// node's number. It fails where `Inventory::join` does.
    pub fn join(&mut self, name: &Name, p: u8, size: Size) -> Result<u32, AllocError>
        requires partition { HasPartition self.old.rows p }
        requires new { node_number name.now self.old.rows.nodes ≡ None }
        requires few { is_full (state_in self.old).nodes (label_of self.old p) ≡ false }
        ensures ok { IfOk result (λ n. self.new ≡ record self.old {
          rows = with_joined n name.now p size self.old.rows;
        }) }
        ensures unused { IfOk result (λ n. IsUnused n self.old.rows.nodes) }
        ensures state { OnOk result (state_in self.new ≡ node_joins self.old.config
            name.now (label_of self.old p) size (state_in self.old)) }
        ensures err { OnErr result (self.new ≡ self.old) }
    {
        // Opens the size, which is one that nodes may have.
        let _amount = size.amount();
        let number = self.inventory.join(name, p, size)?;
        self.totals.add(p as usize, size);
        Ok(number)
    }

    /// An application asks, as `Inventory::ask` says, and fails where that does.
    pub fn ask(&mut self, app: u32, ask: Ask) -> Result<(), AllocError>
        requires { CanAsk self.old.rows app ask }
        ensures ok { OnOk result (self.new ≡ record self.old {
          rows = with_asked app ask self.old.rows;
        }) }
        ensures state { OnOk result ((row : AppRow) → lookup (nat_eq app) self.old.rows.apps ≡ Some row
            → state_in self.new ≡ record (state_in self.old) {
              leaves = in_leaf (path_of self.old row.leaf)
                  (with_app (app_name self.old.rows.tenants row.tenant row.turn)
                  (set_ask (ask_of self.old.rows.partitions ask))) (state_in self.old).leaves;
            }) }
        ensures err { OnErr result (self.new ≡ self.old) }
        ensures no_count { ask.count ≡ 0 → IsOk result }
    {
        // Opens the size, which is one that requests may have.
        let _amount = ask.size.amount();
        self.inventory.ask(app, ask)?;
        enter(&self.inventory, &mut self.lanes, app);
        Ok(())
    }

    /// An application without containers is live no more. Its name stays.
    fn finish_alone(&mut self, app: u32)
        requires live { IsLive app self.old.rows.apps }
        requires empty { OwnsNoContainers self.old.rows app }
        ensures rows { IfSome (lookup (nat_eq app) self.old.rows.apps) (λ row. self.new
            ≡ record self.old { rows = with_app_gone app row.tenant row.turn self.old.rows }) }
        ensures state { (row : AppRow) → lookup (nat_eq app) self.old.rows.apps ≡ Some row
            → state_in self.new ≡ record (state_in self.old) {
              leaves = in_leaf (path_of self.old row.leaf)
                  (finished (app_name self.old.rows.tenants row.tenant row.turn))
                  (state_in self.old).leaves;
            } }
    {
        unseat(&self.inventory, &mut self.lanes, app);
        self.inventory.finish(app);
    }

    /// The containers of an application in a partition end one after another, where it has none in
    /// the partitions before.
    fn end_own(&mut self, app: u32, p: u8)
        requires live { IsLive app self.old.rows.apps }
        requires partition { HasPartition self.old.rows p }
        requires first { OwnsNoneBefore self.old.rows app p }
        ensures ended { IsFinishing app self.old self.new }
        ensures none { OwnsNoneBefore self.new.rows app (p + 1) }
    {
        while let Some(number) = self.inventory().first_of_app(app, p) {
            let _ended = self.end(p, number);
        }
    }

    /// The containers of an application end in the order of their ids, and it is live no more. Its
    /// name stays. It takes no memory.
    pub fn finish(&mut self, app: u32)
        requires { IsLive app self.old.rows.apps }
        ensures rows { IfSome (lookup (nat_eq app) self.old.rows.apps) (λ row. self.new
            ≡ record self.old {
              rows = record (with_app_gone app row.tenant row.turn self.old.rows) {
                partitions = self.new.rows.partitions;
                nodes = self.new.rows.nodes;
              };
              rooms = self.new.rooms;
            }) }
        ensures same { self.new ≡ record self.old {
          rows = record self.old.rows {
            partitions = self.new.rows.partitions;
            nodes = self.new.rows.nodes;
            apps = without app self.old.rows.apps;
            tenants = self.new.rows.tenants;
          };
          rooms = self.new.rooms;
        } }
        ensures state { (row : AppRow) → lookup (nat_eq app) self.old.rows.apps ≡ Some row
            → state_in self.new ≡ app_finishes self.old.config
            (app_of self.old.rows (app, row)) (state_in self.old) }
    {
        let count = self.inventory().partition_count();
        for p in 0..count {
            self.end_own(app, p as u8);
        }
        // Opens the inventory, whose rows are sound.
        let _ = self.inventory();
        self.finish_alone(app);
    }

    /// An application is submitted. It returns the application's number. All memory is taken first:
    /// it fails if that is refused, and where `Inventory::submit` and `Lanes::reserve` do.
    pub fn submit(&mut self, name: &Name, new: &NewSubmission) -> Result<u32, AllocError>
        requires { CanSubmit self.old.rows name.now new.now }
        ensures rows { IfOk result (λ app. (tickets : TicketPair) × (self.new ≡ record self.old {
          rows = with_tickets app tickets (with_submitted app name.now new.now.tenant
              new.now.leaf new.now.user new.now.home new.now.master_size self.old.rows);
        })) }
        ensures unused { IfOk result (λ app. IsUnused app self.old.rows.apps) }
        ensures state { OnOk result (state_in self.new ≡ record (state_in self.old) {
          leaves = in_leaf (path_of self.old new.now.leaf)
              (submitted (new_app (path_of self.old new.now.leaf) name.now
              (slice_index_or self.old.rows.users new.now.user [])
              (label_of self.old new.now.home) new.now.master_size)) (state_in self.old).leaves;
        }) }
        ensures err { OnErr result (self.new ≡ self.old) }
    {
        // Opens the size, which is one that requests may have.
        let _amount = new.master_size.amount();
        reserve(&mut self.lanes, new.home, new.leaf, new.user)?;
        let app = self.inventory.submit(name, new)?;
        seat(&mut self.inventory, &mut self.lanes, app);
        Ok(app)
    }

    /// The container under a number in a partition goes with its node: no clock rises.
    fn discard(&mut self, p: u8, number: u32)
        requires { IsSome (held_at self.old.rows p number) }
        ensures { self.new ≡ record self.old {
          rows = with_dropped p number self.old.rows;
          rooms = self.new.rooms;
        } }
    {
        let held = self.inventory.container(p, number);
        let app = self.inventory.app(held.app);
        let line = self.inventory.layout().line(app.leaf as usize);
        self.uses
            .lower(p as usize, line, &tally_of(p, held.role, held.size));
        let gone = self.inventory.discard(p, number);
        follow_end(&self.inventory, &mut self.lanes, p, &gone);
    }

    /// A node without containers leaves.
    fn leave_alone(&mut self, node: u32)
        requires live { IsLive node self.old.rows.nodes }
        requires empty { HasNoContainers self.old.rows node }
        ensures { self.new ≡ record self.old { rows = with_node_gone node self.old.rows } }
    {
        let row = self.inventory.node(node);
        self.totals.take(row.partition as usize, row.size);
        self.inventory.leave(node);
    }

    /// The containers of a node go with it one after another, so that it has none.
    fn clear(&mut self, node: u32)
        requires { IsLive node self.old.rows.nodes }
        ensures left { (row : NodeRow) → lookup (nat_eq node) self.old.rows.nodes ≡ Some row
            → IsLeaving node row.partition self.old self.new }
        ensures empty { HasNoContainers self.new.rows node }
    {
        let p = self.inventory.node(node).partition;
        while let Some(number) = self.inventory().first_of_node(node) {
            self.discard(p, number);
        }
    }

    /// A node leaves, and its containers go with it one after another. It takes no memory.
    pub fn leave(&mut self, node: u32)
        requires { IsLive node self.old.rows.nodes }
        ensures rows { self.new ≡ record self.old {
          rows = with_left node self.old.rows;
          rooms = self.new.rooms;
        } }
        ensures state { (row : NodeRow) → lookup (nat_eq node) self.old.rows.nodes ≡ Some row
            → state_in self.new
            ≡ node_leaves (node_of self.old.rows.partitions row) (state_in self.old) }
    {
        // Opens the inventory, whose rows are sound.
        let _ = self.inventory();
        self.clear(node);
        self.leave_alone(node);
    }

    /// Reserves room for a node that joins again. It fails where `Inventory::reserve_node` does.
    fn reserve_node(&mut self) -> Result<(), AllocError>
        ensures ok { OnOk result (self.new ≡ record self.old { ready = true }) }
        ensures err { OnErr result (self.new ≡ self.old) }
    {
        self.inventory.reserve_node()
    }

    /// A node without containers leaves, and joins another partition that is not full. It returns
    /// the node's new number.
    fn move_alone(&mut self, node: u32, p: u8) -> u32
        requires there { IsLive node self.old.rows.nodes × HasPartition self.old.rows p }
        requires empty { HasNoContainers self.old.rows node }
        requires ready { self.old.ready ≡ true }
        requires few { (total_in self.old.rows p).nodes < most_nodes }
        requires other { p ≢ partition_of_node self.old.rows.nodes node }
        ensures rows { IfSome (lookup (nat_eq node) self.old.rows.nodes) (λ row. self.new
            ≡ record self.old {
              rows = with_joined result row.name p row.size (with_node_gone node self.old.rows);
              ready = false;
            }) }
        ensures unused { IsUnused result (without node self.old.rows.nodes) }
    {
        let row = self.inventory.node(node);
        let size = row.size;
        // Opens the size, which is one that nodes may have.
        let _amount = size.amount();
        self.totals.take(row.partition as usize, size);
        let number = self.inventory.rejoin(node, p);
        self.totals.add(p as usize, size);
        number
    }

    /// A node leaves with its containers, and joins another partition, which is not full, under its
    /// own name and size. It returns the node's new number. All memory is taken first: it fails
    /// where `Inventory::reserve_node` does.
    pub fn relabel(&mut self, node: u32, p: u8) -> Result<u32, AllocError>
        requires live { IsLive node self.old.rows.nodes }
        requires partition { HasPartition self.old.rows p }
        requires few { is_full (state_in self.old).nodes (label_of self.old p) ≡ false }
        requires other { p ≢ partition_of_node self.old.rows.nodes node }
        ensures rows { IfOk result (λ n. (row : NodeRow)
            → lookup (nat_eq node) self.old.rows.nodes ≡ Some row
            → self.new ≡ record self.old {
              rows = with_joined n row.name p row.size (with_left node self.old.rows);
              rooms = self.new.rooms;
              ready = false;
            }) }
        ensures unused { IfOk result (λ n. IsUnused n (without node self.old.rows.nodes)) }
        ensures state { OnOk result ((row : NodeRow)
            → lookup (nat_eq node) self.old.rows.nodes ≡ Some row
            → state_in self.new ≡ node_joins self.old.config row.name (label_of self.old p)
            row.size (node_leaves (node_of self.old.rows.partitions row) (state_in self.old))) }
        ensures err { OnErr result (self.new ≡ self.old) }
    {
        // Opens the inventory, whose rows are sound.
        let _ = self.inventory();
        self.reserve_node()?;
        self.clear(node);
        Ok(self.move_alone(node, p))
    }
}
