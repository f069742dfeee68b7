//! What is told of an application that waits.

use crate::steps::Step;
use ynl_model::{Items, Proposal, What};
use ynl_resource::{Label, Name, Path, Refusal, Resource, Size};

/// A live application, as its requests are tested.
#[derive(Clone, Copy)]
pub struct Applicant {
    pub leaf: Path,
    pub name: Name,
    pub user: Name,
    /// Whether it has its master container.
    pub runs: bool,
}

/// A request of a live application: for its master, or for what it asks for.
#[derive(Clone, Copy)]
pub struct Request {
    pub what: What,
    /// The label of its own partition: of a master the home label, of an ask the one that it is under.
    pub label: Label,
    pub size: Size,
    /// How many containers of it are wanted; of a master 1.
    pub count: u32,
}

/// The nodes on which a request may be placed, where another is ahead: the first of them by name, and how many there are.
#[derive(Clone, Copy)]
pub struct Turn {
    pub node: Name,
    pub nodes: usize,
    pub ahead: Proposal,
}

/// Why a request was not placed yet, or that it is next.
#[derive(Clone, Copy)]
pub enum Reason {
    /// It is an ask, and its application waits.
    Application,
    /// No node is in its own partition.
    Nodes,
    /// The clock of this partition, where it may go, is spent.
    Clock(Label),
    /// This queue, from root to the leaf, uses so much of its own partition that its size would be over the maximum.
    Maximum {
        queue: Step,
        used: Resource,
        maximum: Resource,
    },
    /// The user uses so much of the leaf's part that its size would be over the user limit.
    UserLimit {
        user: Name,
        used: Resource,
        limit: Resource,
        guaranteed: Resource,
    },
    /// It is a master, and the masters of the leaf use so much that its size would be over the master limit.
    MasterShare {
        used: Resource,
        limit: Resource,
    },
    /// It fits what is free on none of the nodes of this partition, where it may go.
    Room {
        label: Label,
        nodes: usize,
        free: Resource,
    },
    /// It may be placed on so many nodes, and on this one, the first of them by name, another is ahead.
    Turn(Turn),
    /// It is chosen on so many nodes, and this one is the first of them by name.
    Next {
        node: Name,
        nodes: usize,
    },
}

/// A request, and what is told of it.
pub struct Wait {
    pub request: Request,
    pub reasons: Items<Reason>,
}

// By hand, so that crates above call it: one that is derived is proved anew in each of them, with all that it holds.
impl Drop for Wait {
    fn drop(self) {
        let Wait {
            request: _,
            reasons: _,
        } = self;
    }
}

/// Why the requests of an application wait.
pub enum Explained {
    /// The tenant has no live application of that name.
    Refused(Refusal),
    /// The requests in order: the master, where it waits; then the asks by label, as configured, and by priority.
    Waits(Items<Wait>),
}

// By hand, for the same reason.
impl Drop for Explained {
    fn drop(self) {
        match self {
            Explained::Refused(_) => (),
            Explained::Waits(_) => (),
        }
    }
}
