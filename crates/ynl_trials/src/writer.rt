//! The caller beside the workers.

use crate::events::Caller;
use crate::values::numbered;
use crate::watch::micros;
use std::alloc::Global;
use std::process::Abort;
use std::rt::Clock;
use std::sync::Wait;
use std::time::Instant;
use ynl_live::{Live, Seat};

/// So many applications are live at once.
const LIVE: u64 = 20;

/// A node.
const REGISTER: &str =
    r#"{"event":"register","label":"gpu","memory":10000,"node":"n%","vcores":10}"#;

const LOST: &str = r#"{"event":"lost","node":"n%"}"#;

/// An application whose master is larger than any node, and so waits for good.
const WAITING: &str =
    r#"{"app":"w%","event":"submit","label":"gpu","memory":20000,"queue":"root.eng","user":"ann","vcores":1}"#;

/// An application that asks for four containers.
const SUBMIT: &str =
    r#"{"app":"a%","event":"submit","label":"gpu","memory":1000,"queue":"root.eng","user":"ann","vcores":1}"#;

const ASK: &str =
    r#"{"app":"a%","count":4,"event":"ask","label":"gpu","memory":1000,"priority":1,"tenant":"eng","vcores":1}"#;

const FINISH: &str = r#"{"app":"a%","event":"finish","tenant":"eng"}"#;

/// A caller, and how long its longest call took, in microseconds.
#[derive(Drop)]
pub(crate) struct Writer {
    alloc: Global,
    pub(crate) caller: Caller,
    pub(crate) longest: u64,
}

impl Writer {
    pub(crate) fn new(alloc: Global, seat: Seat) -> Writer {
        Writer {
            alloc,
            caller: Caller::new(alloc, seat),
            longest: 0,
        }
    }

    /// Calls with the event of the line that has this number.
    fn call<R: Wait + Clock + Abort>(&mut self, rt: &R, live: &Live, line: &str, number: u64) {
        let event = numbered(rt, self.alloc, line, number);
        let start = Instant::now(rt).expect(rt, "a clock");
        let called = live.call(rt, &mut self.caller.seat, event);
        let took = start.elapsed(rt).expect(rt, "a clock");
        self.longest = self.longest.max(micros(took));
        self.caller.keep(rt, &called.expect(rt, "a receipt"));
    }

    /// Registers as many nodes, n0, n1 and so on, and submits as many applications that wait.
    pub(crate) fn begin<R: Wait + Clock + Abort>(
        &mut self,
        rt: &R,
        live: &Live,
        nodes: u64,
        waiting: u64,
    ) {
        for number in 0..nodes {
            self.call(rt, live, REGISTER, number);
        }
        for number in 0..waiting {
            self.call(rt, live, WAITING, number);
        }
        self.longest = 0;
    }

    /// In each step an application is submitted and asks for four containers, and an older one finishes; in
    /// every eighth a node is lost, and registers again.
    pub(crate) fn take_steps<R: Wait + Clock + Abort>(
        &mut self,
        rt: &R,
        live: &Live,
        steps: u64,
        nodes: u64,
    ) {
        for step in 0..steps {
            self.call(rt, live, SUBMIT, step);
            self.call(rt, live, ASK, step);
            if step >= LIVE {
                self.call(rt, live, FINISH, step - LIVE);
            }
            if step % 8 == 7 {
                let node = step.checked_rem(nodes).unwrap_or(0);
                self.call(rt, live, LOST, node);
                self.call(rt, live, REGISTER, node);
            }
        }
    }
}
