//! Amounts, and the numbers of refusals, by calls that no command makes.

use ynl_resource::{Refusal, Resource};

#[test]
fn amounts_are_scaled(rt: HostRuntime) {
    let whole = Resource {
        memory: 10,
        vcores: 3,
    };
    let (less, more) = (
        whole.scale_floor(3333, 10000),
        whole.scale_ceil(3333, 10000),
    );
    assert!(rt; less.memory == 3 && more.memory == 4 && Refusal::BelowCapacity.number() == 28);
}
