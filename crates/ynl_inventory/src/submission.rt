//! A new application.

ghost use Rattle.std.specs.Prelude.{IfOk};
ghost use Rattle.ynl_inventory.specs.Parts.{IsNewRow};

use std::alloc::{AllocError, Global};
use ynl_resource::Size;
use ynl_tables::apps::{AppRow, NewApp};

/// What is known of an application when it is submitted, by numbers.
#[derive(Clone, Copy)]
pub struct NewSubmission {
    pub tenant: u32,
    pub leaf: u32,
    pub user: u32,
    /// The partition of its master.
    pub home: u8,
    pub master_size: Size,
}

/// The row of a new application, with places for the chains of its home partition and of DEFAULT.
pub(crate) fn new_row(alloc: Global, new: &NewSubmission, turn: u32) -> Result<AppRow, AllocError>
    ensures { IfOk result (IsNewRow new.now turn) }
{
    let mut row = AppRow::new(
        alloc,
        NewApp {
            tenant: new.tenant,
            turn,
            leaf: new.leaf,
            user: new.user,
            home: new.home,
            master_size: new.master_size,
        },
    );
    row.chains.reserve(new.home)?;
    row.chains.reserve(0)?;
    Ok(row)
}
