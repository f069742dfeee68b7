//! Where a fault is, as it is found: texts are lent, so that only the place that is told takes memory.

ghost use Rattle.std.specs.Prelude.{◌≡◌, Some};
ghost use Rattle.ynl_config.specs.Places.{nowhere, at_row};
ghost use Rattle.ynl_config.specs.Lent.{shown, lent_of};

use crate::places::RowKind;
use ynl_resource::Path;

/// What is told of a value, if it is not too long.
#[derive(Clone, Copy)]
pub(crate) enum LentValue<'t> {
    Text(&'t str),
    Path(&'t Path),
    Integer(i64),
    Count(usize),
}

/// A [`Place`](crate::Place) of a text's tables and rows.
#[derive(Clone, Copy)]
pub(crate) struct LentPlace<'t> {
    pub(crate) table: Option<RowKind>,
    pub(crate) row: Option<u64>,
    pub(crate) queue: Option<LentValue<'t>>,
    pub(crate) label: Option<LentValue<'t>>,
    pub(crate) key: Option<LentValue<'t>>,
    pub(crate) value: Option<LentValue<'t>>,
    pub(crate) capacity: Option<u64>,
    pub(crate) maximum: Option<u64>,
    pub(crate) sum: Option<u64>,
}

impl<'t> LentPlace<'t> {
    /// The place of which nothing is told.
    pub(crate) fn nowhere() -> LentPlace<'t>
        ensures { lent_of result ≡ nowhere }
    {
        LentPlace {
            table: None,
            row: None,
            queue: None,
            label: None,
            key: None,
            value: None,
            capacity: None,
            maximum: None,
            sum: None,
        }
    }

    /// The place of a row of this number.
    pub(crate) fn at_row(kind: RowKind, row: u64, name: Option<LentValue<'t>>) -> LentPlace<'t>
        ensures { lent_of result ≡ at_row kind row (shown name.entry) }
    {
        let mut place = LentPlace::nowhere();
        place.table = Some(kind);
        place.row = Some(row);
        match kind {
            RowKind::Label => place.label = name,
            RowKind::Queue => place.queue = name,
        }
        place
    }
}
