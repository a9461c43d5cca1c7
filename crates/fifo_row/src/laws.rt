//! What the rule of a row says of it between any two steps, whatever threads do.
ghost use Rattle.fifo_row.specs.Flows.{KeepsFacts, MetFlows, OfSenders, SeatedFlows};

use crate::item::RowItem;

/// What each sender sent is what was taken from it, and then what the row holds of it, whether its end was met or
/// not. Each item is of one of the senders, and has the fact that its type names.
pub fn flows<I: RowItem>()
    ensures seated { SeatedFlows I.from I.fact }
    ensures met { MetFlows I.from I.fact }
    ensures of_senders { OfSenders I.from I.fact }
    ensures facts { KeepsFacts I.from I.fact }
{}
