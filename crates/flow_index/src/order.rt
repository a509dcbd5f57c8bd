// The order of the changes, and what an end of the index has seen of it.
use crate::change::Change;
use crate::store::Store;
use crossbeam_utils::rule::{Outcome, Protocol};
use std::collections::LinkedList;

/// The published changes that an end has seen. No value of it is made.
pub struct Sight {
    pub seen: LinkedList<Change>,
}

pub struct Order;

impl Protocol<Store, Sight> for Order {
    ghost use Rattle.flow_index.specs.Published.{OneOrder, newcomer};

    ghost holds = { OneOrder };

    ghost first = { newcomer };
}

pub struct Look;

impl Outcome<Store, Sight> for Look {
    ghost use Rattle.flow_index.specs.Published.{looked};

    ghost then = { looked };
}
