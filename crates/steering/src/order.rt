// The order of the tables, and what a pass has seen of it.
use atomic_table::Split;
use crossbeam_utils::rule::{Outcome, Protocol};
use std::collections::LinkedList;

/// The words of the tables that a pass has seen. No value of it is made.
pub struct Seen {
    pub words: LinkedList<[u64; 4]>,
}

pub struct Order;

impl Protocol<[u64; 4], Seen> for Order {
    ghost use Rattle.steering.specs.Order.{OneOrder, newcomer};

    ghost holds = { OneOrder };

    ghost first = { newcomer };
}

pub struct Load;

impl Outcome<[u64; 4], Seen> for Load {
    ghost use Rattle.steering.specs.Order.{loaded};

    ghost then = { loaded };
}

pub struct Swap;

impl Outcome<[u64; 4], Seen> for Swap {
    ghost use Rattle.steering.specs.Order.{swapped};

    ghost then = { swapped };
}

/// Two passes that have seen as much.
pub struct Alike;

impl Split<Seen> for Alike {
    ghost left = { λ v. v };

    ghost right = { λ v. v };
}
