// The rule of the flags that workers raise, and what their steps tell.
ghost use Rattle.rig_mem.specs.Gates.{FlagsStay, begins, raises, looks, nothing_known};

use atomic_table::{Play, TableRule};
use std::collections::LinkedList;

// What a pauser knows: the places of the flags that it raised, and of those that it saw raised, and how often it looked.
// No value of it is made.
pub struct Known {
    pub reached: LinkedList<u64>,
    pub seen: LinkedList<u64>,
    pub looks: u64,
}

// A flag that is raised stays so, and a pauser of its worker reached the point. The number is that of all flags.
pub struct Stays;

impl TableRule<(), Known, u64> for Stays {
    ghost holds = { FlagsStay };

    ghost first = { λ _. nothing_known };
}

pub struct Begins;

impl Play<(), Known> for Begins {
    ghost then = { begins };
}

pub struct Raises;

impl Play<(), Known> for Raises {
    ghost then = { raises };
}

pub struct Looks;

impl Play<(), Known> for Looks {
    ghost then = { looks };
}
