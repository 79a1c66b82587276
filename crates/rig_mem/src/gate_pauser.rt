// A pauser that holds its worker at a point until another worker has come to one.
ghost use Rattle.std.specs.Prelude.{◌≡◌, ◌<◌, ◌*◌, false};
ghost use Rattle.std.specs.Option.{ForSome};
ghost use Rattle.std.specs.Arc.{arc_value};
ghost use Rattle.rig_mem.specs.Gates.{known, nothing_known, place_of, Waits, Reaches};

use crate::flags::Known;
use crate::gates::{Gates, place_of};
use crate::hold::Hold;
use atomic_table::Seat;
use rig::{Pauser, Point};
use std::sync::Arc;
use std::time::Duration;
use std::{rt, thread};

const LOOKS: u32 = 10_000;

/// The pauser of one worker of a test. It raises the flag of each point that the worker reaches. At the point `at` of
/// its hold it then waits for the flag `until` of the worker that the hold names: it looks at most 10,000 times, sleeps
/// a millisecond between two looks, and goes on. `pause` does nothing.
#[derive(Drop)]
pub struct GatePauser<T> {
    system: T,
    gates: Arc<Gates>,
    seat: Seat<(), Known>,
    worker: u32,
    hold: Option<Hold>,
    exhausted: bool,
    ghost ours: { seat.table_id ≡ (arc_value gates).table.shared.table_id },
    ghost in_range: { worker < (arc_value gates).workers },
    ghost hold_fits: { ForSome hold (λ h. h.worker < (arc_value gates).workers) },
}

impl<T> GatePauser<T> {
    /// The pauser of that worker, which sleeps by that system's clock.
    pub fn new(system: T, gates: Arc<Gates>, worker: u32, hold: Option<Hold>) -> GatePauser<T>
        requires worker { worker < (arc_value gates).workers }
        requires hold { ForSome hold (λ h. h.worker < (arc_value gates).workers) }
        ensures gates { result.gates ≡ gates }
        ensures worker { result.worker ≡ worker }
        ensures hold { result.hold ≡ hold }
        ensures known { known result.seat ≡ nothing_known }
        ensures exhausted { result.exhausted ≡ false }
    {
        let seat = gates.seat();
        GatePauser {
            system,
            gates,
            seat,
            worker,
            hold,
            exhausted: false,
        }
    }

    /// Whether a wait used up all its looks.
    pub fn exhausted(&self) -> bool
        ensures { result ≡ self.now.exhausted }
    {
        self.exhausted
    }
}

// Waits until the flag at that place is raised, and answers whether it saw it raised.
fn wait_for<T: rt::Clock>(system: &T, gates: &Gates, seat: &mut Seat<(), Known>, place: u64) -> bool
    requires ours { seat.old.table_id ≡ gates.now.table.shared.table_id }
    requires place { place < gates.now.workers * 8 }
    ensures ours { seat.new.table_id ≡ seat.old.table_id }
    ensures waited { Waits result place (known seat.old) (known seat.new) }
{
    if gates.is_raised(seat, place) {
        return true;
    }
    for _ in 1..LOOKS {
        thread::sleep(system, Duration::from_millis(1));
        if gates.is_raised(seat, place) {
            return true;
        }
    }
    false
}

impl<T: rt::Clock + Drop> Pauser for GatePauser<T> {
    fn pause(&mut self)
        ensures known { known self.new.seat ≡ known self.old.seat }
        ensures exhausted { self.new.exhausted ≡ self.old.exhausted }
        ensures gates { self.new.gates ≡ self.old.gates }
        ensures worker { self.new.worker ≡ self.old.worker }
        ensures hold { self.new.hold ≡ self.old.hold }
    {}

    fn gate(&mut self, point: Point)
        ensures reaches { Reaches self.old.worker self.old.hold point (known self.old.seat) (known self.new.seat) self.old.exhausted self.new.exhausted }
        ensures gates { self.new.gates ≡ self.old.gates }
        ensures worker { self.new.worker ≡ self.old.worker }
        ensures hold { self.new.hold ≡ self.old.hold }
    {
        self.gates
            .raise(&mut self.seat, place_of(self.worker, point));
        let Some(hold) = self.hold else {
            return;
        };
        if hold.at != point {
            return;
        }
        let place = place_of(hold.worker, hold.until);
        if !wait_for(&self.system, &self.gates, &mut self.seat, place) {
            self.exhausted = true;
        }
    }
}
