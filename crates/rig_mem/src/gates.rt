// The flags that the workers of a test share.
ghost use Rattle.std.specs.Prelude.{◌≡◌, ◌*◌, ◌+◌, ◌<◌, IfOk};
ghost use Rattle.std.specs.Arc.{arc_value};
ghost use Rattle.rig_mem.specs.Gates.{known, nothing_known, with_reached, after_look, place_of, flag_number};

use crate::flags::{Begins, Known, Looks, Raises, Stays};
use atomic_table::{Seat, Table};
use rig::{NoMemory, Point};
use std::alloc::Global;
use std::sync::Arc;

const FLAGS: u32 = 8;

/// The flags of so many workers, numbered from 0: one for each of a worker's points. A flag that was raised stays so.
///
/// Volumes 0 to 3 have a flag each for the moment at which their lock is held. All volumes from 4 on share one.
#[derive(Drop)]
pub struct Gates {
    workers: u32,
    table: Table<(), Known, u64, Stays, Global>,
    ghost size: { table.shared.table_id.words ≡ workers * 8 },
    ghost key: { table.shared.key ≡ workers * 8 },
}

impl Gates {
    /// The flags of so many workers, none of them raised.
    pub fn new(alloc: Global, workers: u32) -> Result<Arc<Gates>, NoMemory>
        ensures { IfOk result (λ gates. (arc_value gates).workers ≡ workers) }
    {
        let count = u64::from(workers) * u64::from(FLAGS);
        let words = vec![in alloc; 0; count as usize]?;
        let (table, _) = Table::of_words(alloc, &words, &count)?;
        Ok(Arc::new(alloc, Gates { workers, table })?)
    }

    // What a new pauser has: it knows of no flag.
    pub(crate) fn seat(&self) -> Seat<(), Known>
        requires { 0 < self.now.workers }
        ensures ours { result.table_id ≡ self.now.table.shared.table_id }
        ensures nothing { known result ≡ nothing_known }
    {
        self.table.shared.load_new_seat::<Begins>(0).1
    }

    // Raises the flag at that place.
    pub(crate) fn raise(&self, seat: &mut Seat<(), Known>, place: u64)
        requires ours { seat.old.table_id ≡ self.now.table.shared.table_id }
        requires place { place < self.now.workers * 8 }
        ensures ours { seat.new.table_id ≡ seat.old.table_id }
        ensures raised { known seat.new ≡ with_reached (known seat.old) place }
    {
        self.table.shared.store::<Raises>(seat, place as usize, 1);
    }

    // Looks whether the flag at that place is raised.
    pub(crate) fn is_raised(&self, seat: &mut Seat<(), Known>, place: u64) -> bool
        requires ours { seat.old.table_id ≡ self.now.table.shared.table_id }
        requires place { place < self.now.workers * 8 }
        ensures ours { seat.new.table_id ≡ seat.old.table_id }
        ensures looked { known seat.new ≡ after_look result (known seat.old) place }
    {
        self.table.shared.load::<Looks>(seat, place as usize) != 0
    }
}

// Where the flag of a worker's point stands.
pub fn place_of(worker: u32, point: Point) -> u64
    ensures place { result ≡ place_of worker point }
    ensures own { result < worker * 8 + 8 }
{
    u64::from(worker) * u64::from(FLAGS) + u64::from(flag_number(point))
}

// Which of its worker's flags is the point's.
fn flag_number(point: Point) -> u32
    ensures number { result ≡ flag_number point }
    ensures few { result < 8 }
{
    match point {
        Point::Entered => 0,
        Point::Left => 1,
        Point::Answered => 2,
        Point::Holding(volume) => 3 + volume.min(4),
    }
}
