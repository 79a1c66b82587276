use crate::{GatePauser, Gates, Hold};
use rig::{Pauser, Point};
use std::sync::Arc;
use std::sync::atomic::{AtomicU64, Ordering};
use std::test::Fail;
use std::thread::join;
use std::time::Duration;
use std::{io, rt};

// A clock that counts the sleeps of a millisecond that it is asked for, and returns at once.
#[derive(Clone, Copy)]
struct Sleepless<'a> {
    slept: &'a AtomicU64,
}

impl rt::Clock for Sleepless<'_> {
    fn monotonic(&self) -> io::Result<Duration> {
        Ok(Duration::ZERO)
    }

    fn since_1970(&self) -> io::Result<Duration> {
        Ok(Duration::ZERO)
    }

    fn sleep(&self, duration: Duration) {
        if duration == Duration::from_millis(1) {
            self.slept.fetch_add(1, Ordering::SeqCst);
        }
    }
}

// Worker 1 is held at Answered until worker 0 has reached a point. Worker 0 reached some; whether all looks were used up.
type Row = (Point, &'static [Point], bool);

const ROWS: [Row; 10] = [
    (Point::Entered, &[Point::Entered], false),
    (
        Point::Entered,
        &[Point::Left, Point::Answered, Point::Holding(0)],
        true,
    ),
    (Point::Left, &[Point::Entered, Point::Left], false),
    (Point::Left, &[Point::Entered, Point::Answered], true),
    (Point::Answered, &[Point::Answered], false),
    (Point::Answered, &[Point::Entered, Point::Left], true),
    (Point::Holding(1), &[Point::Holding(1)], false),
    (
        Point::Holding(1),
        &[Point::Holding(0), Point::Holding(2), Point::Holding(3)],
        true,
    ),
    (Point::Holding(3), &[Point::Holding(4)], true),
    (Point::Holding(4), &[Point::Holding(7)], false),
];

#[test]
fn a_worker_waits_for_the_flag_of_its_hold(rt: HostRuntime) -> Result<(), Fail> {
    for (until, reached, exhausted) in ROWS {
        let slept = AtomicU64::new(0);
        let clock = Sleepless { slept: &slept };
        let gates = Gates::new(rt.alloc(), 2)?;
        let mut other = GatePauser::new(clock, gates.clone()?, 0, None);
        for point in reached {
            other.gate(*point);
        }
        assert_eq!(rt; other.exhausted(), false);
        let hold = Hold {
            at: Point::Answered,
            worker: 0,
            until,
        };
        let mut held = GatePauser::new(clock, gates, 1, Some(hold));
        held.pause();
        held.gate(Point::Entered);
        assert_eq!(rt; held.exhausted(), false);
        assert_eq!(rt; slept.load(Ordering::SeqCst), 0);
        held.gate(Point::Answered);
        assert_eq!(rt; held.exhausted(), exhausted);
        // one sleep between two looks
        let sleeps = if exhausted { 9_999 } else { 0 };
        assert_eq!(rt; slept.load(Ordering::SeqCst), sleeps);
    }
    Ok(())
}

// Each of two workers is held where it has one lock until the other has come on. Neither can go first alone.
#[test]
fn two_workers_wait_for_each_other(rt: HostRuntime) -> Result<(), Fail> {
    let gates = Gates::new(rt.alloc(), 2)?;
    let first = Hold {
        at: Point::Holding(0),
        worker: 1,
        until: Point::Answered,
    };
    let second = Hold {
        at: Point::Holding(1),
        worker: 0,
        until: Point::Holding(0),
    };
    let mut a = GatePauser::new(&rt, gates.clone()?, 0, Some(first));
    let mut b = GatePauser::new(&rt, gates, 1, Some(second));
    let (a, b) = join(
        &rt,
        move || {
            a.gate(Point::Holding(0));
            a.exhausted()
        },
        move || {
            b.gate(Point::Holding(1));
            b.gate(Point::Answered);
            b.exhausted()
        },
    );
    assert_eq!(rt; (a, b), (false, false));
    Ok(())
}
