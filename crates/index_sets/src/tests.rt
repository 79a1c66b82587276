//! A queue that is packed and a set of many words, each with ample memory.

use crate::{FreeSet, IndexQueue};
use std::test::Fail;

// Adds a number where it may be added.
fn add(queue: &mut IndexQueue, number: u32) -> bool {
    if number >= queue.size() {
        return false;
    }
    if queue.has(number) {
        return false;
    }
    queue.push_last(number);
    true
}

// Takes the first out.
fn take_first(queue: &mut IndexQueue) -> Option<u32> {
    let first = queue.first();
    if let Some(number) = first {
        queue.remove(number);
    }
    first
}

// The place of each number once all below 2,047 were added, every third was taken out and they were added again.
fn number_at(place: u32) -> u32 {
    if place < 1364 {
        3 * (place / 2) + 1 + place % 2
    } else if place < 2047 {
        3 * (place - 1364)
    } else {
        0
    }
}

#[test]
fn a_queue_keeps_its_order_when_numbers_leave_and_it_is_packed(
    rt: HostRuntime,
) -> Result<(), Fail> {
    let mut queue = IndexQueue::new(rt.alloc(), 2047).map_err(|_| "memory")?;
    assert!(rt; queue.is_empty());
    for number in 0..2047 {
        assert!(rt; add(&mut queue, number));
    }
    assert_eq!(rt; queue.len(), 2047);
    for third in 0..683 {
        queue.remove(3 * third);
    }
    queue.remove(2047);
    assert_eq!(rt; queue.len(), 1364);
    assert!(rt; !queue.has(2046));
    assert!(rt; queue.has(2045));
    for third in 0..683 {
        assert!(rt; add(&mut queue, 3 * third));
    }
    for turn in 0..6142 {
        let first = take_first(&mut queue);
        assert_eq!(rt; first, Some(number_at(turn % 2047)));
        if let Some(number) = first {
            assert!(rt; add(&mut queue, number));
        }
    }
    for place in 0..2047 {
        assert_eq!(rt; take_first(&mut queue), Some(number_at((place + 1) % 2047)));
    }
    assert!(rt; queue.is_empty());
    assert_eq!(rt; queue.first(), None);
    Ok(())
}

#[test]
fn a_set_of_1048576_numbers_is_taken_in_a_run(rt: HostRuntime) -> Result<(), Fail> {
    let mut free = FreeSet::new(rt.alloc(), 1_048_576).map_err(|_| "memory")?;
    for number in 0..1_048_600 {
        free.give(number);
    }
    assert_eq!(rt; free.count(), 1_048_576);
    for number in 0..1_048_576 {
        assert_eq!(rt; free.take_lowest(), Some(number));
    }
    assert_eq!(rt; free.take_lowest(), None);
    assert_eq!(rt; free.count(), 0);
    Ok(())
}

#[test]
fn the_lowest_and_the_count_from_a_number_on_go_over_words(rt: HostRuntime) -> Result<(), Fail> {
    let mut free = FreeSet::new(rt.alloc(), 1_048_576).map_err(|_| "memory")?;
    for number in [5, 63, 64, 127, 128, 1_048_575] {
        free.give(number);
    }
    for (from, lowest, count) in [
        (0, Some(5), 6),
        (5, Some(5), 6),
        (6, Some(63), 5),
        (63, Some(63), 5),
        (64, Some(64), 4),
        (65, Some(127), 3),
        (128, Some(128), 2),
        (129, Some(1_048_575), 1),
        (1_048_575, Some(1_048_575), 1),
        (1_048_576, None, 0),
        (u32::MAX, None, 0),
    ] {
        assert_eq!(rt; free.lowest_from(from), lowest);
        assert_eq!(rt; free.count_from(from), count);
    }
    free.take(63);
    assert_eq!(rt; free.lowest_from(6), Some(64));
    assert_eq!(rt; free.take_lowest(), Some(5));
    free.give(3);
    assert_eq!(rt; free.lowest_from(0), Some(3));
    Ok(())
}
