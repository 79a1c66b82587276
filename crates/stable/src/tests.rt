//! A plan of as many sectors as it has room for.

use crate::Plan;
use std::test::Fail;

// The put that a test makes as its `index`-th.
fn put_of(index: u32) -> (u32, [u8; 512]) {
    (u32::MAX - index, [(index % 251) as u8; 512])
}

// Adds puts as long as the plan takes one more.
fn fill(plan: &mut Plan) {
    for index in 0..=420 {
        if plan.puts().len() < plan.room() {
            let put = put_of(index);
            plan.add(put.0, &put.1);
        }
    }
}

// Whether a plan is as `fill` makes it of an empty one with room for so many.
fn is_filled(plan: &Plan, room: usize) -> bool {
    let puts = plan.puts();
    plan.room() == room
        && puts.len() == room
        && puts
            .iter()
            .zip(0..)
            .all(|(put, index)| *put == put_of(index))
}

#[test]
fn a_plan_takes_as_many_sectors_as_it_has_room_for_and_again_after_it_was_cleared(
    rt: HostRuntime,
) -> Result<(), Fail> {
    assert!(rt; is_filled(&Plan::empty(rt.alloc()), 0));
    for room in [0, 1, 3, 27, Plan::MOST] {
        let mut plan = Plan::new(rt.alloc(), room).map_err(|_| "memory")?;
        assert!(rt; plan.puts().is_empty());
        fill(&mut plan);
        assert!(rt; is_filled(&plan, room), "room for {room}");
        plan.clear();
        assert!(rt; plan.puts().is_empty());
        fill(&mut plan);
        assert!(rt; is_filled(&plan, room), "room for {room}");
    }
    Ok(())
}
