//! Plans on a store that fails or doesn't, and a store that is tended and steered.

ghost use Rattle.std.specs.Prelude.{IfOk};
ghost use Rattle.stable.specs.Puts.{AllStand};

use crate::Memory;
use stable::{
    Answer, Battery, Command, Failed, FlushAnswer, NoMemory, Plan, Stable, State, SteeredStore,
    Tended, run_plan,
};
use std::alloc::Global;
use std::test::Fail;

// Four puts, two of them of sector 3.
fn four_puts(alloc: Global) -> Result<Plan, NoMemory>
    ensures { IfOk result (λ plan. AllStand 4 plan.puts) }
{
    let mut plan = Plan::new(alloc, 4)?;
    plan.add(3, &[1; 512]);
    plan.add(1, &[2; 512]);
    plan.add(3, &[3; 512]);
    plan.add(0, &[4; 512]);
    Ok(plan)
}

// Runs them on an empty store, one of whose puts may fail. The answer, and the store then.
fn run_four(alloc: Global, failing: u64) -> Result<(Result<(), Failed>, Memory), NoMemory> {
    let plan = four_puts(alloc)?;
    let mut store = Memory::new(alloc, &[[0; 512]; 4])?;
    store.failing = failing;
    let answer = run_plan(&mut store, &plan);
    Ok((answer, store))
}

#[test]
fn a_plan_is_put_in_order_up_to_the_first_failure(rt: HostRuntime) -> Result<(), Fail> {
    // The failing put, what is answered, the bytes of each sector then, and which sectors were asked for.
    let rows = [
        (0, Ok(()), [4, 2, 0, 3], &[3, 1, 3, 0][..]),
        (3, Err(Failed), [0, 2, 0, 1], &[3, 1, 3]),
        (1, Err(Failed), [0, 0, 0, 0], &[3]),
    ];
    for (failing, answer, bytes, asked) in rows {
        let (answered, store) = run_four(rt.alloc(), failing).map_err(|_| "memory")?;
        assert!(rt; answered == answer, "put {failing} fails");
        assert!(rt;
            store.sectors.as_slice() == bytes.map(|byte| [byte; 512]).as_slice(),
            "put {failing} fails"
        );
        assert!(rt; store.puts == asked.len() as u64, "put {failing} fails");
        assert!(rt; store.order.starts_with(asked), "put {failing} fails");
        assert!(rt;
            store.faults == u64::from(answer.is_err()),
            "put {failing} fails"
        );
    }
    Ok(())
}

#[test]
fn a_store_is_down_and_keeps_how_it_was_steered(rt: HostRuntime) -> Result<(), Fail> {
    let mut store = Memory::new(rt.alloc(), &[[7; 512]; 2]).map_err(|_| "memory")?;
    let mut bytes = [0; 512];
    assert!(rt; store.sectors() == 2 && store.get(1, &mut bytes) == Ok(()) && bytes == [7; 512]);
    assert!(rt; store.reads[0] == 0 && store.reads[1] == 1);
    store.set_battery(Battery::Good);
    store.stop_after(3, true);
    assert!(rt; store.poll() == Battery::Low);
    assert!(rt; store.flush_one() == FlushAnswer::Nothing);
    assert!(rt; store.command(Command::Up) == Answer::BatteryLow);
    assert!(rt; store.command(Command::Reset) == Answer::Done);
    let snapshot = store.snapshot();
    assert!(rt; snapshot.state == State::Down && snapshot.dirty == 0);
    assert!(rt; snapshot.polls == 1 && snapshot.ups == 1 && snapshot.battery == Battery::Low);
    assert!(rt; store.battery == Battery::Good && store.stop == Some((3, true)));
    Ok(())
}
