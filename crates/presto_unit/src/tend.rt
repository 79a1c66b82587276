// What happens to a unit, and how its state follows.
ghost use Rattle.std.specs.Prelude.{◌≡◌, ◌≢◌, ℕ, true, false};
ghost use Rattle.stable.specs.States.{after_command};
ghost use Rattle.stable.specs.declared.state.Cause.{Cause as CauseOf};
ghost use Rattle.stable.specs.declared.state.State.TheVariants.{Up, Down};
ghost use Rattle.stable.specs.declared.command.Command.TheVariants as command;
ghost use Rattle.stable.specs.declared.battery.Battery.TheVariants.{Good};
ghost use Rattle.presto_states.specs.Track.{IsNoted};
ghost use Rattle.presto_unit.specs.Flushing.{IsDeviceCause};
ghost use Rattle.presto_unit.specs.Happenings.{failing, polling, flushing, left_answer, starting};
ghost use Rattle.presto_unit.specs.Shown.{BatteryAsked, CountsUp, LeadsUp};

use crate::tally::Tally;
use presto_states::{Happening, Track};
use rig::{Battery, Rig};
use stable::{Answer, Cause, Command, State};

/// A device failed.
pub fn failing(cause: Cause) -> Happening
    requires { IsDeviceCause cause }
    ensures { result ≡ failing cause }
{
    match cause {
        Cause::Disk => Happening::DiskFailed,
        Cause::Board => Happening::BoardFailed,
        Cause::Battery => unreachable!(),
    }
}

/// The battery was polled, with so much dirty.
pub fn polling(battery: Battery, dirty: u32) -> Happening
    ensures { result ≡ polling battery dirty }
{
    match battery {
        Battery::Low => Happening::PollLow,
        Battery::Good => {
            if dirty == 0 {
                Happening::PollGoodEmpty
            } else {
                Happening::PollGoodDirty
            }
        }
    }
}

/// All was flushed for a command, with the first failure.
pub fn flushing(asked: Command, first: Option<Cause>) -> Happening
    ensures { result ≡ flushing asked first }
{
    match asked {
        Command::Up => Happening::FlushEmpty,
        Command::Down => match first {
            None => Happening::DownEmpty,
            Some(cause) => Happening::DownLeft(cause),
        },
        Command::Flush => match first {
            None => Happening::FlushEmpty,
            Some(cause) => Happening::FlushLeft(cause),
        },
        Command::Reset => match first {
            None => Happening::ResetEmpty,
            Some(cause) => Happening::ResetLeft(cause),
        },
    }
}

/// The answer where so much stays dirty.
pub fn left_answer(dirty: u32) -> Answer
    ensures { result ≡ left_answer dirty }
{
    if dirty == 0 {
        return Answer::Done;
    }
    Answer::Left(dirty)
}

/// Reset in UP does nothing.
pub fn is_idle(state: State, asked: Command) -> bool
    ensures idle { result ≡ true → (state ≡ Up) × (asked ≡ command.Reset) }
    ensures busy { result ≡ false → asked ≡ command.Reset → state ≢ Up }
{
    match asked {
        Command::Reset => match state {
            State::Up => true,
            State::Down => false,
            State::Error(_) => false,
        },
        _ => false,
    }
}

/// Up was asked for. In DOWN it reads the battery, and counts that.
pub fn go_up<R: Rig>(track: &mut Track, rig: &mut R, tally: &mut Tally) -> Answer
    ensures answered { (why : CauseOf) (n : ℕ) → (result, track.new.state) ≡ after_command track.old.state command.Up tally.new.battery why n }
    ensures changes { IsNoted track.old.state track.new.state track.old.changes track.new.changes }
    ensures leads { LeadsUp track.old.state track.new.state (R.sizes rig.old).buffers }
    ensures counts { CountsUp R.Rig track.old.state rig.old rig.new tally.old tally.new }
    ensures asked { BatteryAsked R.Rig rig.old rig.new }
{
    match track.state {
        State::Up => Answer::Done,
        State::Error(_) => Answer::NotDown,
        State::Down => {
            let battery = rig.battery();
            tally.battery = battery;
            tally.ups = tally.ups.saturating_add(1);
            read_for_up(track, battery)
        }
    }
}

// DOWN is left where the battery is good.
fn read_for_up(track: &mut Track, battery: Battery) -> Answer
    requires { track.old.state ≡ Down }
    ensures answered { (why : CauseOf) (n : ℕ) → (result, track.new.state) ≡ after_command Down command.Up battery why n }
    ensures changes { IsNoted track.old.state track.new.state track.old.changes track.new.changes }
    ensures up { track.new.state ≡ Up → battery ≡ Good }
{
    match battery {
        Battery::Good => {
            track.happen(Happening::UpGood);
            Answer::Done
        }
        Battery::Low => {
            track.happen(Happening::UpLow);
            Answer::BatteryLow
        }
    }
}

/// The state at first: DOWN where nothing is dirty, else an error by this cause.
pub fn starting(dirty: u32, cause: Cause) -> State
    ensures { result ≡ starting dirty cause }
{
    if dirty == 0 {
        return State::Down;
    }
    State::Error(cause)
}
