//! The unit.
ghost use Rattle.std.specs.Prelude.{◌≡◌, ◌≤◌, ◌<◌};
ghost use Rattle.stable.specs.declared.state.State.TheVariants.{Up, Down};
ghost use Rattle.presto_cache.specs.Slots.{NoDoubt};
ghost use Rattle.presto_cache.specs.Cache.{slots_of, Knows};
ghost use Rattle.presto_unit.specs.Shown.{dirty_in};

use crate::flush::{flush_all, flush_oldest};
use crate::read::read_through;
use crate::tally::Tally;
use crate::tend::{failing, flushing, go_up, is_idle, left_answer, polling, starting};
use crate::through::put_through;
use crate::up::put_up;
use presto_cache::Cache;
use presto_states::{Ring, Track};
use rig::{Battery, Failed, Rig, SteeredRig};
use stable::{Answer, Cause, Command, FlushAnswer, Snapshot, Stable, State, SteeredStore, Tended};

/// A board in front of a disk, as one store. In UP a put stays on the board, where it is safe from a loss of power; in DOWN and in ERROR it goes to the
/// disk. DOWN holds only where nothing is dirty, and in UP no entry is in doubt.
///
/// Its image is the overlay: the disk with each entry's sector replaced by its buffer.
#[derive(Drop)]
pub struct Presto<R: Rig + Drop> {
    rig: R,
    cache: Cache,
    track: Track,
    tally: Tally,
    pub ghost knows: { Knows R.Rig rig cache },
    pub ghost sure: { track.state ≡ Up → NoDoubt (slots_of cache) },
    pub ghost clean: { track.state ≡ Down → dirty_in cache ≡ 0 },
    pub ghost board: { track.state ≡ Up → 0 < (R.sizes rig).buffers },
    pub ghost polled: { tally.polls ≤ (R.readings rig).count },
}

impl<R: Rig + Drop> Stable for Presto<R> {
    ghost use Rattle.std.specs.Prelude.{[], get_or, OnOk};
    ghost use Rattle.nvram_map.specs.Overlay.{overlay};
    ghost use Rattle.stable.specs.Counts.{HasCause};
    ghost use Rattle.stable.specs.Looked.{IsPut, Looked};
    ghost use Rattle.rig.specs.Looked.{Stays};
    ghost use Rattle.presto_states.specs.Track.{IsNoted};
    ghost use Rattle.presto_unit.specs.Images.{overlays_since};
    ghost use Rattle.presto_unit.specs.Laws.{overlay_now, overlay_only, overlay_wider, overlay_told};
    ghost use Rattle.presto_unit.specs.Opening.{opens_since};
    ghost use Rattle.presto_unit.specs.Parts.{rig_of, cache_of, state_of, changes_of};
    ghost use Rattle.presto_unit.specs.Putting.{PutsByState};
    ghost use Rattle.presto_unit.specs.Shown.{shown};

    ghost tells = { R.tells };

    ghost image = { λ s. overlay (R.contents s.rig) };

    ghost moment = { λ s. R.moment s.rig };

    ghost left_since = { λ s. overlays_since R.sizes R.left_since s.rig };

    ghost opens_since = { λ s. opens_since R.sizes R.left_since s.rig };

    ghost sector_count = { λ s. (R.sizes s.rig).sectors };

    ghost faults = { λ s. R.faults s.rig };

    ghost snapshot_of = { λ s. shown s.track.state s.cache s.tally };

    ghost clocked = { record {
      now = λ s t tells le. overlay_now R.Rig.own R.clocked R.shape R.kept_told R.board s.rig s.cache s.knows t tells le;
      only = λ s i left. overlay_only R.Rig.own R.clocked s.rig i left;
      wider = λ s t u i le left. overlay_wider R.Rig.own R.clocked s.rig t u i le left;
      told = λ s t i left. overlay_told R.Rig.own R.clocked s.rig t i left;
    } };

    ghost shape = { λ s t i left. left.2.whole };

    ghost opens_later = { λ s t u le opens d left. opens d (R.clocked.wider s.rig t u d le left) };

    ghost counted = { λ s. s.tally.fits };

    ghost down = { λ s is. s.clean is };

    fn sectors(&self) -> u32 {
        self.rig.sectors()
    }

    /// Reads a sector, of the board or the disk. Nothing of the rig changes.
    fn get(&mut self, sector: u32, into: &mut [u8; 512]) -> Result<(), Failed>
        requires { sector < (R.sizes self.old.rig).sectors }
        ensures done { R.tells → OnOk result (into.new ≡ get_or (overlay (R.contents self.old.rig)) sector []) }
        ensures cause { HasCause (R.faults self.old.rig) (R.faults self.new.rig) result }
        ensures looked { Looked ⟦<Presto<R> as Stable>⟧ self.old self.new }
        ensures stays { Stays R.Rig (rig_of self.old) (rig_of self.new) }
    {
        read_through(&self.cache, &mut self.rig, sector, into)
    }

    /// Puts a sector. In UP it is kept on the board, where the oldest entry makes room if need be; the state stays UP and no disk write is made where the
    /// sector has an entry or one is free and no device fails. Where one fails the state is an error, and the sector goes past the board. In DOWN and in ERROR
    /// it goes to the disk, and the put is Ok where it stands there and no entry of it is left.
    fn put(&mut self, sector: u32, bytes: &[u8; 512]) -> Result<(), Failed>
        requires { sector < (R.sizes self.old.rig).sectors }
        ensures put { IsPut ⟦<Presto<R> as Stable>⟧ sector bytes.now self.old self.new result }
        ensures by_state { PutsByState R.Rig sector bytes.now (state_of self.old) (state_of self.new) (cache_of self.old) (cache_of self.new) (rig_of self.old) (rig_of self.new) result }
        ensures changes { IsNoted (state_of self.old) (state_of self.new) (changes_of self.old) (changes_of self.new) }
        ensures stays { Stays R.Rig (rig_of self.old) (rig_of self.new) }
    {
        self.tally.puts = self.tally.puts.wrapping_add(1);
        match self.track.state {
            State::Up => put_up(
                &mut self.track,
                &mut self.cache,
                &mut self.rig,
                sector,
                bytes,
            ),
            _ => put_through(&mut self.cache, &mut self.rig, sector, bytes),
        }
    }
}

impl<R: Rig + Drop> Tended for Presto<R> {
    ghost use Rattle.std.specs.Prelude.{ℕ};
    ghost use Rattle.rig.specs.Devices.{IsRead};
    ghost use Rattle.rig.specs.Looked.{Stays};
    ghost use Rattle.stable.specs.Looked.{KeepsImage};
    ghost use Rattle.stable.specs.States.{IsPolled, IsFlushed, IsCommanded, flushes};
    ghost use Rattle.presto_cache.specs.Cache.{entries_of};
    ghost use Rattle.presto_states.specs.Track.{IsNoted};
    ghost use Rattle.presto_unit.specs.Disk.{FlushesAll, FlushesOne};
    ghost use Rattle.presto_unit.specs.Flushing.{AddsNone, AreTried, oldest_sector};
    ghost use Rattle.presto_unit.specs.Parts.{rig_of, cache_of, state_of, changes_of, tally_of};
    ghost use Rattle.presto_unit.specs.Shown.{BatteryAsked, FlushAnswers, shown};

    /// Reads the battery once.
    fn poll(&mut self) -> Battery
        ensures keeps { KeepsImage ⟦<Presto<R> as Stable>⟧ self.old self.new }
        ensures snapshot { IsPolled result (⟦<Presto<R> as Stable>⟧.snapshot_of self.old) (⟦<Presto<R> as Stable>⟧.snapshot_of self.new) }
        ensures read { IsRead (R.readings (rig_of self.old)) result (R.readings (rig_of self.new)) }
        ensures asked { BatteryAsked R.Rig (rig_of self.old) (rig_of self.new) }
        ensures cache { cache_of self.new ≡ cache_of self.old }
        ensures changes { IsNoted (state_of self.old) (state_of self.new) (changes_of self.old) (changes_of self.new) }
    {
        let battery = self.rig.battery();
        self.tally.battery = battery;
        self.tally.polls = self.tally.polls.saturating_add(1);
        let happening = polling(battery, self.cache.dirty());
        self.track.happen(happening);
        battery
    }

    /// Tries the oldest entry. One that is stuck becomes the youngest. At each moment no other sector of the disk has changed.
    fn flush_one(&mut self) -> FlushAnswer
        ensures keeps { KeepsImage ⟦<Presto<R> as Stable>⟧ self.old self.new }
        ensures snapshot { IsFlushed result (R.faults (rig_of self.old)) (R.faults (rig_of self.new)) (⟦<Presto<R> as Stable>⟧.snapshot_of self.old) (⟦<Presto<R> as Stable>⟧.snapshot_of self.new) }
        ensures answer { FlushAnswers result (cache_of self.old) (cache_of self.new) }
        ensures crash { FlushesOne R.Rig (oldest_sector (entries_of (cache_of self.old))) (rig_of self.old) (rig_of self.new) }
        ensures adds { AddsNone (cache_of self.old) (cache_of self.new) }
        ensures changes { IsNoted (state_of self.old) (state_of self.new) (changes_of self.old) (changes_of self.new) }
        ensures stays { Stays R.Rig (rig_of self.old) (rig_of self.new) }
    {
        let Some(index) = self.cache.oldest() else {
            return FlushAnswer::Nothing;
        };
        self.tally.tries = self.tally.tries.saturating_add(1);
        match flush_oldest(&mut self.cache, &mut self.rig, index) {
            Ok(()) => FlushAnswer::Flushed,
            Err(cause) => {
                self.track.happen(failing(cause));
                FlushAnswer::Stuck
            }
        }
    }

    /// Carries out a command. Down, Flush and, in ERROR, Reset try each entry once, the oldest first: those that failed are left dirty, in order. The other
    /// commands leave the entries as they are. At each moment the overlay is kept.
    fn command(&mut self, command: Command) -> Answer
        ensures keeps { KeepsImage ⟦<Presto<R> as Stable>⟧ self.old self.new }
        ensures snapshot { IsCommanded command result (R.faults (rig_of self.old)) (R.faults (rig_of self.new)) (⟦<Presto<R> as Stable>⟧.snapshot_of self.old) (⟦<Presto<R> as Stable>⟧.snapshot_of self.new) }
        ensures tried { flushes (state_of self.old) command → AreTried (entries_of (cache_of self.old)) (entries_of (cache_of self.new)) }
        ensures idle { (flushes (state_of self.old) command → ⊥) → entries_of (cache_of self.new) ≡ entries_of (cache_of self.old) }
        ensures crash { FlushesAll R.Rig (rig_of self.old) (rig_of self.new) }
        ensures adds { AddsNone (cache_of self.old) (cache_of self.new) }
        ensures changes { IsNoted (state_of self.old) (state_of self.new) (changes_of self.old) (changes_of self.new) }
    {
        if is_idle(self.track.state, command) {
            return Answer::Done;
        }
        match command {
            Command::Up => go_up(&mut self.track, &mut self.rig, &mut self.tally),
            _ => {
                let first = flush_all(&mut self.cache, &mut self.rig);
                self.track.happen(flushing(command, first));
                left_answer(self.cache.dirty())
            }
        }
    }

    fn snapshot(&self) -> Snapshot {
        Snapshot {
            state: self.track.state,
            dirty: self.cache.dirty(),
            battery: self.tally.battery,
            puts: self.tally.puts,
            polls: self.tally.polls,
            ups: self.tally.ups,
            tries: self.tally.tries,
        }
    }
}

impl<R: SteeredRig + Drop> SteeredStore for Presto<R> {
    fn set_battery(&mut self, battery: Battery) {
        self.rig.set_battery(battery);
    }

    fn stop_after(&mut self, calls: u64, newer: bool) {
        self.rig.stop_after(calls, newer);
    }
}

impl<R: Rig + Drop> Presto<R> {
    ghost use Rattle.std.specs.Prelude.{[], length};
    ghost use Rattle.nvram_map.specs.Overlay.{NoEntry};
    ghost use Rattle.presto_unit.specs.Happenings.{starting as starts_as};
    ghost use Rattle.presto_unit.specs.Parts.{rig_of, cache_of, state_of, changes_of, tally_of};
    ghost use Rattle.presto_unit.specs.Shown.{AreNone};

    /// A unit on a rig with the cache of its board: DOWN where no entry is dirty, else in ERROR by this cause. Nothing was counted yet. No device call is made.
    pub fn start(rig: R, cache: Cache, ring: Ring, cause: Cause) -> Presto<R>
        requires knows { Knows R.Rig rig cache }
        requires ring { ring ≡ [] }
        ensures rig { rig_of result ≡ rig }
        ensures cache { cache_of result ≡ cache }
        ensures state { state_of result ≡ starts_as (dirty_in cache) cause }
        ensures changes { changes_of result ≡ [] }
        ensures tally { AreNone (tally_of result) }
    {
        let track = Track::new(starting(cache.dirty(), cause), ring);
        Presto {
            rig,
            cache,
            track,
            tally: Tally::new(),
        }
    }

    /// The state.
    pub fn state(&self) -> State
        ensures { result ≡ state_of self.now }
    {
        self.track.state
    }

    /// How many entries are set or in doubt.
    pub fn dirty(&self) -> u32
        ensures { result ≡ dirty_in (cache_of self.now) }
    {
        self.cache.dirty()
    }

    /// How many of the last 64 changes of the state it has.
    pub fn changes(&self) -> u32
        ensures { result ≡ length (changes_of self.now) }
    {
        self.track.changes.len()
    }

    /// The rig, as the calls left it. No device call is made. In DOWN no word of an entry is set.
    pub fn into_rig(self) -> R
        ensures rig { result ≡ rig_of self }
        ensures bare { R.tells → state_of self ≡ Down → NoEntry (R.contents result) }
    {
        self.rig
    }
}

#[cfg(test)]
mod tests;
