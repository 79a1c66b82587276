ghost use Rattle.std.specs.Prelude.{◌<◌, ◌^◌, length};

use stable::{
    Answer, Battery, Command, Failed, FlushAnswer, NoMemory, Snapshot, Stable, State, SteeredStore,
    Tended,
};
use std::alloc::Global;

/// A store that is always DOWN and whose battery is low, of as many sectors as it is made with. It tells no contract what it holds. It keeps
/// which sectors were put, how often sectors were read, and how it was steered; one of its puts can be made to fail.
#[derive(Drop)]
pub struct Memory {
    /// What each sector holds.
    pub sectors: Vec<[u8; 512]>,
    /// The sectors of the first eight puts, in order, failed ones too.
    pub order: [u32; 8],
    /// How often a sector was put, modulo 2 to the 64.
    pub puts: u64,
    /// How often each of the first 64 sectors was read, at most 4,294,967,295 times.
    pub reads: [u32; 64],
    pub polls: u64,
    pub ups: u64,
    pub faults: u64,
    /// Which put fails, counted from 1; 0 for none.
    pub failing: u64,
    /// What the battery was set to. It is read as low all the same.
    pub battery: Battery,
    /// The call that was to be cut: how many come before it, and whether it leaves the newer state. None is cut.
    pub stop: Option<(u64, bool)>,
    ghost few: { length sectors.items < 2 ^ 32 },
    ghost counted: { puts < 2 ^ 64 },
}

impl Memory {
    ghost use Rattle.std.specs.Prelude.{◌≡◌, ◌<◌, ◌^◌, length, get_or, replicate, IfOk};
    ghost use Rattle.stable.specs.Counts.{HasCause};
    ghost use Rattle.store_mem.specs.Memories.{IsNew, IsReadAt, IsCounted, Leaves};

    /// A store of these sectors, on which no call was made.
    pub fn new(alloc: Global, sectors: &[[u8; 512]]) -> Result<Memory, NoMemory>
        requires { length sectors.now < 2 ^ 32 }
        ensures { IfOk result (λ store. IsNew sectors.now store) }
    {
        let mut held = Vec::with_capacity(alloc, sectors.len())?;
        held.extend_from_slice(sectors)?;
        Ok(Memory {
            sectors: held,
            order: [0; 8],
            puts: 0,
            reads: [0; 64],
            polls: 0,
            ups: 0,
            faults: 0,
            failing: 0,
            battery: Battery::Low,
            stop: None,
        })
    }

    /// What a sector holds, zeros where there is none.
    pub fn sector(&self, sector: u32) -> [u8; 512]
        ensures { result ≡ get_or self.now.sectors.items sector (replicate 512 0) }
    {
        match self.sectors.get(sector as usize) {
            Some(bytes) => *bytes,
            None => [0; 512],
        }
    }

    // Counts a read of a sector.
    fn count_read(&mut self, sector: u32)
        ensures { IsReadAt sector self.old self.new }
    {
        if sector < 64 {
            self.reads[sector as usize] = self.reads[sector as usize].saturating_add(1);
        }
    }

    // Puts a sector. The put that is to fail counts a fault, and leaves the sector old.
    fn put_sector(&mut self, sector: u32, bytes: &[u8; 512]) -> Result<(), Failed>
        requires { sector < length self.old.sectors.items }
        ensures counted { IsCounted sector self.old self.new }
        ensures left { Leaves sector bytes.now self.old self.new result }
        ensures cause { HasCause self.old.faults self.new.faults result }
    {
        if self.puts < 8 {
            self.order[self.puts as usize] = sector;
        }
        self.puts = self.puts.wrapping_add(1);
        if self.puts == self.failing {
            self.faults = self.faults.saturating_add(1);
            return Err(Failed);
        }
        self.sectors[sector as usize] = *bytes;
        Ok(())
    }
}

impl Stable for Memory {
    ghost use Rattle.std.specs.Prelude.{[], length};
    ghost use Rattle.std.proofs.Common.{refl};
    ghost use Rattle.stable.specs.declared.battery.Battery.TheVariants as battery;
    ghost use Rattle.stable.specs.declared.state.State.TheVariants as state;

    ghost tells = { ⊥ };

    ghost image = { λ s. [] };

    ghost moment = { λ s. 0 };

    ghost left_since = { λ s t i. ⊥ };

    ghost opens_since = { λ s t. ⊥ };

    ghost sector_count = { λ s. length s.sectors.items };

    ghost faults = { λ s. s.faults };

    ghost snapshot_of = { λ s. record { state = state.Down; dirty = 0; battery = battery.Low; puts = s.puts; polls = s.polls; ups = s.ups; tries = 0 } };

    ghost clocked = { record {
      now = λ s t told le. told;
      only = λ s d left. absurd left;
      wider = λ s t u d le left. left;
      told = λ s t d left. left;
    } };

    ghost shape = { λ s t i left. absurd left };

    ghost opens_later = { λ s t u le opens. opens };

    ghost counted = { λ s. s.counted };

    ghost down = { λ s down. refl };

    fn sectors(&self) -> u32 {
        self.sectors.len() as u32
    }

    fn get(&mut self, sector: u32, into: &mut [u8; 512]) -> Result<(), Failed> {
        self.count_read(sector);
        *into = self.sector(sector);
        Ok(())
    }

    fn put(&mut self, sector: u32, bytes: &[u8; 512]) -> Result<(), Failed> {
        self.put_sector(sector, bytes)
    }
}

impl Tended for Memory {
    fn poll(&mut self) -> Battery {
        self.polls = self.polls.saturating_add(1);
        Battery::Low
    }

    fn flush_one(&mut self) -> FlushAnswer {
        FlushAnswer::Nothing
    }

    fn command(&mut self, command: Command) -> Answer {
        match command {
            Command::Up => {
                self.ups = self.ups.saturating_add(1);
                Answer::BatteryLow
            }
            Command::Down | Command::Flush | Command::Reset => Answer::Done,
        }
    }

    fn snapshot(&self) -> Snapshot {
        Snapshot {
            state: State::Down,
            dirty: 0,
            battery: Battery::Low,
            puts: self.puts,
            polls: self.polls,
            ups: self.ups,
            tries: 0,
        }
    }
}

impl SteeredStore for Memory {
    ghost use Rattle.std.specs.Prelude.{◌≡◌, Some};
    ghost use Rattle.stable.specs.Looked.{Untouched};

    fn set_battery(&mut self, battery: Battery)
        ensures untouched { Untouched ⟦<Memory as Stable>⟧ self.old self.new }
        ensures kept { self.new ≡ record self.old { battery = battery } }
    {
        self.battery = battery;
    }

    fn stop_after(&mut self, calls: u64, newer: bool)
        ensures untouched { Untouched ⟦<Memory as Stable>⟧ self.old self.new }
        ensures kept { self.new ≡ record self.old { stop = Some (calls, newer) } }
    {
        self.stop = Some((calls, newer));
    }
}
