// The calls of a rig in memory.
ghost use Rattle.std.specs.Prelude.{◌≡◌, ◌<◌, true, length, get_or, [], refl, OnOk, OnErr, IfOk, is_ok};
ghost use Rattle.stable.specs.Counts.{HasCause, one_more};
ghost use Rattle.rig.specs.Devices.{IsRead, with_sector, with_word, with_buffer, with_kept, Unchanged, SectorOldOrNew, WordOldOrNew, BufferAny, KeptOldOrTrue};
ghost use Rattle.rig.specs.Looked.{Looked, Stays, StaysOffDisk};
ghost use Rattle.stable.specs.Moments.{LeavesOnly};

use super::MemRig;
use crate::change::{Change, change_kept};
use crate::fault::takes;
use rig::{Battery, Failed, Rig};

impl MemRig {
    ghost use Rattle.rig_mem.specs.Rigs.{mem_says, reading_of};

    // What the battery says at the reading that was counted last.
    fn answer(&self) -> Battery
        ensures { result ≡ reading_of (length self.now.words.items) (mem_says self.now) self.now.readings }
    {
        if self.words.is_empty() {
            return Battery::Low;
        }
        if let Some(from) = self.low_from
            && self.readings >= from
        {
            return Battery::Low;
        }
        self.battery
    }
}

impl Rig for MemRig {
    ghost use Rattle.rig_mem.specs.Troubles.{fate_of, Obeys};
    ghost use Rattle.rig_mem.specs.Rigs.{mem_contents, mem_moment, mem_left_since, mem_sizes, mem_faults, mem_readings, mem_plan, mem_says, reading_of, IsCalled, IsMarked, IsWriteCounted, OnlyRead};
    ghost use Rattle.rig_mem.specs.Images.{mem_counts_now, mem_only_now, mem_wider, mem_shape};

    ghost tells = { Unit {0} };

    ghost contents = { mem_contents };

    ghost moment = { mem_moment };

    ghost left_since = { mem_left_since };

    ghost sizes = { mem_sizes };

    ghost is_kept = { λ m. m.kept };

    ghost faults = { mem_faults };

    ghost disk_writes = { λ m. m.writes };

    ghost readings = { mem_readings };

    ghost clocked = { record {
      now = λ m t tells le. mem_counts_now m t;
      only = mem_only_now;
      wider = mem_wider;
      told = λ m t d left. tt;
    } };

    ghost shape = { mem_shape };

    ghost kept_told = { λ m tells. refl };

    ghost board = { λ m. m.board };

    fn sectors(&self) -> u32 {
        self.disk.len() as u32
    }

    fn words(&self) -> u32 {
        self.words.len() as u32
    }

    fn buffers(&self) -> u32 {
        self.buffers.len() as u32
    }

    fn kept(&self) -> bool {
        self.kept
    }

    fn mark_kept(&mut self) -> Result<(), Failed>
        ensures obeys { Obeys (fate_of (mem_plan self.old) None) (mem_contents self.old) (with_kept (mem_contents self.old)) result (mem_contents self.new) }
        ensures called { IsCalled self.old self.new }
        ensures marked { IsMarked self.old self.new result }
        ensures crash { LeavesOnly mem_moment mem_left_since self.old self.new (KeptOldOrTrue (mem_contents self.old)) }
        ensures cause { HasCause (mem_faults self.old) (mem_faults self.new) result }
        ensures sizes { mem_sizes self.new ≡ mem_sizes self.old }
        ensures disk_writes { self.new.writes ≡ self.old.writes }
        ensures readings { mem_readings self.new ≡ mem_readings self.old }
    {
        let fate = self.trouble.next(None);
        let Some(takes) = takes(fate) else {
            return Err(Failed);
        };
        if change_kept(&mut self.kept, &mut self.history, takes).is_err() {
            self.trouble.count_fault();
            return Err(Failed);
        }
        if fate.is_err() {
            return Err(Failed);
        }
        Ok(())
    }

    fn battery(&mut self) -> Battery
        ensures answer { result ≡ reading_of (mem_sizes self.old).words (mem_says self.old) (mem_readings self.new).count }
        ensures read { IsRead (mem_readings self.old) result (mem_readings self.new) }
        ensures low { (mem_sizes self.old).words ≡ 0 → result ≡ Battery.Low }
        ensures only { OnlyRead self.old self.new }
        ensures crash { LeavesOnly mem_moment mem_left_since self.old self.new (Unchanged (mem_contents self.old)) }
    {
        self.readings = self.readings.saturating_add(1);
        let answer = self.answer();
        self.last = Some(answer);
        answer
    }

    fn read(&mut self, sector: u32, into: &mut [u8; 512]) -> Result<(), Failed>
        requires { sector < (mem_sizes self.old).sectors }
        ensures obeys { is_ok result ≡ is_ok (fate_of (mem_plan self.old) None) }
        ensures called { IsCalled self.old self.new }
        ensures done { OnOk result (into.new ≡ get_or (mem_contents self.old).disk sector []) }
        ensures looked { Looked ⟦<MemRig as Rig>⟧ self.old self.new }
        ensures cause { HasCause (mem_faults self.old) (mem_faults self.new) result }
    {
        if self.trouble.next(None).is_err() {
            return Err(Failed);
        }
        *into = self.disk[sector as usize];
        Ok(())
    }

    fn write(&mut self, sector: u32, bytes: &[u8; 512]) -> Result<(), Failed>
        requires { sector < (mem_sizes self.old).sectors }
        ensures obeys { Obeys (fate_of (mem_plan self.old) (Some sector)) (mem_contents self.old) (with_sector (mem_contents self.old) sector bytes.now) result (mem_contents self.new) }
        ensures called { IsCalled self.old self.new }
        ensures done { OnOk result (mem_contents self.new ≡ with_sector (mem_contents self.old) sector bytes.now) }
        ensures crash { LeavesOnly mem_moment mem_left_since self.old self.new (SectorOldOrNew sector bytes.now (mem_contents self.old)) }
        ensures cause { HasCause (mem_faults self.old) (mem_faults self.new) result }
        ensures stays { Stays ⟦<MemRig as Rig>⟧ self.old self.new }
        ensures counted { IsWriteCounted self.old self.new result }
    {
        let fate = self.trouble.next(Some(sector));
        let Some(takes) = takes(fate) else {
            return Err(Failed);
        };
        let change = Change::of_sector(&self.disk, sector, bytes);
        let kept = self
            .history
            .put(&mut self.disk, change, sector, *bytes, takes);
        if kept.is_err() {
            self.trouble.count_fault();
            return Err(Failed);
        }
        if fate.is_err() {
            return Err(Failed);
        }
        self.writes = self.writes.saturating_add(1);
        Ok(())
    }

    fn load_word(&mut self, index: u32) -> Result<u64, Failed>
        requires { index < (mem_sizes self.old).words }
        ensures obeys { is_ok result ≡ is_ok (fate_of (mem_plan self.old) None) }
        ensures called { IsCalled self.old self.new }
        ensures done { IfOk result (λ word. word ≡ get_or (mem_contents self.old).words index 0) }
        ensures looked { Looked ⟦<MemRig as Rig>⟧ self.old self.new }
        ensures cause { HasCause (mem_faults self.old) (mem_faults self.new) result }
    {
        if self.trouble.next(None).is_err() {
            return Err(Failed);
        }
        Ok(self.words[index as usize])
    }

    fn store_word(&mut self, index: u32, word: u64) -> Result<(), Failed>
        requires { index < (mem_sizes self.old).words }
        ensures obeys { Obeys (fate_of (mem_plan self.old) None) (mem_contents self.old) (with_word (mem_contents self.old) index word) result (mem_contents self.new) }
        ensures called { IsCalled self.old self.new }
        ensures done { OnOk result (mem_contents self.new ≡ with_word (mem_contents self.old) index word) }
        ensures crash { LeavesOnly mem_moment mem_left_since self.old self.new (WordOldOrNew index word (mem_contents self.old)) }
        ensures cause { HasCause (mem_faults self.old) (mem_faults self.new) result }
        ensures stays { StaysOffDisk ⟦<MemRig as Rig>⟧ self.old self.new }
    {
        let fate = self.trouble.next(None);
        let Some(takes) = takes(fate) else {
            return Err(Failed);
        };
        let change = Change::of_word(&self.words, index, word);
        let kept = self
            .history
            .put(&mut self.words, change, index, word, takes);
        if kept.is_err() {
            self.trouble.count_fault();
            return Err(Failed);
        }
        if fate.is_err() {
            return Err(Failed);
        }
        Ok(())
    }

    fn load_buffer(&mut self, index: u32, into: &mut [u8; 512]) -> Result<(), Failed>
        requires { index < (mem_sizes self.old).buffers }
        ensures obeys { is_ok result ≡ is_ok (fate_of (mem_plan self.old) None) }
        ensures called { IsCalled self.old self.new }
        ensures done { OnOk result (into.new ≡ get_or (mem_contents self.old).buffers index []) }
        ensures looked { Looked ⟦<MemRig as Rig>⟧ self.old self.new }
        ensures cause { HasCause (mem_faults self.old) (mem_faults self.new) result }
    {
        if self.trouble.next(None).is_err() {
            return Err(Failed);
        }
        *into = self.buffers[index as usize];
        Ok(())
    }

    fn store_buffer(&mut self, index: u32, bytes: &[u8; 512]) -> Result<(), Failed>
        requires { index < (mem_sizes self.old).buffers }
        ensures obeys { Obeys (fate_of (mem_plan self.old) None) (mem_contents self.old) (with_buffer (mem_contents self.old) index bytes.now) result (mem_contents self.new) }
        ensures called { IsCalled self.old self.new }
        ensures done { OnOk result (mem_contents self.new ≡ with_buffer (mem_contents self.old) index bytes.now) }
        ensures crash { LeavesOnly mem_moment mem_left_since self.old self.new (BufferAny index (mem_contents self.old)) }
        ensures cause { HasCause (mem_faults self.old) (mem_faults self.new) result }
        ensures stays { StaysOffDisk ⟦<MemRig as Rig>⟧ self.old self.new }
    {
        let fate = self.trouble.next(None);
        let Some(takes) = takes(fate) else {
            return Err(Failed);
        };
        let change = Change::of_buffer(&self.buffers, index);
        let kept = self
            .history
            .put(&mut self.buffers, change, index, *bytes, takes);
        if kept.is_err() {
            self.trouble.count_fault();
            return Err(Failed);
        }
        if fate.is_err() {
            return Err(Failed);
        }
        Ok(())
    }
}
