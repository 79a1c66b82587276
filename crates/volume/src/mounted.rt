// A volume that is open.
use crate::batch::{is_hurt_after, make_batch};
use crate::calling::{is_hurt_by, make_call};
use crate::opening::Title;
use crate::outcome::{Commit, Outcome};
use crate::starting::{Opening, open_store};
use files_model::{Call, Cred, FileId, Reply, WriteItem};
use stable::{Answer, Battery, Command, Failed, FlushAnswer, Snapshot, SteeredStore, Tended};
use std::alloc::Global;
use v7_damage::RepairFault;
use v7_inspect::Seen;
use v7_make::write_chain;
use v7_repair::{Mended, Repaired, repair};
use v7_sets::Sets;

/// A volume on a store, which is its own until it is given back. It keeps which blocks and i-numbers are free. From an Io of a change on until
/// it is mended it is hurt: what was called may be done in part.
#[derive(Drop)]
pub struct Volume<S> {
    alloc: Global,
    store: S,
    title: Title,
    hurt: bool,
    sets: Sets,
}

impl<S: Tended> Volume<S> {
    ghost use Rattle.std.specs.Prelude.{◌≡◌, ◌≤◌, ◌+◌, true, false, length, Ok, IfOk, OnOk, IsErrOf};
    ghost use Rattle.files_model.specs.Batch.{cost};
    ghost use Rattle.plan_file.specs.Planned.{plan_puts};
    ghost use Rattle.stable.specs.Counts.{HasCause, Rose};
    ghost use Rattle.stable.specs.Looked.{Looked, KeepsImage};
    ghost use Rattle.stable.specs.Moments.{LeavesOnly};
    ghost use Rattle.stable.specs.States.{SomePuts, IsPolled, IsFlushed, IsCommanded};
    ghost use Rattle.stable.specs.Store.{StaysOpenable};
    ghost use Rattle.v7_damage.specs.declared.damage.RepairFault.TheVariants as fault;
    ghost use Rattle.v7_inspect.specs.SeenNumbers.{IsInspected};
    ghost use Rattle.v7_make.specs.Chains.{IsChained};
    ghost use Rattle.v7_map.specs.View.{view};
    ghost use Rattle.v7_repair.specs.Runs.{repair_puts};
    ghost use Rattle.volume.specs.Applied.{Applies};
    ghost use Rattle.volume.specs.Committed.{Commits};
    ghost use Rattle.volume.specs.Costs.{CostsAtMost, call_cost, most_puts};
    ghost use Rattle.volume.specs.Keeps.{SameVolume, MayOpen};
    ghost use Rattle.volume.specs.Mends.{Mends, mend_puts, stop_puts};
    ghost use Rattle.volume.specs.Mounted.{store_of, is_hurt, free_blocks, free_inodes, name_of, root_of, KeepsTitle, SameButStore};
    ghost use Rattle.volume.specs.Opened.{Opens, left_by, IsCaused};
    ghost use Rattle.volume.specs.Rests.{Rests};

    /// Opens the volume on a store: it is mended, its super-block says from then on that it is open (`s_fmod` 1, `s_time` this second;
    /// filsys(5)), and its name and root are read. Its files stay at each moment. A refusal hands the store back: Damaged comes exactly
    /// where the volume can't be mended and tells the first test that fails, and nothing was changed; after NoMemory neither; Failed comes
    /// only where a device failed in the call, and the volume may be mended, and marked as open.
    pub fn open(
        alloc: Global,
        store: S,
        now: u32,
    ) -> Result<(Volume<S>, Repaired), (RepairFault, S)>
        ensures rest { IfOk result (λ opened. Rests S.Stable opened.0) }
        ensures sound { IfOk result (λ opened. is_hurt opened.0 ≡ false) }
        ensures opened { S.tells → Opens (S.image store) (S.image (left_by result)) now result }
        ensures cause { IsCaused (S.faults store) (S.faults (left_by result)) result }
        ensures crash { LeavesOnly S.moment S.left_since store (left_by result) (MayOpen (S.image store)) }
        ensures opens { S.tells → StaysOpenable S.opens_since S.moment store (left_by result) }
        ensures sectors { S.sector_count (left_by result) ≡ S.sector_count store }
        ensures snapshot { SomePuts (repair_puts + 1) (S.faults store) (S.faults (left_by result)) (S.snapshot_of store) (S.snapshot_of (left_by result)) }
    {
        let mut store = store;
        match open_store(alloc, &mut store, now) {
            Ok(opening) => {
                let Opening { mended, title } = opening;
                let Mended { repaired, sets } = mended;
                let volume = Volume {
                    alloc,
                    store,
                    title,
                    hurt: false,
                    sets,
                };
                Ok((volume, repaired))
            }
            Err(fault) => Err((fault, store)),
        }
    }

    /// Mends the volume, if it is hurt. Done is the only reply, and then it isn't hurt. After Io, which comes only where a device failed in
    /// the call, and after NoMemory it still is. Its files stay at each moment.
    pub fn mend(&mut self) -> Outcome
        requires rest { Rests S.Stable self.old }
        ensures rest { Rests S.Stable self.new }
        ensures mended { Mends S.Stable (store_of self.old) (store_of self.new) (is_hurt self.old) (is_hurt self.new) result }
        ensures idle { is_hurt self.old ≡ false → self.new ≡ self.old }
        ensures opens { StaysOpenable S.opens_since S.moment (store_of self.old) (store_of self.new) }
        ensures sectors { S.sector_count (store_of self.new) ≡ S.sector_count (store_of self.old) }
        ensures titled { KeepsTitle self.old self.new }
        ensures snapshot { SomePuts (mend_puts (is_hurt self.old)) (S.faults (store_of self.old)) (S.faults (store_of self.new)) (S.snapshot_of (store_of self.old)) (S.snapshot_of (store_of self.new)) }
    {
        if !self.hurt {
            return Outcome::Reply(Reply::Done);
        }
        match repair(self.alloc, &mut self.store) {
            Ok(mended) => {
                self.sets = mended.sets;
                self.hurt = false;
                Outcome::Reply(Reply::Done)
            }
            Err(RepairFault::Damaged { .. }) => {
                self.hurt = false;
                Outcome::Reply(Reply::Done)
            }
            Err(RepairFault::Failed) => Outcome::Io,
            Err(RepairFault::NoMemory) => Outcome::NoMemory,
        }
    }

    /// Makes a call on the volume, all at this second; a hurt volume is mended first, which keeps its files. A reply is that of the call's
    /// step, and then there is nothing to mend. Io comes only where a device failed in the call; what was called may then be done in part,
    /// and if it changes files the volume is hurt. NoMemory leaves the files as they were, and comes of a GETATTR, a LOOKUP
    /// or a STATFS only where the volume was hurt.
    pub fn apply(&mut self, call: &Call, cred: &Cred, now: u32) -> Outcome
        requires rest { Rests S.Stable self.old }
        ensures rest { Rests S.Stable self.new }
        ensures applied { Applies S.Stable (store_of self.old) (store_of self.new) (is_hurt self.old) (is_hurt self.new) call.now cred.now now result }
        ensures opens { StaysOpenable S.opens_since S.moment (store_of self.old) (store_of self.new) }
        ensures sectors { S.sector_count (store_of self.new) ≡ S.sector_count (store_of self.old) }
        ensures titled { KeepsTitle self.old self.new }
        ensures snapshot { CostsAtMost S.Stable (store_of self.old) (store_of self.new) (is_hurt self.old) (most_puts call.now) (call_cost (view (S.image (store_of self.old))) call.now cred.now now) }
    {
        match self.mend() {
            Outcome::Reply(_) => {}
            Outcome::Io => return Outcome::Io,
            Outcome::NoMemory => return Outcome::NoMemory,
        }
        let outcome = make_call(self.alloc, &mut self.store, &mut self.sets, call, cred, now);
        self.hurt = is_hurt_by(call, &outcome);
        outcome
    }

    /// Writes a batch of 1 to 16 writes to one file, all at this second (RFC 1094 2.2.9); a hurt volume is mended first. The replies are those of
    /// the writes one after the other, in order. Each touched sector is put once, and then the inode. Io comes only where a device failed in the
    /// call; the writes may then be done in part, and the volume is hurt. NoMemory leaves the files as they were.
    pub fn commit(&mut self, file: FileId, batch: &[WriteItem], now: u32) -> Commit
        requires few { (1 ≤ length batch.now) × (length batch.now ≤ 16) }
        requires rest { Rests S.Stable self.old }
        ensures rest { Rests S.Stable self.new }
        ensures committed { Commits S.Stable (store_of self.old) (store_of self.new) (is_hurt self.old) (is_hurt self.new) file batch.now now result }
        ensures opens { StaysOpenable S.opens_since S.moment (store_of self.old) (store_of self.new) }
        ensures sectors { S.sector_count (store_of self.new) ≡ S.sector_count (store_of self.old) }
        ensures titled { KeepsTitle self.old self.new }
        ensures snapshot { CostsAtMost S.Stable (store_of self.old) (store_of self.new) (is_hurt self.old) plan_puts (cost (view (S.image (store_of self.old))) file batch.now now) }
    {
        match self.mend() {
            Outcome::Reply(_) => {}
            Outcome::Io => return Commit::Io,
            Outcome::NoMemory => return Commit::NoMemory,
        }
        let outcome = make_batch(
            self.alloc,
            &mut self.store,
            &mut self.sets,
            file,
            batch,
            now,
        );
        self.hurt = is_hurt_after(&outcome);
        outcome
    }

    /// Looks whether the volume can be mended, and what is in it. Nothing is changed. Failed comes only where a device failed in the call.
    pub fn inspect(&mut self) -> Result<Seen, RepairFault>
        requires rest { Rests S.Stable self.old }
        ensures rest { Rests S.Stable self.new }
        ensures inspected { S.tells → IsInspected (S.image (store_of self.old)) result }
        ensures cause { IsErrOf result fault.Failed → Rose (S.faults (store_of self.old)) (S.faults (store_of self.new)) }
        ensures looked { Looked S.Stable (store_of self.old) (store_of self.new) }
        ensures kept { SameButStore self.old self.new }
    {
        v7_inspect::inspect(self.alloc, &mut self.store)
    }

    /// Stops the volume at that second: the free chain of exactly its unused blocks is written, and then its super-block, which says that it
    /// was stopped cleanly (filsys(5)). Where it is hurt nothing is written. Its files stay at each moment. Failed comes only where a device
    /// failed in the call. It takes no memory, and the store comes back.
    pub fn stop(self, now: u32) -> (S, Result<(), Failed>)
        requires rest { Rests S.Stable self }
        ensures done { S.tells → is_hurt self ≡ false → OnOk result.1 (IsChained (S.image (store_of self)) (S.image result.0) (free_blocks self) (free_inodes self) now) }
        ensures hurt { is_hurt self ≡ true → (result.0 ≡ store_of self) × (result.1 ≡ Ok tt) }
        ensures crash { LeavesOnly S.moment S.left_since (store_of self) result.0 (SameVolume (S.image (store_of self))) }
        ensures opens { S.tells → StaysOpenable S.opens_since S.moment (store_of self) result.0 }
        ensures cause { HasCause (S.faults (store_of self)) (S.faults result.0) result.1 }
        ensures sectors { S.sector_count result.0 ≡ S.sector_count (store_of self) }
        ensures snapshot { SomePuts (stop_puts (is_hurt self) (free_blocks self)) (S.faults (store_of self)) (S.faults result.0) (S.snapshot_of (store_of self)) (S.snapshot_of result.0) }
    {
        let Volume {
            mut store,
            hurt,
            sets,
            ..
        } = self;
        if hurt {
            return (store, Ok(()));
        }
        let written = write_chain(&mut store, &sets.blocks, &sets.inodes, now);
        (store, written)
    }

    /// The store, as the calls left it. No device call is made.
    pub fn into_store(self) -> S
        ensures { result ≡ store_of self }
    {
        self.store
    }

    /// The root directory, as the opening found it.
    pub fn root(&self) -> FileId
        ensures { result ≡ root_of self.now }
    {
        self.title.root
    }

    /// The volume's name, as the opening found it.
    pub fn name(&self) -> [u8; 6]
        ensures { result ≡ name_of self.now }
    {
        self.title.name
    }

    /// Polls the store's battery.
    pub fn poll(&mut self) -> Battery
        requires rest { Rests S.Stable self.old }
        ensures rest { Rests S.Stable self.new }
        ensures keeps { KeepsImage S.Stable (store_of self.old) (store_of self.new) }
        ensures kept { SameButStore self.old self.new }
        ensures snapshot { IsPolled result (S.snapshot_of (store_of self.old)) (S.snapshot_of (store_of self.new)) }
    {
        self.store.poll()
    }

    /// Tries to flush the store's oldest dirty sector.
    pub fn flush_one(&mut self) -> FlushAnswer
        requires rest { Rests S.Stable self.old }
        ensures rest { Rests S.Stable self.new }
        ensures keeps { KeepsImage S.Stable (store_of self.old) (store_of self.new) }
        ensures kept { SameButStore self.old self.new }
        ensures snapshot { IsFlushed result (S.faults (store_of self.old)) (S.faults (store_of self.new)) (S.snapshot_of (store_of self.old)) (S.snapshot_of (store_of self.new)) }
    {
        self.store.flush_one()
    }

    /// Gives the store a command.
    pub fn command(&mut self, command: Command) -> Answer
        requires rest { Rests S.Stable self.old }
        ensures rest { Rests S.Stable self.new }
        ensures keeps { KeepsImage S.Stable (store_of self.old) (store_of self.new) }
        ensures kept { SameButStore self.old self.new }
        ensures snapshot { IsCommanded command result (S.faults (store_of self.old)) (S.faults (store_of self.new)) (S.snapshot_of (store_of self.old)) (S.snapshot_of (store_of self.new)) }
    {
        self.store.command(command)
    }

    /// The store's state and counts.
    pub fn snapshot(&self) -> Snapshot
        ensures { result ≡ S.snapshot_of (store_of self.now) }
    {
        self.store.snapshot()
    }
}

impl<S: SteeredStore> Volume<S> {
    ghost use Rattle.stable.specs.Looked.{Untouched};
    ghost use Rattle.volume.specs.Mounted.{store_of, SameButStore};
    ghost use Rattle.volume.specs.Rests.{Rests};

    /// Sets what the battery says at its next readings.
    pub fn set_battery(&mut self, battery: Battery)
        requires rest { Rests S.Stable self.old }
        ensures rest { Rests S.Stable self.new }
        ensures untouched { Untouched S.Stable (store_of self.old) (store_of self.new) }
        ensures kept { SameButStore self.old self.new }
    {
        self.store.set_battery(battery);
    }

    /// Cuts the device call that comes after so many more: it leaves the newer state, or the older.
    pub fn stop_after(&mut self, calls: u64, newer: bool)
        requires rest { Rests S.Stable self.old }
        ensures rest { Rests S.Stable self.new }
        ensures untouched { Untouched S.Stable (store_of self.old) (store_of self.new) }
        ensures kept { SameButStore self.old self.new }
    {
        self.store.stop_after(calls, newer);
    }
}
