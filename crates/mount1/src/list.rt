//! The list of mounts: at most 64 pairs of a machine and a volume.
ghost use Rattle.std.specs.Prelude.{◌≡◌, ◌≤◌, [], IfOk, OnOk, OnErr};
ghost use Rattle.std.specs.List.{list_any};
ghost use Rattle.mount1.specs.Rows.{is_row, is_of, mounted, unmounted, unmounted_all, with_rows, AreRows};

use files_model::{Name, NoMemory};
use std::alloc::Global;
use std::marker::Model;

/// The most rows.
const MOST_ROWS: usize = 64;

/// A machine and the number of the volume whose path it mounted.
#[derive(Drop)]
pub struct Row {
    pub machine: Name,
    pub volume: u32,
}

impl Row {
    fn is(&self, machine: &Name, volume: u32) -> bool
        ensures { result ≡ is_row machine.now volume self.now }
    {
        self.machine.bytes() == machine.bytes() && self.volume == volume
    }

    fn is_of(&self, machine: &Name) -> bool
        ensures { result ≡ is_of machine.now self.now }
    {
        self.machine.bytes() == machine.bytes()
    }
}

/// What machines have mounted, in the order in which it came, where one to four volumes are open: at most 64 rows.
#[derive(Drop)]
pub struct Mounts {
    rows: Vec<Row>,
    volumes: u32,
}

impl Model for Mounts {
    ghost use Rattle.std.specs.Prelude.{◌≤◌};
    ghost use Rattle.mount1.specs.Rows.{Kept, AreRows};

    ghost Value = { Kept };

    ghost view = { λ mounts. record { volumes = mounts.volumes; rows = mounts.rows.items } };

    ghost invariant = { λ mounts. (mounts.volumes ≤ 4) × AreRows mounts.rows.items };
}

impl Mounts {
    /// An empty list, where so many volumes are open: 1 to 4.
    pub fn new(alloc: Global, volumes: u32) -> Result<Mounts, NoMemory>
        requires some { 1 ≤ volumes }
        requires few { volumes ≤ 4 }
        ensures { IfOk result (λ mounts. mounts ≡ record { volumes = volumes; rows = [] }) }
    {
        let rows = Vec::with_capacity(alloc, MOST_ROWS)?;
        Ok(Mounts { rows, volumes })
    }

    /// How many volumes are open.
    pub(crate) fn volumes(&self) -> u32
        ensures volumes { result ≡ self.now.volumes }
        ensures few { result ≤ 4 }
    {
        self.volumes
    }

    /// The rows.
    pub(crate) fn rows(&self) -> &[Row]
        ensures rows { result.now ≡ self.now.rows }
        ensures fit { AreRows result.now }
    {
        self.rows.as_slice()
    }

    /// Adds a row, unless it stands there or 64 do.
    pub(crate) fn mount(&mut self, machine: &Name, volume: u32) -> Result<(), NoMemory>
        requires { volume ≤ 3 }
        ensures ok { OnOk result (self.new ≡ with_rows self.old (mounted machine.now volume self.old.rows)) }
        ensures err { OnErr result (self.new ≡ self.old) }
    {
        add_row(&mut self.rows, machine, volume)
    }

    /// Removes a row, if it stands there.
    pub(crate) fn unmount(&mut self, machine: &Name, volume: u32)
        ensures { self.new ≡ with_rows self.old (unmounted machine.now volume self.old.rows) }
    {
        drop_row(&mut self.rows, machine, volume);
    }

    /// Removes the rows of a machine.
    pub(crate) fn unmount_all(&mut self, machine: &Name)
        ensures { self.new ≡ with_rows self.old (unmounted_all machine.now self.old.rows) }
    {
        drop_rows(&mut self.rows, machine);
    }
}

fn stands(rows: &[Row], machine: &Name, volume: u32) -> bool
    ensures { result ≡ list_any (is_row machine.now volume) rows.now }
{
    rows.iter().any(|row| row.is(machine, volume))
}

fn add_row(rows: &mut Vec<Row>, machine: &Name, volume: u32) -> Result<(), NoMemory>
    requires fit { AreRows rows.old.items }
    requires named { volume ≤ 3 }
    ensures ok { OnOk result (rows.new.items ≡ mounted machine.now volume rows.old.items) }
    ensures err { OnErr result (rows.new.items ≡ rows.old.items) }
    ensures fit { AreRows rows.new.items }
{
    if stands(rows, machine, volume) || rows.len() >= MOST_ROWS {
        return Ok(());
    }
    let machine = Name::copy(machine.bytes());
    rows.push(Row { machine, volume })?;
    Ok(())
}

fn drop_row(rows: &mut Vec<Row>, machine: &Name, volume: u32)
    requires { AreRows rows.old.items }
    ensures value { rows.new.items ≡ unmounted machine.now volume rows.old.items }
    ensures fit { AreRows rows.new.items }
{
    rows.retain(|row| !row.is(machine, volume));
}

fn drop_rows(rows: &mut Vec<Row>, machine: &Name)
    requires { AreRows rows.old.items }
    ensures value { rows.new.items ≡ unmounted_all machine.now rows.old.items }
    ensures fit { AreRows rows.new.items }
{
    rows.retain(|row| !row.is_of(machine));
}
