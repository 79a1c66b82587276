// Where a name stands, or where a new entry of it comes.

ghost use Rattle.std.specs.Prelude.{◌≡◌, true, ℕ, List, Some, None, IfOk};
ghost use Rattle.std.specs.List.{position};
ghost use Rattle.files_model.specs.Files.{Node, live};
ghost use Rattle.files_model.specs.Names.{has_name};
ghost use Rattle.files_model.specs.Permission.{is_directory};
ghost use Rattle.name_places.specs.Places.{IsNamePlace, PlaceWithin};
ghost use Rattle.stable.specs.Counts.{HasCause};
ghost use Rattle.stable.specs.Looked.{Looked};
ghost use Rattle.v7_map.specs.Frame.{frame};
ghost use Rattle.v7_map.specs.View.{view};
ghost use Rattle.v7_map.specs.Weak.{IsStrong};
ghost use Rattle.v7_read.specs.Found.{IsFile};

use files_model::{FileId, Name};
use plan_name::Spot;
use stable::{Failed, Stable};
use v7_entries::{NamedSlot, find_empty, find_entry};
use v7_read::Found;

/// What a directory has for a name (filsys(5)).
#[derive(Clone, Copy)]
pub enum NamePlace {
    /// This slot is the first that has the name.
    Taken(NamedSlot),
    /// No slot has the name, and this one is the first that is empty.
    Empty(Spot),
    /// No slot has the name, and none is empty: a new entry comes at the directory's end.
    End,
}

// Where a new entry of a name comes that no slot has.
fn free_place<S: Stable>(store: &mut S, dir: FileId, found: &Found) -> Result<NamePlace, Failed>
    ensures place { S.tells → IsStrong (frame (S.image store.old)) → IsFile (S.image store.old) dir found.now → (d : Node) → live (view (S.image store.old)) dir ≡ Some d → is_directory d.kind ≡ true → (name : List ℕ) → position (has_name name) d.slots ≡ None → IfOk result (IsNamePlace (S.image store.old) dir name d) }
    ensures within { IfOk result (PlaceWithin (S.sector_count store.old)) }
    ensures cause { HasCause (S.faults store.old) (S.faults store.new) result }
    ensures looked { Looked S.Stable store.old store.new }
{
    let Some(empty) = find_empty(store, &found.inode)? else {
        return Ok(NamePlace::End);
    };
    // no directory stands in the first two sectors
    if empty.sector < 2 {
        return Ok(NamePlace::End);
    }
    Ok(NamePlace::Empty(Spot {
        directory: dir,
        index: empty.slot,
        sector: empty.sector,
    }))
}

/// Finds where a name stands in the directory of this handle, or where a new entry of it comes: the first empty slot, or the directory's end. Each sector of
/// the directory is read at most twice. Nothing is changed.
pub fn find_place<S: Stable>(
    store: &mut S,
    dir: FileId,
    found: &Found,
    name: &Name,
) -> Result<NamePlace, Failed>
    ensures place { S.tells → IsStrong (frame (S.image store.old)) → IsFile (S.image store.old) dir found.now → (d : Node) → live (view (S.image store.old)) dir ≡ Some d → is_directory d.kind ≡ true → IfOk result (IsNamePlace (S.image store.old) dir name.now d) }
    ensures within { IfOk result (PlaceWithin (S.sector_count store.old)) }
    ensures cause { HasCause (S.faults store.old) (S.faults store.new) result }
    ensures looked { Looked S.Stable store.old store.new }
{
    let Some(slot) = find_entry(store, &found.inode, name)? else {
        return free_place(store, dir, found);
    };
    // no directory stands in the first two sectors
    if slot.sector < 2 {
        return Ok(NamePlace::End);
    }
    Ok(NamePlace::Taken(slot))
}
