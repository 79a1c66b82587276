// What plans of renames leave of an image.

ghost use Rattle.std.specs.Prelude.{◌≡◌, ℕ, Bool, List, [], ◌∷◌, ◌++◌, ◌==◌};
ghost use Rattle.files_model.specs.Files.{Node};
ghost use Rattle.files_model.specs.declared.attributes.FileId.{FileId};
ghost use Rattle.files_model.specs.declared.call.Call.TheVariants.{Rename};
ghost use Rattle.files_model.specs.declared.credential.Cred.{Cred};
ghost use Rattle.name_plans.specs.Moving.{IsMoving, MovesAtEnd, MovesInPlace, moving_puts};
ghost use Rattle.name_plans.specs.Naming.{IsNaming, PutsName, naming_puts};
ghost use Rattle.name_plans.specs.Removed.{AreFreed, frees_number, number_given};
ghost use Rattle.name_plans.specs.Replacement.{Finishes, IsReplacement, MovesSlots, moved_slots, replacing_puts};
ghost use Rattle.stable.specs.Puts.{put_all};
ghost use Rattle.stable.specs.Store.{Image};
ghost use Rattle.v7_layout.specs.declared.inode.Inode.{Inode};
ghost use Rattle.v7_map.specs.Frame.{frame};
ghost use Rattle.v7_map.specs.Plans.{IsPlanOf};
ghost use Rattle.v7_map.specs.View.{view};
ghost use Rattle.v7_map.specs.Weak.{IsStrong};
ghost use Rattle.v7_sets.specs.Given.{given};
ghost use Rattle.v7_sets.specs.Sets.{AreSetsOf};
ghost use Rattle.v7_plans.specs.Setting.{put_inode};
ghost use Rattle.v7_strokes.specs.Entries.{entry_sector, inode_put};
ghost use Rattle.v7_strokes.specs.Freed.{IsFreed};

/// An accepted RENAME (RFC 1094 2.2.12) onto a name that stands, in one directory or in another one: the new slot's sector, the old slot's, then the
/// inodes of the directories with their times and that of the replaced node, which ends with its last name, in any order. A crash leaves the files before
/// the call, or both names of the moved node, or the files after it, but for times. Afterwards each block stands where it stood, but those of a node that
/// ended stand nowhere.
pub fn a_replacement_is_planned()
    ensures planned { (image : Image) (from to : FileId) (name new_name : List ℕ) (cred : Cred) (now i r k l : ℕ) (n w dp dq : Node) (b1 b2 : List ℕ) (before after : List ℕ) (bs cs : List (List ℕ)) (b : List ℕ)
        → IsStrong (frame image) → IsReplacement (view image) from to name new_name cred now i r k l n w dp dq
        → MovesSlots image from.ino to.ino k l i new_name b1 b2 → Finishes (moved_slots image from.ino to.ino k l b1 b2) now from.ino to.ino r w before after bs cs b
        → IsPlanOf image ((Rename from name to new_name, cred) ∷ []) now (replacing_puts image from.ino to.ino k l r b1 b2 before after bs cs b) }
    ensures freed { (image : Image) (from to : FileId) (name new_name : List ℕ) (cred : Cred) (now i r k l : ℕ) (n w dp dq : Node) (b1 b2 : List ℕ) (before after : List ℕ) (bs cs : List (List ℕ)) (b : List ℕ)
        → IsStrong (frame image) → IsReplacement (view image) from to name new_name cred now i r k l n w dp dq
        → MovesSlots image from.ino to.ino k l i new_name b1 b2 → Finishes (moved_slots image from.ino to.ino k l b1 b2) now from.ino to.ino r w before after bs cs b
        → IsFreed (w.nlink == 1) r (frame image) (frame (put_all (replacing_puts image from.ino to.ino k l r b1 b2 before after bs cs b) image)) }
{}

/// After a RENAME onto a name that stands the sets of what is free are exact once they are given the blocks of a node that ended, and its i-number if its
/// generation can go up.
pub fn the_sets_follow_a_replacement()
    ensures { (image : Image) (from to : FileId) (name new_name : List ℕ) (cred : Cred) (now i r k l : ℕ) (n w dp dq : Node) (puts : List (ℕ × List ℕ))
        → IsStrong (frame image) → IsReplacement (view image) from to name new_name cred now i r k l n w dp dq
        → IsPlanOf image ((Rename from name to new_name, cred) ∷ []) now puts → IsFreed (w.nlink == 1) r (frame image) (frame (put_all puts image))
        → (freed : List ℕ) → AreFreed (w.nlink == 1) (frame image) r freed → (blocks inodes : List Bool) → AreSetsOf image blocks inodes
        → AreSetsOf (put_all puts image) (given freed blocks) (number_given (frees_number (view image) r w) r inodes) }
{}

/// An accepted RENAME of what is no directory into an empty slot of another directory: the new slot's sector, the old slot's, then the inodes of the two
/// directories with their times, in either order. A crash leaves the files before the call, or both names, or the files after it, but for times. What is
/// free stays.
pub fn a_move_in_place_is_planned()
    ensures old_first { (image : Image) (from to : FileId) (name new_name : List ℕ) (cred : Cred) (now i k : ℕ) (n dp dq : Node) (b1 b2 b3 b4 : List ℕ)
        → IsStrong (frame image) → IsMoving (view image) from to name new_name cred now i k n dp dq → MovesInPlace image now from.ino to.ino k i new_name dq b1 b2 from.ino to.ino b3 b4
        → IsPlanOf image ((Rename from name to new_name, cred) ∷ []) now (moving_puts image from.ino to.ino k dq b1 b2 from.ino to.ino b3 b4)
        × ((blocks inodes : List Bool) → AreSetsOf image blocks inodes → AreSetsOf (put_all (moving_puts image from.ino to.ino k dq b1 b2 from.ino to.ino b3 b4) image) blocks inodes) }
    ensures new_first { (image : Image) (from to : FileId) (name new_name : List ℕ) (cred : Cred) (now i k : ℕ) (n dp dq : Node) (b1 b2 b3 b4 : List ℕ)
        → IsStrong (frame image) → IsMoving (view image) from to name new_name cred now i k n dp dq → MovesInPlace image now from.ino to.ino k i new_name dq b1 b2 to.ino from.ino b3 b4
        → IsPlanOf image ((Rename from name to new_name, cred) ∷ []) now (moving_puts image from.ino to.ino k dq b1 b2 to.ino from.ino b3 b4)
        × ((blocks inodes : List Bool) → AreSetsOf image blocks inodes → AreSetsOf (put_all (moving_puts image from.ino to.ino k dq b1 b2 to.ino from.ino b3 b4) image) blocks inodes) }
{}

/// An accepted RENAME of what is no directory whose new name makes another directory longer: the sector of the new slot and what else stands nowhere yet,
/// that directory's inode, which makes all of it appear, the old slot's sector, and the inode of the directory of the old name with its times. A crash
/// leaves the files before the call, or both names, or the files after it, but for times.
pub fn a_move_at_the_end_is_planned()
    ensures { (image : Image) (from to : FileId) (name new_name : List ℕ) (cred : Cred) (now i k : ℕ) (n dp dq : Node) (g : Inode) (b1 b2 b3 : List ℕ) (inner : List (ℕ × List ℕ))
        → IsStrong (frame image) → IsMoving (view image) from to name new_name cred now i k n dp dq → MovesAtEnd image now from.ino to.ino new_name dq k i g b1 b2 b3 inner
        → IsPlanOf image ((Rename from name to new_name, cred) ∷ []) now (inner ++ inode_put to.ino b1 ∷ (entry_sector (put_inode (put_all inner image) to.ino b1) from.ino k, b2) ∷ inode_put from.ino b3 ∷ []) }
{}

/// An accepted RENAME inside one directory to a name that is free, of a file or a directory: the slot's sector, with the new name, and the directory's
/// inode with its times. A crash leaves the files before the call, or those after it but for the directory's times. What is free stays.
pub fn a_new_name_is_planned()
    ensures planned { (image : Image) (from to : FileId) (name new_name : List ℕ) (cred : Cred) (now i k : ℕ) (n d : Node) (b1 b2 : List ℕ)
        → IsStrong (frame image) → IsNaming (view image) from to name new_name cred now i k n d → PutsName image now from.ino k i new_name b1 b2
        → IsPlanOf image ((Rename from name to new_name, cred) ∷ []) now (naming_puts image from.ino k b1 b2) }
    ensures sets { (image : Image) (from to : FileId) (name new_name : List ℕ) (cred : Cred) (now i k : ℕ) (n d : Node) (b1 b2 : List ℕ)
        → IsStrong (frame image) → IsNaming (view image) from to name new_name cred now i k n d → PutsName image now from.ino k i new_name b1 b2
        → (blocks inodes : List Bool) → AreSetsOf image blocks inodes → AreSetsOf (put_all (naming_puts image from.ino k b1 b2) image) blocks inodes }
{}
