// What plans of new directories leave of an image.

ghost use Rattle.std.specs.Prelude.{◌≡◌, ℕ, Bool, false, List, [], ◌∷◌, ◌++◌, set};
ghost use Rattle.files_model.specs.Files.{Node};
ghost use Rattle.files_model.specs.NameRows.{new_directory};
ghost use Rattle.files_model.specs.declared.attributes.FileId.{FileId};
ghost use Rattle.files_model.specs.declared.attributes.Sattr.{Sattr};
ghost use Rattle.files_model.specs.declared.call.Call.TheVariants.{Mkdir};
ghost use Rattle.files_model.specs.declared.credential.Cred.{Cred};
ghost use Rattle.name_plans.specs.CreatingPuts.{in_place_puts};
ghost use Rattle.name_plans.specs.MakingDirectory.{EntersAtEnd, EntersInPlace, IsMkdir, PutsDots};
ghost use Rattle.stable.specs.Puts.{put_all};
ghost use Rattle.stable.specs.Store.{Image};
ghost use Rattle.v7_layout.specs.declared.inode.Inode.{Inode};
ghost use Rattle.v7_map.specs.Frame.{frame};
ghost use Rattle.v7_map.specs.Plans.{IsPlanOf};
ghost use Rattle.v7_map.specs.View.{view};
ghost use Rattle.v7_map.specs.Weak.{IsStrong};
ghost use Rattle.v7_sets.specs.Sets.{AreSetsOf};
ghost use Rattle.v7_strokes.specs.Entries.{inode_put};

/// An accepted MKDIR (RFC 1094 2.2.15) whose name takes an empty slot: the new directory's sector, its inode, the slot's sector, and the parent's inode
/// with one link more and its times. A crash leaves the files before the call but for the generation of the new i-number, or those after it but for the
/// parent's times. The sets of what is free stay exact once the block and the i-number are taken.
pub fn a_new_directory_in_place_is_planned()
    ensures planned { (image : Image) (dir : FileId) (name : List ℕ) (wanted : Sattr) (cred : Cred) (now : ℕ) (d : Node) (i a : ℕ) (b0 b1 b2 b3 : List ℕ)
        → IsStrong (frame image) → IsMkdir (view image) dir name wanted cred now d i → PutsDots image dir.ino i (new_directory wanted cred i dir.ino now) a b0 b1 → EntersInPlace (set image a b0) now dir.ino name d i b1 b2 b3
        → IsPlanOf image ((Mkdir dir name wanted, cred) ∷ []) now ((a, b0) ∷ in_place_puts (set image a b0) dir.ino d i b1 b2 b3) }
    ensures sets { (image : Image) (dir : FileId) (name : List ℕ) (wanted : Sattr) (cred : Cred) (now : ℕ) (d : Node) (i a : ℕ) (b0 b1 b2 b3 : List ℕ)
        → IsStrong (frame image) → IsMkdir (view image) dir name wanted cred now d i → PutsDots image dir.ino i (new_directory wanted cred i dir.ino now) a b0 b1 → EntersInPlace (set image a b0) now dir.ino name d i b1 b2 b3
        → (blocks inodes : List Bool) → AreSetsOf image blocks inodes → AreSetsOf (put_all ((a, b0) ∷ in_place_puts (set image a b0) dir.ino d i b1 b2 b3) image) (set blocks a false) (set inodes i false) }
{}

/// An accepted MKDIR whose name makes the parent longer: the new directory's sector, its inode, the sector of the new slot and what else stands nowhere
/// yet, and the parent's inode, which makes all of it appear. A crash leaves the files before the call but for the generation of the new i-number, or
/// those after it.
pub fn a_new_directory_at_the_end_is_planned()
    ensures { (image : Image) (dir : FileId) (name : List ℕ) (wanted : Sattr) (cred : Cred) (now : ℕ) (d : Node) (i a : ℕ) (g : Inode) (b0 b1 b3 : List ℕ) (inner : List (ℕ × List ℕ))
        → IsStrong (frame image) → IsMkdir (view image) dir name wanted cred now d i → PutsDots image dir.ino i (new_directory wanted cred i dir.ino now) a b0 b1 → EntersAtEnd (set image a b0) now dir.ino name d i g b1 b3 inner
        → IsPlanOf image ((Mkdir dir name wanted, cred) ∷ []) now ((a, b0) ∷ inode_put i b1 ∷ (inner ++ inode_put dir.ino b3 ∷ [])) }
{}
