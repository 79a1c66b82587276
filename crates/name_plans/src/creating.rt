// What plans of creations leave of an image.

ghost use Rattle.std.specs.Prelude.{◌≡◌, ◌≢◌, ℕ, Bool, false, set, List, [], ◌∷◌, ◌++◌, Some};
ghost use Rattle.files_model.specs.Files.{Node};
ghost use Rattle.files_model.specs.Names.{handle_of, new_file, size_alone};
ghost use Rattle.files_model.specs.Step.{step};
ghost use Rattle.files_model.specs.Torn.{Asked};
ghost use Rattle.files_model.specs.declared.attributes.FileId.{FileId};
ghost use Rattle.files_model.specs.declared.attributes.Sattr.{Sattr};
ghost use Rattle.files_model.specs.declared.call.Call.TheVariants.{Create, Setattr};
ghost use Rattle.files_model.specs.declared.credential.Cred.{Cred};
ghost use Rattle.name_plans.specs.CreatingPuts.{MakesInPlace, MakesAtEnd, MakesLonger, longer_image, longer_puts, in_place_puts};
ghost use Rattle.name_plans.specs.Making.{IsCreation, IsMaking};
ghost use Rattle.name_plans.specs.Standing.{StandsAlready, with_handle};
ghost use Rattle.name_plans.specs.Taken.{taken, AreNewBlocks, HasNoBlocks};
ghost use Rattle.stable.specs.Puts.{put_all};
ghost use Rattle.stable.specs.Store.{Image};
ghost use Rattle.v7_layout.specs.declared.inode.Inode.{Inode};
ghost use Rattle.v7_map.specs.Frame.{Place, frame};
ghost use Rattle.v7_map.specs.Plans.{IsPlanOf};
ghost use Rattle.v7_map.specs.View.{view};
ghost use Rattle.v7_map.specs.Weak.{IsStrong};
ghost use Rattle.v7_plans.specs.Setting.{put_inode};
ghost use Rattle.v7_sets.specs.Sets.{AreSetsOf};
ghost use Rattle.v7_strokes.specs.Entries.{inode_put};

/// An accepted CREATE of a name that is free makes a new file (RFC 1094 2.2.10).
pub fn an_accepted_create_makes_a_file()
    ensures { (image : Image) (dir : FileId) (name : List ℕ) (wanted : Sattr) (cred : Cred) (now : ℕ) (d : Node) (i : ℕ) → IsStrong (frame image) → IsCreation (view image) dir name wanted cred now d i
        → IsMaking (view image) (Create dir name wanted, cred) now dir.ino name d i (new_file wanted cred now) }
{}

/// A new file whose entry takes an empty slot: its inode, the slot's sector, and the directory's inode with its times. A crash leaves the files before
/// the call but for the generation of the new i-number, or those after it but for the directory's times.
pub fn a_creation_in_place_is_planned()
    ensures { (image : Image) (asked : Asked) (now p : ℕ) (name : List ℕ) (d : Node) (i : ℕ) (m : Node) (n : Inode) (b1 b2 b3 : List ℕ) → IsStrong (frame image) → MakesInPlace image asked now p name d i m n b1 b2 b3
        → IsPlanOf image (asked ∷ []) now (in_place_puts image p d i b1 b2 b3) }
{}

/// A new file whose entry makes its directory longer: its inode, the sector of the new slot and what else stands nowhere yet, and the directory's inode,
/// which makes all of it appear. A crash leaves the files before the call but for the generation of the new i-number, or those after it.
pub fn a_creation_at_the_end_is_planned()
    ensures { (image : Image) (asked : Asked) (now p : ℕ) (name : List ℕ) (d : Node) (i : ℕ) (m : Node) (n g : Inode) (b1 b3 : List ℕ) (inner : List (ℕ × List ℕ)) → IsStrong (frame image) → MakesAtEnd image asked now p name d i m n g b1 b3 inner
        → IsPlanOf image (asked ∷ []) now (inode_put i b1 ∷ (inner ++ inode_put p b3 ∷ [])) }
{}

/// A new file whose entry makes its directory longer, by the blocks where the directory's are to stand: its inode, the new slot's sector, in the last
/// one or in a new block, the block of addresses if it changes, and the directory's inode. Afterwards the directory's blocks stand there, and all
/// others where they stood after the first put.
pub fn a_creation_with_new_blocks_is_planned()
    ensures planned { (image : Image) (asked : Asked) (now p : ℕ) (name : List ℕ) (d : Node) (i : ℕ) (m : Node) (n : Inode) (target : Place → ℕ) (b1 b2 : List ℕ) (maps : List (ℕ × List ℕ)) (direct : List ℕ) (single : ℕ) (b3 : List ℕ)
        → IsStrong (frame image) → MakesLonger image asked now p name d i m n target b1 b2 maps direct single b3
        → IsPlanOf image (asked ∷ []) now (longer_puts p d i target b1 b2 maps b3) }
    ensures own_blocks { (image : Image) (asked : Asked) (now p : ℕ) (name : List ℕ) (d : Node) (i : ℕ) (m : Node) (n : Inode) (target : Place → ℕ) (b1 b2 : List ℕ) (maps : List (ℕ × List ℕ)) (direct : List ℕ) (single : ℕ) (b3 : List ℕ)
        → IsStrong (frame image) → MakesLonger image asked now p name d i m n target b1 b2 maps direct single b3
        → (r : Place) → (frame (put_inode (longer_image image d i target b1 b2 maps) p b3)).address p r ≡ target r }
    ensures other_blocks { (image : Image) (asked : Asked) (now p : ℕ) (name : List ℕ) (d : Node) (i : ℕ) (m : Node) (n : Inode) (target : Place → ℕ) (b1 b2 : List ℕ) (maps : List (ℕ × List ℕ)) (direct : List ℕ) (single : ℕ) (b3 : List ℕ)
        → IsStrong (frame image) → MakesLonger image asked now p name d i m n target b1 b2 maps direct single b3
        → (j : ℕ) → j ≢ p → (r : Place) → (frame (put_inode (longer_image image d i target b1 b2 maps) p b3)).address j r ≡ (frame (put_inode image i b1)).address j r }
{}

/// After a creation of a file without blocks the sets of what is free stay exact once its i-number is taken, and with it the new blocks of its
/// directory.
pub fn the_sets_follow_a_creation()
    ensures in_place { (image : Image) (asked : Asked) (now p : ℕ) (name : List ℕ) (d : Node) (i : ℕ) (m : Node) (n : Inode) (b1 b2 b3 : List ℕ) → IsStrong (frame image) → MakesInPlace image asked now p name d i m n b1 b2 b3 → HasNoBlocks image n
        → (blocks inodes : List Bool) → AreSetsOf image blocks inodes → AreSetsOf (put_all (in_place_puts image p d i b1 b2 b3) image) blocks (set inodes i false) }
    ensures longer { (image : Image) (asked : Asked) (now p : ℕ) (name : List ℕ) (d : Node) (i : ℕ) (m : Node) (n : Inode) (target : Place → ℕ) (b1 b2 : List ℕ) (maps : List (ℕ × List ℕ)) (direct : List ℕ) (single : ℕ) (b3 : List ℕ)
        → IsStrong (frame image) → MakesLonger image asked now p name d i m n target b1 b2 maps direct single b3 → HasNoBlocks image n → (new : List ℕ) → AreNewBlocks (frame (put_inode image i b1)) p target new
        → (blocks inodes : List Bool) → AreSetsOf image blocks inodes → AreSetsOf (put_all (longer_puts p d i target b1 b2 maps b3) image) (taken new blocks) (set inodes i false) }
{}

/// A CREATE with a set size, of a name that a regular file has, is a SETATTR of that size alone: the same refusals, the same files, the same plan. Its
/// answer has the file's handle.
pub fn a_create_of_a_standing_file_sets_its_size()
    ensures step { (image : Image) (dir : FileId) (name : List ℕ) (wanted : Sattr) (cred : Cred) (now : ℕ) (d : Node) (k i : ℕ) (n : Node) (size : ℕ) → IsStrong (frame image) → StandsAlready (view image) dir name wanted d k i n → wanted.size ≡ Some size
        → step (view image) (Create dir name wanted) cred now ≡ (with_handle (handle_of (view image) i) (step (view image) (Setattr (handle_of (view image) i) (size_alone size)) cred now).0, (step (view image) (Setattr (handle_of (view image) i) (size_alone size)) cred now).1) }
    ensures plan { (image : Image) (dir : FileId) (name : List ℕ) (wanted : Sattr) (cred : Cred) (now : ℕ) (d : Node) (k i : ℕ) (n : Node) (size : ℕ) → IsStrong (frame image) → StandsAlready (view image) dir name wanted d k i n → wanted.size ≡ Some size
        → (puts : List (ℕ × List ℕ)) → IsPlanOf image ((Setattr (handle_of (view image) i) (size_alone size), cred) ∷ []) now puts → IsPlanOf image ((Create dir name wanted, cred) ∷ []) now puts }
{}
