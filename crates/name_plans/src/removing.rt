// What plans of removals leave of an image.

ghost use Rattle.std.specs.Prelude.{◌≡◌, ℕ, Bool, List, [], ◌∷◌, ◌==◌};
ghost use Rattle.files_model.specs.Files.{Node};
ghost use Rattle.files_model.specs.declared.attributes.FileId.{FileId};
ghost use Rattle.files_model.specs.declared.call.Call.TheVariants.{Remove};
ghost use Rattle.files_model.specs.declared.credential.Cred.{Cred};
ghost use Rattle.name_plans.specs.Removed.{AreFreed, frees_number, number_given};
ghost use Rattle.name_plans.specs.Removing.{IsRemoval, TakesName, removing_puts};
ghost use Rattle.stable.specs.Puts.{put_all};
ghost use Rattle.stable.specs.Store.{Image};
ghost use Rattle.v7_map.specs.Frame.{frame};
ghost use Rattle.v7_map.specs.Plans.{IsPlanOf};
ghost use Rattle.v7_map.specs.View.{view};
ghost use Rattle.v7_map.specs.Weak.{IsStrong};
ghost use Rattle.v7_sets.specs.Given.{given};
ghost use Rattle.v7_sets.specs.Sets.{AreSetsOf};
ghost use Rattle.v7_strokes.specs.Freed.{IsFreed};

/// An accepted REMOVE (RFC 1094 2.2.11): the slot's sector, then the inode of the directory with its times, and that of the node, which ends with its
/// last name, in either order. A crash leaves the files before the call or those after it, but for times. Afterwards each block stands where it stood,
/// but those of a node that ended stand nowhere.
pub fn a_removal_is_planned()
    ensures planned { (image : Image) (dir : FileId) (name : List ℕ) (cred : Cred) (now : ℕ) (d : Node) (k i : ℕ) (n : Node) (before after : List ℕ) (b1 : List ℕ) (bs cs : List (List ℕ)) (b : List ℕ)
        → IsStrong (frame image) → IsRemoval (view image) dir name cred d k i n → TakesName image now dir.ino k i n before after b1 bs cs b
        → IsPlanOf image ((Remove dir name, cred) ∷ []) now (removing_puts image dir.ino k i before after b1 bs cs b) }
    ensures freed { (image : Image) (dir : FileId) (name : List ℕ) (cred : Cred) (now : ℕ) (d : Node) (k i : ℕ) (n : Node) (before after : List ℕ) (b1 : List ℕ) (bs cs : List (List ℕ)) (b : List ℕ)
        → IsStrong (frame image) → IsRemoval (view image) dir name cred d k i n → TakesName image now dir.ino k i n before after b1 bs cs b
        → IsFreed (n.nlink == 1) i (frame image) (frame (put_all (removing_puts image dir.ino k i before after b1 bs cs b) image)) }
{}

/// After a REMOVE the sets of what is free are exact once they are given the blocks of a node that ended, and its i-number if its generation can go up.
pub fn the_sets_follow_a_removal()
    ensures { (image : Image) (dir : FileId) (name : List ℕ) (cred : Cred) (now : ℕ) (d : Node) (k i : ℕ) (n : Node) (before after : List ℕ) (b1 : List ℕ) (bs cs : List (List ℕ)) (b : List ℕ)
        → IsStrong (frame image) → IsRemoval (view image) dir name cred d k i n → TakesName image now dir.ino k i n before after b1 bs cs b
        → (freed : List ℕ) → AreFreed (n.nlink == 1) (frame image) i freed → (blocks inodes : List Bool) → AreSetsOf image blocks inodes
        → AreSetsOf (put_all (removing_puts image dir.ino k i before after b1 bs cs b) image) (given freed blocks) (number_given (frees_number (view image) i n) i inodes) }
{}
