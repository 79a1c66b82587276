// What plans of removals of directories leave of an image.

ghost use Rattle.std.specs.Prelude.{◌≡◌, ℕ, Bool, true, List, [], ◌∷◌, nat_lt};
ghost use Rattle.std.specs.Option.{unwrap_or};
ghost use Rattle.std.specs.FinMap.{get};
ghost use Rattle.files_model.specs.Files.{Node};
ghost use Rattle.files_model.specs.declared.attributes.FileId.{FileId};
ghost use Rattle.files_model.specs.declared.call.Call.TheVariants.{Rmdir};
ghost use Rattle.files_model.specs.declared.credential.Cred.{Cred};
ghost use Rattle.name_plans.specs.Removed.{AreFreed, number_given};
ghost use Rattle.name_plans.specs.RemovingDirectory.{IsRmdir, TakesFromParent, TakesOwnFirst, taking_puts};
ghost use Rattle.stable.specs.Puts.{put_all};
ghost use Rattle.stable.specs.Store.{Image};
ghost use Rattle.v7_map.specs.Frame.{frame};
ghost use Rattle.v7_map.specs.Plans.{IsPlanOf};
ghost use Rattle.v7_map.specs.View.{view};
ghost use Rattle.v7_map.specs.Weak.{IsStrong};
ghost use Rattle.v7_sets.specs.Given.{given};
ghost use Rattle.v7_sets.specs.Sets.{AreSetsOf};
ghost use Rattle.v7_strokes.specs.Freed.{IsFreed};

/// An accepted RMDIR (RFC 1094 2.2.16): the slot's sector, then the inode of the parent, with one link less and its times, and that of the directory,
/// which ends, in either order. A crash leaves the files before the call or those after it, but for times. Afterwards each block stands where it stood,
/// but those of the directory stand nowhere.
pub fn a_removal_of_a_directory_is_planned()
    ensures parent_first { (image : Image) (dir : FileId) (name : List ℕ) (cred : Cred) (now : ℕ) (d : Node) (k i : ℕ) (n : Node) (b1 b2 b3 : List ℕ)
        → IsStrong (frame image) → IsRmdir (view image) dir name cred d k i n → TakesFromParent image now dir.ino k i b1 b2 b3
        → IsPlanOf image ((Rmdir dir name, cred) ∷ []) now (taking_puts image dir.ino k dir.ino i b1 b2 b3) × IsFreed true i (frame image) (frame (put_all (taking_puts image dir.ino k dir.ino i b1 b2 b3) image)) }
    ensures own_first { (image : Image) (dir : FileId) (name : List ℕ) (cred : Cred) (now : ℕ) (d : Node) (k i : ℕ) (n : Node) (b1 b2 b3 : List ℕ)
        → IsStrong (frame image) → IsRmdir (view image) dir name cred d k i n → TakesOwnFirst image now dir.ino k i b1 b2 b3
        → IsPlanOf image ((Rmdir dir name, cred) ∷ []) now (taking_puts image dir.ino k i dir.ino b1 b2 b3) × IsFreed true i (frame image) (frame (put_all (taking_puts image dir.ino k i dir.ino b1 b2 b3) image)) }
{}

/// After an RMDIR the sets of what is free are exact once they are given the blocks of the directory, and its i-number if its generation can go up.
pub fn the_sets_follow_a_removal_of_a_directory()
    ensures { (image : Image) (dir : FileId) (name : List ℕ) (cred : Cred) (now : ℕ) (d : Node) (k i : ℕ) (n : Node) (puts : List (ℕ × List ℕ))
        → IsStrong (frame image) → IsRmdir (view image) dir name cred d k i n → IsPlanOf image ((Rmdir dir name, cred) ∷ []) now puts → IsFreed true i (frame image) (frame (put_all puts image))
        → (freed : List ℕ) → AreFreed true (frame image) i freed → (blocks inodes : List Bool) → AreSetsOf image blocks inodes
        → AreSetsOf (put_all puts image) (given freed blocks) (number_given (nat_lt (unwrap_or (get (view image).generations i) 0) 4294967295) i inodes) }
{}
