// What the free blocks of an image have to do with its files.

ghost use Rattle.std.specs.Prelude.{◌≡◌, List, Bool};
ghost use Rattle.index_sets.specs.Free.{count_free};
ghost use Rattle.files_model.specs.Space.{free};
ghost use Rattle.stable.specs.Store.{Image};
ghost use Rattle.v7_map.specs.Frame.{frame};
ghost use Rattle.v7_map.specs.View.{view};
ghost use Rattle.v7_map.specs.Weak.{IsStrong};
ghost use Rattle.v7_sets.specs.Sets.{AreSetsOf};

/// Where there is nothing to mend, the free blocks are as many as the files leave.
pub fn free_blocks_are_counted()
    ensures { (image : Image) (blocks inodes : List Bool)
        → IsStrong (frame image) → AreSetsOf image blocks inodes
        → count_free blocks ≡ free (view image) }
{}
