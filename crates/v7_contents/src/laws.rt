// What READLINK and READDIR answer.

ghost use Rattle.std.specs.Prelude.{◌≡◌, ℕ};
ghost use Rattle.files_model.specs.Step.{step};
ghost use Rattle.files_model.specs.declared.attributes.FileId.{FileId};
ghost use Rattle.files_model.specs.declared.credential.Cred.{Cred};
ghost use Rattle.files_model.specs.declared.call.Call.TheVariants.{Readdir, Readlink};
ghost use Rattle.stable.specs.Store.{Image};
ghost use Rattle.v7_map.specs.Frame.{frame};
ghost use Rattle.v7_map.specs.Weak.{IsStrong};
ghost use Rattle.v7_map.specs.View.{view};
ghost use Rattle.v7_contents.specs.Answers.{readdir_answer, readlink_answer};

/// What a READLINK answers, by the records: STALE, NXIO, or the bytes where the link's addresses say.
pub fn readlink_is_answered()
    ensures { (image : Image) (file : FileId) (cred : Cred) (now : ℕ)
        → IsStrong (frame image)
        → (step (view image) (Readlink file) cred now).0 ≡ readlink_answer image file }
{}

/// What a READDIR answers, by the records: STALE, a refusal, or the entries in the slots from the cookie's number on, as many as the count takes.
pub fn readdir_is_answered()
    ensures { (image : Image) (dir : FileId) (cookie count : ℕ) (cred : Cred) (now : ℕ)
        → IsStrong (frame image)
        → (step (view image) (Readdir dir cookie count) cred now).0 ≡ readdir_answer image dir cookie count cred }
{}
