ghost use Rattle.std.specs.Prelude.{◌≡◌, IfOk};

use rig::NoMemory;
use std::alloc::Global;
use std::marker::Model;

/// A line that was said, seen as a list of bytes.
#[derive(Drop)]
pub struct Line {
    kept: String,
}

impl Model for Line {
    ghost use Rattle.std.specs.Prelude.{List, ℕ, string_bytes};

    ghost Value = { List ℕ };

    ghost view = { λ l. string_bytes l.kept };
}

impl Line {
    pub(super) fn copy(alloc: Global, text: &str) -> Result<Line, NoMemory>
        ensures { IfOk result (λ line. line ≡ text.now) }
    {
        Ok(Line {
            kept: String::from_str(alloc, text)?,
        })
    }

    /// The line, without a line end.
    pub fn text(&self) -> &str
        ensures { result.now ≡ self.now }
    {
        self.kept.as_str()
    }
}
