//! The parts of a level that wait for a node.

ghost use Rattle.std.specs.Prelude.{◌≡◌, ◌++◌, ◌∷◌, [], map, IfOk, OnOk, OnErr};
ghost use Rattle.unixfs_build.specs.Views.{built};

use crate::block::BuiltPart;
use std::alloc::{AllocError, Global};
use std::marker::Model;

// The parts of a level that wait for a node.
#[derive(Drop)]
pub(crate) struct Level {
    parts: Vec<BuiltPart>,
}

impl Model for Level {
    ghost use Rattle.std.specs.Prelude.{List, map};
    ghost use Rattle.unixfs_build.specs.Blocks.{Built};
    ghost use Rattle.unixfs_build.specs.Views.{built};

    ghost Value = { List Built };

    ghost view = { λ level. map built level.parts.items };
}

impl Level {
    // Returns a level with one part.
    pub(crate) fn of(alloc: Global, part: &BuiltPart) -> Result<Level, AllocError>
        ensures { IfOk result (λ level. level ≡ built part.now ∷ []) }
    {
        let mut parts = Vec::new(alloc);
        parts.push(*part)?;
        Ok(Level { parts })
    }

    // Returns the parts.
    pub(crate) fn parts(&self) -> &[BuiltPart]
        ensures { map built result.now ≡ self.now }
    {
        &self.parts
    }

    // Appends a part.
    pub(crate) fn push(&mut self, part: &BuiltPart) -> Result<(), AllocError>
        ensures pushed { OnOk result (self.new ≡ self.old ++ built part.now ∷ []) }
        ensures stays { OnErr result (self.new ≡ self.old) }
    {
        self.parts.push(*part)?;
        Ok(())
    }

    // Removes all parts.
    pub(crate) fn clear(&mut self)
        ensures { self.new ≡ [] }
    {
        self.parts.clear();
    }
}
