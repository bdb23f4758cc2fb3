//! The names that a store was asked for.

ghost use Rattle.std.specs.Prelude.{◌≡◌, ◌++◌, [], ◌∷◌, OnOk, OnErr};

use edit_base::NoMemory;
use std::alloc::Global;
use std::marker::Model;

// A name, and whether reading began.
#[derive(Debug, Drop)]
pub(crate) struct AskedName {
    pub(crate) name: String,
    pub(crate) begun: bool,
}

// The names in the order in which they were asked for.
#[derive(Debug, Drop)]
pub(crate) struct AskedNames {
    names: Vec<AskedName>,
}

impl Model for AskedNames {
    ghost use Rattle.std.specs.Prelude.{List, map};
    ghost use Rattle.replay_io.specs.Outside.{Asked};

    ghost Value = { List Asked };

    ghost use Rattle.replay_io.specs.Stored.{asked_of};

    ghost view = { λ asked. map asked_of asked.names.items };
}

impl AskedNames {
    // No name yet. It takes no memory.
    pub(crate) fn new(alloc: Global) -> AskedNames
        ensures { result ≡ [] }
    {
        AskedNames {
            names: Vec::new(alloc),
        }
    }

    // Keeps one more name. Without memory for it nothing changes.
    pub(crate) fn keep(&mut self, name: &str, begun: bool) -> Result<(), NoMemory>
        ensures ok { OnOk result (self.new ≡ self.old ++ record { name = name.now; begun = begun } ∷ []) }
        ensures err { OnErr result (self.new ≡ self.old) }
    {
        let alloc = *self.names.allocator();
        let name = String::from_str(alloc, name)?;
        self.names.push(AskedName { name, begun })?;
        Ok(())
    }
}
