//! How many nodes anchored nodes have once they are expanded.
ghost use Rattle.std.specs.Prelude.{◌≡◌, ℕ, OnOk};
ghost use Rattle.yaml_tree.specs.Expanding.{most, with_size};
ghost use Rattle.yaml_tree.specs.SizesSeen.{size_in};

use std::alloc::{AllocError, Global};
use std::collections::BTreeMap;
use std::marker::Model;

/// How many nodes the node of each anchor has, once it has ended. Before that, `u64::MAX`.
#[derive(Drop)]
pub(crate) struct SizeMap {
    map: BTreeMap<usize, u64>,
}

impl Model for SizeMap {
    ghost use Rattle.std.specs.Prelude.{ℕ, List};

    ghost Value = { List (ℕ × ℕ) };

    ghost view = { λ s. s.map.entries };
}

impl SizeMap {
    pub(crate) fn new(alloc: Global) -> SizeMap
        ensures { (id : ℕ) → size_in result id ≡ most }
    {
        SizeMap {
            map: BTreeMap::new(alloc),
        }
    }

    // The node of an anchor has ended. 0 is no anchor.
    #[inline(always)]
    pub(crate) fn put(&mut self, id: usize, nodes: u64) -> Result<(), AllocError>
        ensures { OnOk result ((other : ℕ)
            → size_in self.new other ≡ with_size id nodes (size_in self.old) other) }
    {
        if id > 0 {
            self.map.insert(id, nodes)?;
        }
        Ok(())
    }

    pub(crate) fn of(&self, id: usize) -> u64
        ensures { result ≡ size_in self.now id }
    {
        match self.map.get(&id) {
            Some(nodes) => *nodes,
            None => u64::MAX,
        }
    }
}
