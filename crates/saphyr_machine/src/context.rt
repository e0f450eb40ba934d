//! Which block collections a node may be, by its place (YAML 1.2.2, 8.2.3).

ghost use Rattle.std.specs.Prelude.{◌≡◌};

/// The place of a node.
#[derive(Clone, Copy)]
pub enum NodeContext {
    /// Inside a flow collection, which contains no block collection.
    Flow,
    Block,
    /// A key or a value of a block mapping. It may be a block sequence at the mapping's own column.
    BlockMapping,
}

impl NodeContext {
    ghost use Rattle.saphyr_machine.specs.Steps.Contexts as spec;

    pub fn allows_block(self) -> bool
        ensures { result ≡ spec.allows_block self }
    {
        match self {
            NodeContext::Flow => false,
            NodeContext::Block | NodeContext::BlockMapping => true,
        }
    }

    /// Whether a block sequence may be at the column of the mapping around it.
    pub fn allows_indentless(self) -> bool
        ensures { result ≡ spec.allows_indentless self }
    {
        match self {
            NodeContext::Flow | NodeContext::Block => false,
            NodeContext::BlockMapping => true,
        }
    }
}
