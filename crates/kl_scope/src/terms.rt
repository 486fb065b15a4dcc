//! Nodes and depth of core terms.
#![tactic(auto, unfolding(crate::specs::Caps::capped, crate::specs::Sizes::beside, crate::specs::Sizes::node))]

ghost use Rattle.std.specs.Prelude.{◌≡◌};
ghost use Rattle.kl_scope.specs.Caps.{capped};
ghost use Rattle.kl_scope.specs.Sizes as size;

/// How many nodes terms have, and how deep the deepest is. What passes 32 bits stays at the largest number.
#[derive(Clone, Copy)]
pub struct Size {
    pub nodes: u32,
    pub depth: u32,
}

/// No term.
pub const NO_PARTS: Size = Size { nodes: 0, depth: 0 };

/// A term without parts.
pub const LEAF: Size = Size { nodes: 1, depth: 1 };

impl Size {
    /// Of these terms and others.
    pub fn beside(self, other: Size) -> Size
        ensures { result ≡ capped (size.beside self other) }
    {
        Size {
            nodes: self.nodes.saturating_add(other.nodes),
            depth: self.depth.max(other.depth),
        }
    }

    /// Of a term whose parts these are.
    pub fn node(self) -> Size
        ensures { result ≡ capped (size.node self) }
    {
        Size {
            nodes: self.nodes.saturating_add(1),
            depth: self.depth.saturating_add(1),
        }
    }

    /// The same, which fits.
    pub fn kept(self) -> Size
        ensures { result ≡ capped self }
    {
        self
    }
}
