//! The tags of events (YAML 1.2.2, 3.2.1.2).

ghost use Rattle.std.specs.Prelude.{◌≡◌, ◌↔◌, IfOk, IsTrue, codes};
ghost use Rattle.saphyr_machine.specs.Views.Events.{resolved_tag};

use std::alloc::AllocError;
use std::fmt;

/// A node's tag. The handle is the prefix that the written handle means. It is empty for `!` and `!<uri>`.
///
/// Tags are ordered by the bytes of their handles, and if these are equal by those of the suffixes.
#[derive(Debug, PartialEq, Eq, PartialOrd, Ord, Hash, Drop)]
pub struct Tag {
    pub handle: String,
    pub suffix: String,
}

impl Tag {
    /// Whether the tag's prefix is that of YAML's own tags. `!!str` and `!!int` have it unless a directive
    /// declares `!!` otherwise. The suffix doesn't matter.
    #[must_use]
    pub fn is_yaml_core_schema(&self) -> bool
        ensures { IsTrue result ↔ (resolved_tag self.now).handle ≡ codes "tag:yaml.org,2002:" }
    {
        self.handle.as_str() == "tag:yaml.org,2002:"
    }

    /// An equal tag, unless memory runs out.
    pub fn try_clone(&self) -> Result<Tag, AllocError>
        ensures { IfOk result (λ tag. resolved_tag tag ≡ resolved_tag self.now) }
    {
        Ok(Tag {
            handle: self.handle.clone()?,
            suffix: self.suffix.clone()?,
        })
    }
}

impl fmt::Display for Tag {
    ghost use Rattle.std.specs.Prelude.{Some};
    ghost use Rattle.saphyr_machine.specs.Views.Events.{displayed_tag};

    ghost output = { λ tag. Some (displayed_tag (resolved_tag tag)) };

    fn fmt<W: fmt::Write>(&self, f: &mut fmt::Formatter<W>) -> fmt::Result {
        if self.handle.as_str() == "!" {
            write!(f, "!{}", self.suffix)
        } else {
            write!(f, "{}!{}", self.handle, self.suffix)
        }
    }
}
