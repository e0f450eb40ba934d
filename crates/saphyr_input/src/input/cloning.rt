//! Inputs that can be copied in the middle of a text.
ghost use Rattle.std.specs.Prelude.{◌≡◌};

use crate::input::Input;
use crate::input::buffered::{BufferedInput, FaithfulClone};
use crate::input::str::StrInput;

/// An input whose clones have the same characters left, and as many places loaded.
///
/// [`Clone`] alone doesn't say so: each type says for itself what a clone is. An input of your own that
/// is `Clone` needs an `impl` with a proof of this law, and no code.
pub trait CloneInput: Input + Clone {
    /// A clone has the characters and the loaded places of its source.
    ghost faithful: { (s t : Self) → Self.is_clone s t
        → (Self.rest t ≡ Self.rest s) × (Self.loaded t ≡ Self.loaded s) };
}

impl CloneInput for StrInput<'_> {
    ghost use Rattle.std.proofs.Common.{ap};
    ghost use Rattle.std.specs.Str.{chars};

    ghost faithful = { λ _ _ same. (ap (λ i. chars i.rest.now) same, ap (λ i. i.loaded) same) };
}

impl<I: FaithfulClone> CloneInput for BufferedInput<I> {
    ghost faithful = { λ _ _ same. same };
}
