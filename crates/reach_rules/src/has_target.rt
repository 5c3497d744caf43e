//! What has a final target, as a target itself and whatever is kept beside one.
ghost use Rattle.std.specs.Prelude.{◌≡◌};

use label_sets::Target;

/// What has a final target.
pub trait HasTarget {
    ghost use Rattle.label_sets.specs.Target.{FinalTarget};

    /// The target that it has.
    ghost final_target: { Self → FinalTarget };

    /// The target.
    fn target(&self) -> &Target
        ensures { result.now ≡ final_target self.now };
}

impl HasTarget for Target {
    ghost final_target = { λ target. target };

    fn target(&self) -> &Target {
        self
    }
}
