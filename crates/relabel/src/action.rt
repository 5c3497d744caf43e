//! The actions of rules, and their names.
ghost use Rattle.std.specs.Prelude.{◌≡◌};
ghost use Rattle.relabel.specs.Spelling.{action_named as action_of, names_its_target as names_target, needs_target as needs, is_hash_mod};

/// What a rule does.
#[derive(Clone, Copy, PartialEq, Eq)]
pub enum Action {
    /// Gives a label a text, where the pattern matches.
    Replace,
    /// Drops a target where the pattern does not match.
    Keep,
    /// Drops a target where the pattern matches.
    Drop,
    /// Drops a target where the input differs from a label.
    KeepEqual,
    /// Drops a target where the input equals a label.
    DropEqual,
    /// Gives a label the digest of the input, modulo a number.
    HashMod,
    /// Copies the labels whose names match to other names.
    LabelMap,
    /// Removes the labels whose names match.
    LabelDrop,
    /// Removes the labels whose names do not match.
    LabelKeep,
}

/// The action of a name, in any case of ASCII.
#[tactic(auto, unfolding(crate::specs::Spelling::action_named))]
pub(crate) fn action_named(name: &str) -> Option<Action>
    ensures { result ≡ action_of name.now }
{
    if name.eq_ignore_ascii_case("replace") {
        Some(Action::Replace)
    } else if name.eq_ignore_ascii_case("keep") {
        Some(Action::Keep)
    } else if name.eq_ignore_ascii_case("drop") {
        Some(Action::Drop)
    } else if name.eq_ignore_ascii_case("keepequal") {
        Some(Action::KeepEqual)
    } else if name.eq_ignore_ascii_case("dropequal") {
        Some(Action::DropEqual)
    } else if name.eq_ignore_ascii_case("hashmod") {
        Some(Action::HashMod)
    } else if name.eq_ignore_ascii_case("labelmap") {
        Some(Action::LabelMap)
    } else if name.eq_ignore_ascii_case("labeldrop") {
        Some(Action::LabelDrop)
    } else if name.eq_ignore_ascii_case("labelkeep") {
        Some(Action::LabelKeep)
    } else {
        None
    }
}

impl Action {
    /// Whether the target label is a label name, and no template.
    pub(crate) fn names_its_target(self) -> bool
        ensures { result ≡ names_target self }
    {
        matches!(
            self,
            Action::KeepEqual | Action::DropEqual | Action::HashMod
        )
    }

    pub(crate) fn needs_target(self) -> bool
        ensures { result ≡ needs self }
    {
        matches!(
            self,
            Action::Replace | Action::KeepEqual | Action::DropEqual | Action::HashMod
        )
    }

    pub(crate) fn is_hash_mod(self) -> bool
        ensures { result ≡ is_hash_mod self }
    {
        matches!(self, Action::HashMod)
    }
}
