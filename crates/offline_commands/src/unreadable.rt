//! Inputs that a command cannot read.
ghost use Rattle.std.specs.Prelude.{◌≡◌};
ghost use Rattle.offline_commands.specs.Unreadable.{unreadable_line};

/// Why an input is not read.
#[derive(Clone, Copy, Debug, PartialEq, Eq)]
pub enum Unreadable {
    /// It is longer than the most bytes that a program takes.
    TooLong,
    /// It is no JSON.
    NotJson,
    /// It is JSON of another shape.
    Shape,
}

impl Unreadable {
    /// The line on an input that is not read.
    pub fn line(&self) -> &'static str
        ensures { result.now ≡ unreadable_line self.now }
    {
        match self {
            Unreadable::TooLong => "unreadable TooLong\n",
            Unreadable::NotJson => "unreadable NotJson\n",
            Unreadable::Shape => "unreadable Shape\n",
        }
    }
}
