//! What takes a text in pieces.
ghost use Rattle.std.specs.Prelude.{ℕ, List, ◌++◌, OnOk};

use std::io;

/// What takes a text in pieces, one after the other.
pub trait Pieces {
    /// How it grew, from one state to another, by a text.
    ghost grows: { Self → Self → List ℕ → Type 0 };

    /// Takes the piece that comes next.
    fn write_piece(&mut self, piece: &[u8]) -> io::Result<()>
        ensures { OnOk result (grows self.old self.new piece.now) };

    /// What grew by one text and then by another grew by both.
    ghost joins: { (a b c : Self) (s t : List ℕ) → grows a b s → grows b c t → grows a c (s ++ t) };
}
