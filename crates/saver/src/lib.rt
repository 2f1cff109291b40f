// The file of a house and its memory, piece by piece.
#![tactic(auto)]

ghost use Rattle.std.specs.Prelude.{◌≡◌};

pub mod head;
pub mod piece;
