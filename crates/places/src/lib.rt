// Where each command has its place.
//
// Paper 01: "While recording only R, V, C, A, B, LO, LE, LW, X, GG and FE have a place; otherwise all but V, C and FE"; paper 02, §8: "LS may be
// recorded", and §10: "TD and TT may be recorded", "TS has no place while recording". A command elsewhere is 9. `places_of` (specs/Places.antt) is the
// one list that says so; the rows of a command, recorded or run, ask it. `has_place` promises one equation with it.
#![tactic(auto)]

ghost use Rattle.std.specs.Prelude.{◌≡◌};
ghost use Rattle.places.specs.Places.{places_of};

use grammar::Command;
use recording::is_declaration;

// Whether a command has a place while no form is recorded.
pub fn has_place(command: Command) -> bool
    ensures { result ≡ (places_of command).otherwise }
{
    match command {
        Command::Item(item) => !is_declaration(item),
        Command::End => false,
        Command::Page(_) => true,
        Command::Forms(_) => true,
        Command::Pictures(_) => true,
        Command::Values(_) => true,
        Command::Listing(_) => true,
        Command::Clock(_) => true,
    }
}
