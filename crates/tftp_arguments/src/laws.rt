//! Laws of command lines, over the definitions alone, for the proofs of the programs' own.

ghost use Rattle.tftp_arguments.specs.Commands.{CommandsGrow, MatchesAreRows};

/// A command has the settings that were made and the rules of the arguments that were added,
/// whatever is set beside them.
pub fn commands_grow()
    ensures { CommandsGrow }
{}

/// What is read of the matches of a command line is what is read of their rows.
pub fn matches_are_rows()
    ensures { MatchesAreRows }
{}
