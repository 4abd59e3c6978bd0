//! A law of command lines, the contract of a function that does nothing.

ghost use Rattle.std.specs.Prelude.{◌≡◌, List, ℕ};
ghost use Rattle.command_words.specs.Command.{AskForCommand, IsLimitedCommand};
ghost use Rattle.command_words.specs.declared.command.Command.{Command};

use prefix_lattice::prefix_texts_have_one_reading;

/// A law of command lines: the arguments ask for one command at most, and its numbers are within their limits.
pub fn arguments_ask_for_one_command()
    ensures one { (words : List (List ℕ)) (asked other : Command) → AskForCommand words asked → AskForCommand words other → asked ≡ other }
    ensures limited { (words : List (List ℕ)) (asked : Command) → AskForCommand words asked → IsLimitedCommand asked }
{
    prefix_texts_have_one_reading();
}
