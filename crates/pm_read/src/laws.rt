//! Laws of what lines ask: that the words of commands are theirs alone, and that a command has the lists of its line.

ghost use Rattle.std.specs.Prelude.{ℕ, List, Option, IsSome, Some, ◌≡◌};
ghost use Rattle.serde_json.specs.Data.{Data};
ghost use Rattle.pm_model.specs.State.{Graph};
ghost use Rattle.pm_model.specs.Asked.{row_of};
ghost use Rattle.pm_model.specs.Effect.{refusal};
ghost use Rattle.pm_model.specs.declared.requests.Change.TheVariants.{DefineRight};
ghost use Rattle.pm_model.specs.declared.replies.Refusal.TheVariants.{NameTaken};
ghost use Rattle.pm_model.specs.declared.requests.Command.{Command};
ghost use Rattle.pm_read.specs.Lists.{AsksFor, HasLists, listed};

/// No right can be defined by the word of a command, whatever the graph. Ten of the opening's rights have
/// such names: they are what these commands ask for.
pub fn command_word_is_taken()
    ensures { (G : Graph) (look : List ℕ → Option Data) (word : List ℕ) → IsSome (row_of look word) → refusal G (DefineRight word) ≡ Some NameTaken }
{}

/// A command that a line asks for has the line's lists: its rights are the set of the names listed there,
/// which are 1 to 32, each at its first place; and its two sets, if it has them, are listed so and have at
/// most 32 names together.
pub fn lists_are_kept()
    ensures { (line : List ℕ) (after : Option ℕ) (process : ℕ) (command : Command)
        → AsksFor line after process command → HasLists (listed line) command }
{}
