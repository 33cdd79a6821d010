ghost use Rattle.std.specs.Prelude.{◌≡◌, [], true};
ghost use Rattle.command_line.specs.declared.command.LoadOptions.{LoadOptions};
ghost use Rattle.script_typing.specs.Woven.{are_apart};
ghost use Rattle.skk_calls.specs.States.{State};
ghost use Rattle.skk_top.specs.LoadCommand.{load_lines};

use script_typing::sessions_of_their_own_are_apart;

/// The typists of a load are apart in each state in which no typist has a list of books, as in the empty one: each of
/// its sessions is its own typist, and has its own book.
pub fn typists_of_a_load_are_apart()
    ensures { (options : LoadOptions) (state : State) → state.lists ≡ [] → are_apart state (load_lines options) ≡ true }
{
    sessions_of_their_own_are_apart();
}
