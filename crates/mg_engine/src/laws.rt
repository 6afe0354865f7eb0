//! Laws of executions and of the worlds that they leave, each the contract of a function that does nothing.
ghost use Rattle.std.specs.Prelude.{◌≡◌, List, map, length, Some};
ghost use Rattle.mg_engine.specs.Commands.{Answer, Asked};
ghost use Rattle.mg_engine.specs.Laws.{PagesJoin, ReshardsChangeNoReply, ReshardsChangeNoWorld};
ghost use Rattle.mg_engine.specs.Execution.{answered_commands, answers_of};

/// If no command is refused memory, `answered_commands` returns all commands and `answers_of` all answers.
pub fn where_memory_suffices()
    ensures commands { (cs : List Asked) (answers : List Answer) → length answers ≡ length cs
        → answered_commands cs (map Some answers) ≡ cs }
    ensures answers { (answers : List Answer) → answers_of (map Some answers) ≡ answers }
{}

/// Reshards change no other reply: every other command has the reply that it has without the reshards.
pub fn reshards_change_no_reply()
    ensures { ReshardsChangeNoReply }
{}

/// Reshards do not change the world that the other commands leave.
pub fn reshards_change_no_world()
    ensures { ReshardsChangeNoWorld }
{}

/// Pages join in every world that commands leave, if the code can hold the bodies of the writes and no bulk nests more than 127 deep, as is
/// true of every body that is read from a JSON text. `mg_query::laws::pages_join` says what it means that pages join, and asks of each
/// document that JSON text can carry its place; here that is proved.
pub fn pages_join()
    ensures { PagesJoin }
{
    mg_query::laws::pages_join();
}
