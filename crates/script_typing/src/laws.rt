ghost use Rattle.std.specs.Prelude.{◌≡◌, ◌≤◌, ◌==◌, ℕ, Bool, true, not, List, [], length};
ghost use Rattle.std.specs.List.{list_all};
ghost use Rattle.romaji_rules.specs.declared.rule.Rule.{Rule};
ghost use Rattle.skk_calls.specs.declared.entry.Entry.{Entry};
ghost use Rattle.skk_calls.specs.Histories.{Opening, IsLegal, dialog};
ghost use Rattle.skk_calls.specs.Interactions.{Dialog, printed_alone};
ghost use Rattle.skk_calls.specs.Openings.{is_reply};
ghost use Rattle.skk_calls.specs.States.{State};
ghost use Rattle.skk_calls.specs.Tallies.{tally_of};
ghost use Rattle.key_scripts.specs.Script.{OpenFirst, gives_keys, opens_well, session_of};
ghost use Rattle.key_scripts.specs.declared.line.Line.{Line};
ghost use Rattle.script_typing.specs.Callers.{AreCallers, AskFrom, EndFrom, HaveAsked, LeadFrom};
ghost use Rattle.script_typing.specs.Pages.{PageMap};
ghost use Rattle.script_typing.specs.Playing.{playing, sessions_from, end_alone, history_alone};
ghost use Rattle.script_typing.specs.Sessions.{SessionMap};
ghost use Rattle.script_typing.specs.Typed.{typing};
ghost use Rattle.script_typing.specs.Woven.{Tasks, answers_by, are_apart, tasks_of, woven};
ghost use Rattle.script_typing.specs.Workers.{AreDone, AreWoven};

use dict_laws::{each_typist_is_answered_alone, own_calls_are_given_own_learnings};
use session_machine::calls_are_own;
use tally_laws::callers_who_say_the_same_come_to_one_tally;

/// Callers that have asked the first of what their tasks ask have asked it from the first place on.
pub fn callers_have_asked()
    ensures { (rules : List Rule) (tasks : Tasks) (said : ℕ → Dialog) (numbers : List ℕ) (dialogs : List Dialog)
        → AreCallers said numbers dialogs → HaveAsked rules tasks dialogs → AskFrom rules said 0 tasks }
{}

/// Callers whose tasks are done whole have said all that these ask.
pub fn callers_have_ended()
    ensures { (rules : List Rule) (tasks : Tasks) (said : ℕ → Dialog) (numbers : List ℕ) (dialogs : List Dialog)
        (pages : PageMap) (sessions : SessionMap)
        → AreCallers said numbers dialogs → AreDone rules true tasks dialogs pages sessions
        → LeadFrom rules said 0 tasks × EndFrom rules said 0 tasks }
{}

/// The pages that are left of a script's tasks are woven of its lines, with the answers that their callers were given.
pub fn pages_are_woven()
    ensures { (rules : List Rule) (lines : List Line) (said : ℕ → Dialog) (numbers : List ℕ)
        (dialogs : List Dialog) (whole : Bool) (pages : PageMap) (sessions : SessionMap)
        → AreCallers said numbers dialogs → AreDone rules whole (tasks_of lines) dialogs pages sessions
        → AreWoven rules lines (answers_by said (tasks_of lines)) whole pages sessions }
{}

/// A script whose typists are apart in the state opened prints what it prints where one caller types all of its lines:
/// whatever the order is in which its callers were answered, where none was refused and each has said all that its task
/// asks.
pub fn typists_apart_type_alone()
    ensures { (rules : List Rule) (lines : List Line) (opening : Opening) (history : List Entry)
        → list_all opens_well lines ≡ true → OpenFirst lines
        → IsLegal opening history → list_all (λ entry. is_reply entry.answer) history ≡ true
        → ((number : ℕ) → length (tasks_of lines) ≤ number → dialog history number ≡ [])
        → LeadFrom rules (dialog history) 0 (tasks_of lines) → are_apart opening.state lines ≡ true
        → woven rules [] (answers_by (dialog history) (tasks_of lines)) lines
        ≡ printed_alone opening.files opening.state (typing rules [] lines) }
{
    calls_are_own();
    own_calls_are_given_own_learnings();
    each_typist_is_answered_alone();
}

/// A script whose typists are apart in the state opened comes, where each session has a caller of its own, to the
/// sessions and to the tally that it comes to where one caller plays all of its lines: whatever the order is in which
/// its callers were answered, where none was refused and each has said all that its task asks.
pub fn typists_apart_play_alone()
    ensures { (rules : List Rule) (lines : List Line) (opening : Opening) (history : List Entry)
        → list_all opens_well lines ≡ true → OpenFirst lines
        → IsLegal opening history → list_all (λ entry. is_reply entry.answer) history ≡ true
        → ((number : ℕ) → length (tasks_of lines) ≤ number → dialog history number ≡ [])
        → LeadFrom rules (dialog history) 0 (tasks_of lines) → are_apart opening.state lines ≡ true
        → (sessions_from rules (dialog history) 0 (tasks_of lines)
        ≡ end_alone opening.files opening.state (playing rules [] lines))
        × (tally_of opening.state history
        ≡ tally_of opening.state (history_alone opening.files opening.state (playing rules [] lines))) }
{
    calls_are_own();
    own_calls_are_given_own_learnings();
    each_typist_is_answered_alone();
    callers_who_say_the_same_come_to_one_tally();
}

/// Lines that open no session are those of a script, and where none names a session 0, their typists are apart: each
/// session is its own typist, and has its own book, where no typist has a list of books.
pub fn sessions_of_their_own_are_apart()
    ensures well { (lines : List Line) → list_all gives_keys lines ≡ true → list_all opens_well lines ≡ true }
    ensures first { (lines : List Line) → list_all gives_keys lines ≡ true → OpenFirst lines }
    ensures apart { (state : State) (lines : List Line) → state.lists ≡ [] → list_all gives_keys lines ≡ true
        → list_all (λ line. not (session_of line == 0)) lines ≡ true → are_apart state lines ≡ true }
{}
