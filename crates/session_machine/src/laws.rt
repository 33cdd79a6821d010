ghost use Rattle.std.specs.Prelude.{ℕ, ◌≤◌, List, length};
ghost use Rattle.std.specs.List.{All};
ghost use Rattle.skk_text.specs.declared.key.Key.{Key};
ghost use Rattle.romaji_rules.specs.declared.rule.Rule.{Rule};
ghost use Rattle.skk_calls.specs.Interactions.{Comes, Dialog};
ghost use Rattle.dict_laws.specs.OwnBooks.{AsksOwn};
ghost use Rattle.session_machine.specs.OwnSessions.{IsOwn};
ghost use Rattle.session_machine.specs.Pressed.{pressed, all_pressed};
ghost use Rattle.session_machine.specs.Registrations.{depth_limit};
ghost use Rattle.session_machine.specs.Session.{Session, TextFits, texts_of, new_session};

/// No text of a session's frames passes its limit, whatever keys it is given, and however its calls are answered.
pub fn texts_have_a_limit()
    ensures { (rules : List Rule) (typist book : ℕ) (keys : List Key) (dialog : Dialog) (session : Session)
        → Comes (all_pressed rules (new_session typist book) keys) dialog session
        → All TextFits (texts_of session) }
{}

/// No more registrations stand in one another than may be open, whatever keys a session is given, and however its calls
/// are answered: each frame outside the innermost waits for the word of one.
pub fn registrations_have_a_limit()
    ensures { (rules : List Rule) (typist book : ℕ) (keys : List Key) (dialog : Dialog) (session : Session)
        → Comes (all_pressed rules (new_session typist book) keys) dialog session
        → length session.outer ≤ depth_limit }
{}

/// A session that is a typist's own asks the typist's own calls alone, whatever keys it is given, and stays so, as long
/// as its calls are given learnings of the typist's book alone. A new session in the typist's book is the typist's own.
pub fn calls_are_own()
    ensures new { (typist : ℕ) → IsOwn typist (new_session typist typist) }
    ensures key { (rules : List Rule) (typist : ℕ) (session : Session) (key : Key) → IsOwn typist session
        → AsksOwn typist (IsOwn typist) (pressed rules session key) }
    ensures keys { (rules : List Rule) (typist : ℕ) (session : Session) (keys : List Key) → IsOwn typist session
        → AsksOwn typist (IsOwn typist) (all_pressed rules session keys) }
{}
