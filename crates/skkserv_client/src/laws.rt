ghost use Rattle.std.specs.Prelude.{◌≡◌, ◌≢◌, ◌≤◌, ℕ, true, Some, Ok, List, [], length};
ghost use Rattle.std.specs.List.{list_all};
ghost use Rattle.std.specs.Str.{IsUtf8};
ghost use Rattle.skk_calls.specs.declared.answer.Reply.TheVariants.{Found};
ghost use Rattle.skk_calls.specs.Rows.{Cand, is_cand, texts_differ, words_of};
ghost use Rattle.skkserv_proto.specs.declared.request.Request.TheVariants as requests;
ghost use Rattle.skkserv_proto.specs.Replies.{reply_to};
ghost use Rattle.skkserv_client.specs.declared.question.Ask.TheVariants as questions;
ghost use Rattle.skkserv_client.specs.declared.told.Told.TheVariants as told;
ghost use Rattle.skkserv_client.specs.Replies.{told_by};

use dict_format::{bodies_have_one_list_of_texts, items_are_read_again};

/// What the project's own server sends for a reading where it found candidates, at least one, whose words differ, tells
/// these candidates, in their order and with their notes, where it has at most 4,194,304 bytes and is UTF-8.
pub fn found_candidates_are_told()
    ensures { (bytes reading : List ℕ) (cands : List Cand) → cands ≢ [] → list_all is_cand cands ≡ true
        → texts_differ (words_of cands) ≡ true
        → length (reply_to (requests.Look bytes) (Some (Found cands))) ≤ 4194304
        → IsUtf8 (reply_to (requests.Look bytes) (Some (Found cands)))
        → told_by (questions.Look reading) (reply_to (requests.Look bytes) (Some (Found cands)))
        ≡ Ok (told.Cands cands) }
{
    items_are_read_again();
    bodies_have_one_list_of_texts();
}
