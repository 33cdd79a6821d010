ghost use Rattle.std.specs.Prelude.{◌≡◌, true, ℕ, List, Option};
ghost use Rattle.skk_calls.specs.Dictionary.{may_answer};
ghost use Rattle.skk_calls.specs.Rows.{Cand, Learned, RowKey};
ghost use Rattle.skk_calls.specs.declared.call.Call.TheVariants as calls;

use crate::making::{distinct_cands, listed_readings};
use expectations::{same, same_at};
use romaji_rules::Rules;
use session_machine::Session;
use skk_calls::{
    Answer, Call, Caller, DialogTrace, DistinctCands, FoundCands, FoundItems, Learned, Refusal,
    Reply, RowKey,
};
use skk_text::{Copies, Keys, Mode, Text, read_keys};
use std::alloc::Global;
use std::process::Abort;

// The candidates of every key, each with its note behind a `;`.
static FOUND: &str = "甲,乙;二,丙,丁,戊,己,庚,辛,壬,癸,子,丑";

// A dictionary that answers each call by the next of these words, which a space stands between: a look-up that has a
// number for its word finds the first so many of the candidates above, one that has `long` a long candidate, and every
// other the words between its commas, as a completion finds the readings between them.
#[derive(Drop)]
struct Finder<'a, R: Abort> {
    rt: &'a R,
    words: &'a str,
    said: DialogTrace,
}

impl<R: Abort> Caller for Finder<'_, R> {
    ghost number = { λ _. 7 };

    ghost said = { λ caller. caller.said };

    fn number(&self) -> u32 {
        7
    }

    fn call(&mut self, alloc: Global, call: &Call) -> Answer {
        let (word, words) = self.words.split_once(' ').unwrap_or((self.words, ""));
        self.words = words;
        let answer = answer_by(self.rt, alloc, word, call);
        self.said.note(call, &answer);
        answer
    }
}

// What a call is answered by a word.
fn answer_by(rt: &impl Abort, alloc: Global, word: &str, call: &Call) -> Answer
    ensures { may_answer call.now result ≡ true }
{
    match call {
        Call::Lookup { .. } => lookup_answer(rt, alloc, word),
        Call::Complete { .. } => completion_answer(rt, alloc, word),
        Call::Learn { book, key, .. } => learning_answer(rt, alloc, word, *book, key),
        Call::Purge { .. } => purge_answer(word),
        Call::Annotate { .. } => annotation_answer(word),
        Call::Share { .. } => sharing_answer(word),
        Call::Unlearn { .. } => unlearning_answer(word),
    }
}

// What a look-up is answered.
fn lookup_answer(rt: &impl Abort, alloc: Global, word: &str) -> Answer
    ensures { (who : ℕ) (key : RowKey) (okuri : Option (List ℕ))
        → may_answer (calls.Lookup who key okuri) result ≡ true }
{
    if word == "memory" {
        return Answer::Refused(Refusal::Memory);
    }
    let cands = FoundItems::Distinct(cands_by(rt, alloc, word));
    Answer::Done(Reply::Found(FoundCands::new(cands)))
}

// The candidates that a look-up finds by a word.
fn cands_by(rt: &impl Abort, alloc: Global, word: &str) -> DistinctCands {
    if let Ok(count) = word.parse() {
        return distinct_cands(rt, alloc, FOUND, count);
    }
    if word == "long" {
        let word = "x".repeat(alloc, LONG).expect(rt, "memory");
        return distinct_cands(rt, alloc, word.as_str(), 1);
    }
    distinct_cands(rt, alloc, word, usize::MAX)
}

// What a completion is answered.
fn completion_answer(rt: &impl Abort, alloc: Global, word: &str) -> Answer
    ensures { (who : ℕ) (prefix : List ℕ) → may_answer (calls.Complete who prefix) result ≡ true }
{
    if word == "memory" {
        return Answer::Refused(Refusal::Memory);
    }
    Answer::Done(Reply::Readings(listed_readings(rt, alloc, word)))
}

// What a learning is answered.
fn learning_answer(rt: &impl Abort, alloc: Global, word: &str, book: u16, key: &RowKey) -> Answer
    ensures { (book : ℕ) (key : RowKey) (okuri : Option (List ℕ)) (cand : Cand)
        → may_answer (calls.Learn book key okuri cand) result ≡ true }
{
    if word != "learned" {
        return other_answer(word);
    }
    let key = key.copy(alloc).expect(rt, "memory");
    Answer::Done(Reply::Learned(Learned::new(book, key, 1, None)))
}

// What a purge is answered.
fn purge_answer(word: &str) -> Answer
    ensures { (book : ℕ) (key : RowKey) (text : List ℕ) → may_answer (calls.Purge book key text) result ≡ true }
{
    match word {
        "purged" => Answer::Done(Reply::Purged),
        "unchanged" => Answer::Done(Reply::Unchanged),
        _ => other_answer(word),
    }
}

// What an annotation is answered.
fn annotation_answer(word: &str) -> Answer
    ensures { (book : ℕ) (key : RowKey) (cand : Cand) → may_answer (calls.Annotate book key cand) result ≡ true }
{
    match word {
        "annotated" => Answer::Done(Reply::Annotated),
        "unchanged" => Answer::Done(Reply::Unchanged),
        _ => other_answer(word),
    }
}

// What the giving of a list of books is answered.
fn sharing_answer(word: &str) -> Answer
    ensures { (who : ℕ) (books : List ℕ) → may_answer (calls.Share who books) result ≡ true }
{
    match word {
        "shared" => Answer::Done(Reply::Shared),
        "unchanged" => Answer::Done(Reply::Unchanged),
        _ => Answer::Refused(refusal_by(word)),
    }
}

// What a taking back is answered.
fn unlearning_answer(word: &str) -> Answer
    ensures { (learned : Learned) → may_answer (calls.Unlearn learned) result ≡ true }
{
    match word {
        "restored" => Answer::Done(Reply::Restored),
        "overtaken" => Answer::Done(Reply::Overtaken(2)),
        _ => Answer::Refused(refusal_by(word)),
    }
}

// What a learning, a purge or an annotation is answered that is not done.
fn other_answer(word: &str) -> Answer
    ensures learning { (book : ℕ) (key : RowKey) (okuri : Option (List ℕ)) (cand : Cand)
        → may_answer (calls.Learn book key okuri cand) result ≡ true }
    ensures purge { (book : ℕ) (key : RowKey) (text : List ℕ) → may_answer (calls.Purge book key text) result ≡ true }
    ensures annotation { (book : ℕ) (key : RowKey) (cand : Cand)
        → may_answer (calls.Annotate book key cand) result ≡ true }
{
    match word {
        "too-big" => Answer::Done(Reply::TooBig(65_537)),
        "stamps-end" => Answer::Done(Reply::StampsEnd),
        _ => Answer::Refused(refusal_by(word)),
    }
}

// Why a call is refused.
fn refusal_by(word: &str) -> Refusal {
    match word {
        "disk" => Refusal::Disk,
        "full" => Refusal::JournalFull {
            end: 18,
            need: 90,
            limit: 100,
        },
        _ => Refusal::Memory,
    }
}

// How many bytes the word has that `long` finds.
const LONG: usize = 2_048;

// How many of them a text has just room for.
const MANY: usize = 512;

// The session after the keys, where `_` is the space. It begins in hiragana mode,
// and its calls are answered by these words.
fn session_after(rt: &impl Abort, alloc: Global, keys: &str, words: &str) -> Session {
    let rules = Rules::standard(alloc).expect(rt, "memory");
    let keys = keys_of(rt, alloc, keys);
    session_by(rt, alloc, &rules, &keys, words)
}

// The keys of a text, where `_` is the space.
fn keys_of(rt: &impl Abort, alloc: Global, text: &str) -> Keys {
    let text = text.replace(alloc, "_", " ").expect(rt, "memory");
    read_keys(alloc, text.as_bytes()).expect(rt, "keys")
}

fn session_by(rt: &impl Abort, alloc: Global, rules: &Rules, keys: &Keys, words: &str) -> Session {
    let said = DialogTrace::new(alloc).expect(rt, "memory");
    let mut caller = Finder { rt, words, said };
    Session::new(alloc, 7, 0)
        .play(alloc, rules, keys.as_slice(), &mut caller)
        .expect(rt, "memory")
}

// What is typed; the words that its calls are answered by; `=`; and the display and the notice behind it. A call for
// which no word is left finds nothing, or is refused for want of memory.
static CASES: &str = "
kitte =きって|
kya<bs> =き|
<undo> =|no-undo
<undo>a =あ|
A =▽あ|
Kan =▽かn|
qKa =▽カ|
Q; =▽|reading
Q;a =▽あ|
Ka<undo> =▽か|no-undo
Kan<cj> =かん|
Kaq =カ|
qKaq =か|
KaQ =か▽|
Ka<ret> =か\\n|
Ka<cg> =|
Q_ =|
Q<bs> =|
Ka_ 12=▼甲|
Ka__ 12=▼乙|;二
Ka__x 12=▼甲|
Ka_x 12=▽か|
Ka__<cg> 12=▽か|
Ka_____ 12=▼[A:戊 S:己 D:庚 F:辛 J:壬 K:癸 L:子 残り 1]|
Ka_____ 11=▼[A:戊 S:己 D:庚 F:辛 J:壬 K:癸 L:子 残り 0]|
Ka_____ 5=▼[A:戊 残り 0]|
Ka______ 12=▼[A:丑 残り 0]|
Ka______s 12=▼[A:丑 残り 0]|no-candidate
Ka______x 12=▼[A:戊 S:己 D:庚 F:辛 J:壬 K:癸 L:子 残り 1]|
Ka_____<bs> 12=▼丁|
Ka_ memory=▽か|refused memory
Ka_i memory=▽かい|
Ka_<cj> 12 learned=甲|
aKa__<cj> 12 learned=あ乙|
Ka_<ret> 12 learned=甲\\n|
aKa_<bs> 12 learned=あ|
Ka_a 12 learned=甲あ|
Ka_k 12 learned=甲k|
Ka_Ki 12 learned=甲▽き|
qKa_qa 12 learned=甲あ|
Ka_____a 12 learned=戊|
Ka_____l 12 learned=子|
Ka______a 12 learned=丑|
Ka_<undo> 12=▼甲|
Ka_<cj> 12 too-big=甲|too-big 65537
Ka_a 12 too-big=甲あ|too-big 65537
Ka_<cj> 12 stamps-end=甲|stamps-end
Ka_<cj> 12 memory=甲|refused memory
Ka_<cj> 12 disk=甲|refused disk
Ka_<cj> 12 full=甲|refused full 18 90 100
Ka_<cj>i 12 disk=甲い|
Ka_X 12=▼甲[削除 Y/N]|
Ka__X 12=▼乙[削除 Y/N]|;二
aKa_Xy 12 purged=あ|purged
Ka_XY 12 purged=|purged
Ka_Xyi 12 purged=い|
Ka_Xn 12=▼甲|
Ka_X_ 12=▼甲|
Ka_XX 12=▼甲|
Ka_X<cj> 12=▼甲|
Ka_X<cg> 12=▼甲|
aKa_Xy 12 unchanged=あ|unchanged
Ka__Xy 12 too-big=▼乙|too-big 65537
Ka__Xy 12 stamps-end=▼乙|stamps-end
Ka__Xy 12 memory=▼乙|refused memory
Ka__Xy 12 disk=▼乙|refused disk
Ka__Xy 12 full=▼乙|refused full 18 90 100
aKa_<cj><undo> 12 learned restored=あ▼甲|undone
Ka_<cj><undo> 12 learned overtaken=▼甲|overtaken 2
Ka_<cj><undo> 12 learned memory=▼甲|refused memory
Ka_<cj><undo> 12 too-big=▼甲|undone
Ka__<cj><undo> 12 learned restored=▼乙|undone
Ka__<cj><undo><tab> 12 learned restored=▼乙|;二
Ka_____s<undo> 12 learned restored=▼[A:戊 S:己 D:庚 F:辛 J:壬 K:癸 L:子 残り 1]|undone
Ka_<cj>k<undo> 12 learned restored=▼甲|undone
qKa_<cj>q<undo><cg>i 12 learned restored=▽カイ|
Ka_<cj><undo>_<cj> 12 learned restored learned=乙|
Ka_<cj><undo><undo> 12 learned restored=▼甲|
Ka_<cj><undo><cg><cg><undo> 12 learned restored=|no-undo
Ka_<cj>a<undo> 12 learned restored=甲あ|no-undo
Ka_<cj>a<bs><undo> 12 learned restored=▼甲|undone
Ka_a<undo> 12 learned restored=甲あ|no-undo
Ka_<ret><bs><undo> 12 learned restored=▼甲|undone
Ka_<bs><undo> 12 learned restored=|no-undo
Ka_<cj><bs>a<undo> 12 learned restored=あ|no-undo
Ka_<cj>Ka__<cj><undo> 12 learned 12 learned restored=甲▼乙|undone
Ka_<cj>Ka_<cj><undo><cg><cg><undo> 12 learned 12 learned restored=甲|no-undo
/ =▽|
n/aQ-> =ん▽aQ->|
/;a =▽a|
/ab_ 12=▼甲|
/_ =|
KaK =▽か*k|
KaK_ =▽か|
KaKu 12=▼甲く|
qKakKu 12=▼甲ック|
KaKu<cg> 12=▽か*く|
KaKu memory=▽か*く|refused memory
KaKu_ 12=▼乙く|;二
aKaKu<cj> 12 learned=あ甲く|
KaKu<cj><undo> 12 learned restored=▼甲く|undone
KaKuXy 12 purged=|purged
Ka> 12=▼甲|
Kan><cg> 12=▽かん>|
Ka_> 12 learned=甲▽>|
Ka_/ 12 learned=甲▽|
Ka> memory=▽か>|refused memory
Q1995nen_ 0 #1年,#3年,#0年=▼１９９５年|
Q1995nen__ 0 #1年,#3年,#0年=▼千九百九十五年|
Q1995nen__x 0 #1年,#3年,#0年=▼１９９５年|
Q1995nen_x 0 #1年=▽1995ねん|
Q1995nen_ memory=▽1995ねん|refused memory
Q1995nen_ 0 memory=▽1995ねん|refused memory
Q9nen_ 九年 #0年,#1年=▼九年|
Q9nen__ 9年 #0年,#1年=▼９年|
Q9nen_____ 1年,2年 #1年,#0年,#3年,#9=▼[A:九年 S:9 残り 0]|
Q7nen_<cj> 0 #1年 learned=７年|
Q7nen_<cj><undo> 0 #1年 learned restored=▼７年|undone
Q7nen_Xy 0 #1年 purged=|purged
Q7nen_X 0 #1年=▼７年[削除 Y/N]|
Q2baiSi 0 #3倍,#1倍=▼二倍し|
Q2baiSi<cj> 0 #3倍,#1倍 learned=二倍し|
Q1> 0 #1=▼１|
/p125_ 0 #4 東京=▼東京|
/p125_ 0 #4 東京,京都=▼東京|
/p125_ 0 #4 0=▼125|
/p125_ 0 #4 memory=▽p125|refused memory
/p1to2_ 0 #4と#4 東京 京都=▼東京と京都|
/p1to2_ 0 #4と#1,#1と#4 0 京都=▼1と２|
/p1to2__ 0 #4と#1,#1と#4 0 京都=▼１と京都|
/p1to2_ 0 #4と#4 東京 memory=▽p1to2|refused memory
Ka<tab> かんじ,かに=▽かんじ|
Ka<tab> =▽か|no-completion
Ka<tab> memory=▽か|refused memory
Q<tab> か=▽か|
KaK<tab> =▽か*k|no-completion
Ka<tab>. かんじ,かに=▽かに|
Ka<tab><tab> かんじ,かに=▽かに|
Ka<tab>., かんじ,かに=▽かんじ|
Ka<tab>, かんじ,かに=▽かんじ|no-more
Ka<tab>.. かんじ,かに=▽かに|no-more
Ka<tab>a. かんじ,かに=▽かんじあ。|
Ka<tab>_ かんじ 12=▼甲|
Ka<tab>_x. かんじ 12=▽かんじ。|
Ka<tab><cj> かんじ=かんじ|
Ka_ 0=[辞書登録] か: |
qKa_ 0=[辞書登録] カ: |
KaKu 0=[辞書登録] か*く: |
qKaKu 0=[辞書登録] カ*ク: |
Q1_ 0 0=[辞書登録] #: |
Q1_ 0 memory=▽1|refused memory
Ka__ 1=[辞書登録] か: |
Ka______ 11=[辞書登録] か: |
aKa_ik 0=[辞書登録] か: いk|
Ka_kya<bs> 0=[辞書登録] か: き|
Ka_<undo> 0=[辞書登録] か: |no-undo
aKa_<cg> 0=あ▽か|
aKa_ik<cg> 0=[辞書登録] か: い|
aKa_i<cg> 0=あ▽か|
aKa_<ret> 0=あ▽か|
aKa_i<bs><ret> 0=あ▽か|
KaKu<cg> 0=▽か*く|
Q1_<cg> 0 0=▽1|
Ka__<cg> 1=▼甲|
Ka___<cg> 2=▼乙|;二
Ka______<ret> 11=▼[A:戊 S:己 D:庚 F:辛 J:壬 K:癸 L:子 残り 0]|
Ka_lx<cg> 0=[辞書登録] か: x|
Ka_Lx<cg> 0=[辞書登録] か: ｘ|
Ka_L<cg> 0=[辞書登録] か: |
Ka_L<ret> 0=▽か|
Ka_lx<ret> 0 learned=x|
Ka_lx<ret> 0 too-big=x|too-big 65537
Ka_lx<ret> 0 stamps-end=x|stamps-end
Ka_lx<ret> 0 memory=x|refused memory
Ka_lx<ret> 0 disk=x|refused disk
Ka_lx<ret> 0 full=x|refused full 18 90 100
Ka_lx<ret>i 0 disk=xい|
qKa_Lx<ret>i 0 learned=ｘイ|
aKa_in<ret> 0 learned=あいん|
aKa_Ain<ret> 0 learned=ああいん|
aKa_qAi<ret> 0 learned=あアイ|
Ka__lx<ret> 1 learned=x|
KaKulx<ret> 0 disk=xく|refused disk
qKaKulx<ret> 0 learned=xク|
Q7nen_l#1<ret> 0 0 disk=７|refused disk
Q7nenMel#3<ret> 0 0 learned=七め|
/p125_l#4<ret> 0 0 learned=125|
/p125__l#4<ret> 0 1 learned=125|
Ko_Ka_<ret> 0 12 learned learned=甲|
Ko_Ka_<ret> 0 12 too-big learned=甲|too-big 65537
Ko_Ka_<ret> 0 12 stamps-end learned=甲|stamps-end
Ko_Ka_<ret> 0 12 memory learned=甲|refused memory
Ko_Ka_<ret> 0 12 disk learned=甲|refused disk
Ko_Ka_<ret> 0 12 full learned=甲|refused full 18 90 100
Ko_Ka_<ret> 0 12 learned too-big=甲|too-big 65537
Ko_Ka_<ret> 0 12 learned stamps-end=甲|stamps-end
Ko_Ka_<ret> 0 12 learned memory=甲|refused memory
Ko_Ka_<ret> 0 12 learned disk=甲|refused disk
Ko_Ka_<ret> 0 12 learned full=甲|refused full 18 90 100
Ko_Ka_<ret> 0 12 full memory=甲|refused memory
Ko_Ka_<ret> 0 12 memory disk=甲|refused disk
Ko_Ka_<ret> 0 12 disk too-big=甲|too-big 65537
Ko_Ka_<ret> 0 12 too-big stamps-end=甲|stamps-end
Ko_Ka_<ret> 0 12 stamps-end full=甲|refused full 18 90 100
Ko_Ka_<ret> 0 memory learned=か|
Ko_Ka_<cj><ret> 0 12 disk learned=甲|
Ko_Ki_Ka_<ret> 0 0 12 learned disk=[辞書登録] こ: 甲|refused disk
Ko_Ki_Ka_<ret><ret> 0 0 12 learned disk learned=甲|
Ko_Ki_<ret>_ 0 0 0=[[辞書登録]] き: |
Ko_Ki_<cg><cg><cg> 0 0=▽こ|
Ko_Ka_ 0 memory=[辞書登録] こ: ▽か|refused memory
Ko_Ka_X 0 12=[辞書登録] こ: ▼甲[削除 Y/N]|
Ko_Ka_Xy 0 12 disk=[辞書登録] こ: ▼甲|refused disk
Ko_Ka_XY 0 12 purged=[辞書登録] こ: |purged
Ko_Ka<tab> 0 かんじ,かに=[辞書登録] こ: ▽かんじ|
Ko_Ka_<cj><undo> 0 12 disk=[辞書登録] こ: ▼甲|undone
Ko_Ka_<cj><undo> 0 12 learned restored=[辞書登録] こ: ▼甲|undone
Ko_Ka_<cj><undo> 0 12 learned memory=[辞書登録] こ: ▼甲|refused memory
Ka_<cj>Ko_<undo> 12 learned 0=[辞書登録] こ: |no-undo
Ka_<cj>Ko_<cg><cg><undo> 12 learned 0 restored=▼甲|undone
Ka_<cj>Ko_<ret><cg><undo> 12 learned 0 overtaken=▼甲|overtaken 2
Ka_<cj>Ko_lx<ret><bs><undo> 12 learned 0 learned=甲|no-undo
Ka_<cj>Ko_lx<ret><bs><undo> 12 learned 0 disk=甲|no-undo
Ko_Ka_<ret><undo> 0 12 learned learned=甲|no-undo
A_I_U_E_O_A_I_Ka_ 0 0 0 0 0 0 0 0=[[[[[[[[辞書登録]]]]]]]] か: |
A_I_U_E_O_A_I_Ka_A_ 0 0 0 0 0 0 0 0 0=[[[[[[[[辞書登録]]]]]]]] か: ▽あ|depth 8
A_I_U_E_O_A_I_Ka_Q1_ 0 0 0 0 0 0 0 0 0 0=[[[[[[[[辞書登録]]]]]]]] か: ▽1|depth 8
A_I_U_E_O_A_I_Ka_A___ 0 0 0 0 0 0 0 0 2=[[[[[[[[辞書登録]]]]]]]] か: ▼乙|depth 8
A_I_U_E_O_A_I_Ka_A_______ 0 0 0 0 0 0 0 0 12=[[[[[[[[辞書登録]]]]]]]] か: ▼[A:丑 残り 0]|depth 8
A_I_U_E_O_A_I_Ka_A_<cg><cg>_ 0 0 0 0 0 0 0 0 0 0=[[[[[[[[辞書登録]]]]]]]] か: |
A_I_U_E_O_A_I_Ka_lx<ret><ret> 0 0 0 0 0 0 0 0 learned disk=[[[[[[辞書登録]]]]]] あ: x|refused disk
Kanji_^ 漢字=[注釈登録] 漢字: |
Kanji_^yoi<ret> 漢字 annotated=▼漢字|annotated
Kanji_^yoi<ret>x 漢字 annotated=▽かんじ|
Kanji_^yoi<ret>x_ 漢字 annotated 漢字;*よい=▼漢字|;*よい
Kanji_^yoi<ret><tab> 漢字 annotated=▼漢字|;*よい
Ka__^yoi<ret> 12 unchanged=▼乙|unchanged
Ka__^yoi<ret><tab> 12 unchanged=▼乙|;*よい
Ka__^yoi<ret>x_ 12 annotated=▼乙|;*よい
Ka__^yoi<ret> 12 too-big=▼乙|too-big 65537
Ka__^yoi<ret> 12 stamps-end=▼乙|stamps-end
Ka__^yoi<ret> 12 memory=▼乙|refused memory
Ka__^yoi<ret> 12 disk=▼乙|refused disk
Ka__^yoi<ret> 12 full=▼乙|refused full 18 90 100
Ka__^yoi<ret><tab> 12 disk=▼乙|;二
Ka__^yoi<cg> 12=▼乙|;二
Ka__^<ret> 12=▼乙|;二
Ka__^yo<bs><ret> 12=▼乙|;二
Ka_^yoin<ret><tab> 12 annotated=▼甲|;*よいん
Ka_^la/b<ret> 12=[注釈登録] 甲: a/b|note
Ka_^la/b<ret><bs><bs><ret><tab> 12 annotated=▼甲|;*a
Ka_^lx<cg> 12=[注釈登録] 甲: x|
Ka_^<undo> 12=[注釈登録] 甲: |no-undo
qKa_^ 12=[注釈登録] 甲: |
KaKu^ 12=[注釈登録] 甲: |
KaKu^yo<ret> 12 annotated=▼甲く|annotated
aKa_^yo 12=[注釈登録] 甲: よ|
aKa_^yo<ret> 12 annotated=あ▼甲|annotated
Q7nen_^yo 0 #1年=[注釈登録] ７年: よ|
Q7nen_^yo<ret> 0 #1年 annotated=▼７年|annotated
Ka_X^ 12=▼甲|
Ka_____^ 12=▼[A:戊 S:己 D:庚 F:辛 J:壬 K:癸 L:子 残り 1]|
l^ =^|
Ko_Ka_^ 0 12=[[注釈登録]] 甲: |
Ko_Ka_^yo<ret> 0 12 annotated=[辞書登録] こ: ▼甲|annotated
Ka_^Ki_^ 12 12=[[注釈登録]] 甲: |
Ka_^Ki_<cj> 12 12 learned=[注釈登録] 甲: 甲|
Ka_^Ki_<ret><tab> 12 12 disk annotated=▼甲|;*甲
Ka_^Ko_ 12 0=[[辞書登録]] こ: |
Ka_^Ko_lx<ret> 12 0 learned=[注釈登録] 甲: x|
Ka_^Ko_lx<ret><ret> 12 0 learned annotated=▼甲|annotated
A_I_U_E_O_A_I_Ka_^ 0 0 0 0 0 0 0 12=[[[[[[[[注釈登録]]]]]]]] 甲: |
A_I_U_E_O_A_I_Ka_Ki_^ 0 0 0 0 0 0 0 0 12=[[[[[[[[辞書登録]]]]]]]] か: ▼甲|depth 8
Ka_<cj>Ki_^yo<ret><cg><cg><undo> 12 learned 12 annotated restored=▼甲|undone
";

// What a case has of a session.
fn case_text(rt: &impl Abort, alloc: Global, session: &Session) -> String {
    let display = session.display(alloc).expect(rt, "memory");
    let notice = session.notice(alloc).expect(rt, "memory");
    [display.as_str(), notice.as_str()]
        .join(alloc, "|")
        .expect(rt, "memory")
}

#[test]
fn sessions_are_shown(rt: HostRuntime) {
    let alloc = rt.alloc();
    same(CASES.lines().count(), 275).expect(&rt, "as wanted");
    for case in CASES.lines().skip(1) {
        expect_case(&rt, alloc, case);
    }
}

fn expect_case<R: Abort>(rt: &R, alloc: Global, case: &str) {
    let (typing, wanted) = case.split_once('=').expect(rt, "no `=`");
    let told = told_of(rt, alloc, typing);
    same_at(told.as_str(), wanted, typing).expect(rt, "as wanted");
}

// What a case has of the session after what is typed.
fn told_of(rt: &impl Abort, alloc: Global, typing: &str) -> String {
    let (keys, words) = typing.split_once(' ').expect(rt, "no space");
    let session = session_after(rt, alloc, keys, words);
    case_text(rt, alloc, &session)
}

// The session after the choices of so many long candidates, one after another, and then these keys, whose calls are
// answered by these words.
fn session_after_long(
    rt: &impl Abort,
    alloc: Global,
    count: usize,
    keys: &str,
    words: &str,
) -> Session {
    let keys = repeated(rt, alloc, "Ka_<cj>", count, keys);
    let words = repeated(rt, alloc, "long learned ", count, words);
    session_after(rt, alloc, keys.as_str(), words.as_str())
}

// A text so many times, and this behind it.
fn repeated(rt: &impl Abort, alloc: Global, unit: &str, count: usize, behind: &str) -> String {
    let mut text = unit.repeat(alloc, count).expect(rt, "memory");
    text.push_str(behind).expect(rt, "memory");
    text
}

// Choices fit just up to the limit of a text: one more does not, nor does the word of a registration.
#[test]
fn what_is_inserted_fits_up_to_the_limit(rt: HostRuntime) {
    let alloc = rt.alloc();
    for (keys, words) in [("Ka_<cj>", "long learned"), ("Ko_lx<ret>", "0 learned")] {
        let session = session_after_long(&rt, alloc, MANY, keys, words);
        expect_length(&rt, alloc, &session, MANY * LONG, "limit");
    }
}

// Tells how many bytes the text of a session has, and its notice.
fn expect_length<R: Abort>(rt: &R, alloc: Global, session: &Session, length: usize, notice: &str) {
    let told = session.notice(alloc).expect(rt, "memory");
    same((session.text().byte_len(), told.as_str()), (length, notice)).expect(rt, "as wanted");
}

// A word of more than 4,095 bytes stays in its registration, also where its last choice was learnt or refused; and a
// note stays in its line that has more of them with its candidate's word and the `*`.
static REGISTERED: [(&str, &str, usize, &str); 6] = [
    (
        "Ko_Ka_<cj>Ka_<ret>",
        "0 long learned long learned",
        0,
        "limit",
    ),
    ("Ko_Ka_<cj>Ka_<ret>", "0 long learned long disk", 0, "limit"),
    (
        "Ko_Ka_<cj>Ka_<cj><bs><ret>",
        "0 long learned long disk learned",
        4_095,
        "",
    ),
    (
        "Ko_Ka_<cj>Ka_<ret><bs><ret>",
        "0 long learned long learned disk",
        4_095,
        "refused disk",
    ),
    (
        "Ka_^Ka_<cj>Ka_<cj><bs><bs><bs><bs><ret>",
        "12 long learned long learned",
        0,
        "limit",
    ),
    (
        "Ka_^Ka_<cj>Ka_<cj><bs><bs><bs><bs><bs><ret>",
        "12 long learned long learned annotated",
        0,
        "annotated",
    ),
];

#[test]
fn registered_words_and_notes_have_a_limit(rt: HostRuntime) {
    for (keys, words, length, notice) in &REGISTERED {
        let session = session_after(&rt, rt.alloc(), keys, words);
        expect_length(&rt, rt.alloc(), &session, *length, notice);
    }
}

#[test]
fn sessions_have_a_mode_and_a_text(rt: HostRuntime) {
    let session = session_after(&rt, rt.alloc(), "KanaL<tab>Ka", "");
    expect_text(&rt, &session, Mode::Wide, "かなＫａ");
    expect_page(&rt, rt.alloc(), &session, "全英\tかなＫａ\t\nかなＫａ")
}

// Tells the mode and the text of a session.
fn expect_text<R: Abort>(rt: &R, session: &Session, mode: Mode, text: &str) {
    same(session.mode(), mode).expect(rt, "as wanted");
    same(session.text().as_str(), text).expect(rt, "as wanted");
}

// Tells the line of a session with its text behind it.
fn expect_page<R: Abort>(rt: &R, alloc: Global, session: &Session, wanted: &str) {
    let mut page = Text::new(alloc);
    session.push_line(alloc, &mut page).expect(rt, "memory");
    session.push_text(&mut page).expect(rt, "memory");
    same(page.as_str(), wanted).expect(rt, "as wanted");
}

#[test]
fn sessions_in_a_registration_have_the_mode_inside_and_the_text_outside(rt: HostRuntime) {
    let session = session_after(&rt, rt.alloc(), "aKo_iKi_lu", "0 0");
    expect_text(&rt, &session, Mode::Ascii, "あ");
    expect_page(&rt, rt.alloc(), &session, "SKK\t[[辞書登録]] き: u\t\nあ")
}
