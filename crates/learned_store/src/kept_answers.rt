ghost use Rattle.std.specs.Prelude.{◌≡◌, ◌⊎◌, ℕ, List, Option, None, Some, [], if◌then◌else◌, is_some, true, IfOk};
ghost use Rattle.std.specs.Prelude.{string_bytes, encode_utf8_all};
ghost use Rattle.std.specs.Option.{option_copied};
ghost use Rattle.skk_calls.specs.declared.call.Call.{Call as call_value};
ghost use Rattle.skk_calls.specs.declared.call.Call.TheVariants.{Lookup};
ghost use Rattle.skk_calls.specs.declared.part.Part.{Part as part_value};
ghost use Rattle.skk_calls.specs.Rows.{RowKey as key_value, Cand, same_text};
ghost use Rattle.learned_store.specs.KeptLookUps.{cands_among, cands_in, is_of, kept_cands, IsAnswerOf};

use crate::kept_answer::KeptAnswer;
use lru::LruCache;
use skk_calls::{Call, Cands, FoundCands, FoundItems, Okuri, Part, RowKey};
use skk_text::{Copies, Memory, Sequence};
use std::alloc::Global;
use std::marker::Model;
use std::num::NonZeroUsize;

// Of so many readings answers are kept.
const READINGS: usize = 1024;

// So many answers are kept of a reading.
const ANSWERS: usize = 8;

// The words and notes of an answer that is kept have at most so many bytes together, or the text in which they lie.
const BYTES: usize = 4096;

// The answers that are kept of a reading.
type Answers = Sequence<KeptAnswer>;

// What was found by look-ups. Where there is no place for a reading more, what is kept of the one goes that was used
// longest ago; and where there is none for an answer more, all that is kept of its reading.
#[derive(Drop)]
pub(crate) struct KeptAnswers {
    readings: LruCache<String, Answers>,
}

impl Model for KeptAnswers {
    ghost use Rattle.learned_store.specs.KeptLookUps.{KeptReadings};

    ghost Value = { KeptReadings };

    ghost view = { λ k. k.readings.entries };
}

impl KeptAnswers {
    // Nothing is kept. Takes constant memory.
    pub(crate) fn new(alloc: Global) -> Result<KeptAnswers, Memory>
        ensures { IfOk result (λ kept. kept ≡ []) }
    {
        let most = NonZeroUsize::new(READINGS).unwrap();
        Ok(KeptAnswers {
            readings: LruCache::sparse(alloc, most)?,
        })
    }

    // Whether something is kept of a call. Takes no memory, and is no use of it.
    pub(crate) fn has(&self, call: &Call) -> bool
        ensures { result ≡ is_some (kept_cands self.now call.now) }
    {
        self.cands_of(call).is_some()
    }

    // What is kept of a call, copied.
    pub(crate) fn answer(
        &mut self,
        alloc: Global,
        call: &Call,
    ) -> Result<Option<FoundCands>, Memory>
        ensures value { IfOk result (λ cands. cands ≡ kept_cands self.old call.now) }
        ensures same { (other : call_value) → kept_cands self.new other ≡ kept_cands self.old other }
    {
        self.touch(call);
        match self.cands_of(call) {
            Some(cands) => Ok(Some(cands.copy(alloc)?)),
            None => Ok(None),
        }
    }

    // Keeps what was found by a look-up, unless it is long or out of memory.
    pub(crate) fn keep(&mut self, alloc: Global, call: &Call, cands: &FoundCands)
        ensures { (other : call_value) (found : List Cand) → kept_cands self.new other ≡ Some found
            → (kept_cands self.old other ≡ Some found) ⊎ ((other ≡ call.now) × (found ≡ cands.now)) }
    {
        let Call::Lookup { who, key, okuri } = call else {
            return;
        };
        if !is_short(cands) {
            return;
        }
        let kept = KeptAnswer::copied(alloc, key.part(), *who, okuri.as_ref(), cands);
        let reading = String::from_str(alloc, key.reading().as_str());
        if let (Ok(kept), Ok(reading)) = (kept, reading) {
            self.put(alloc, key, reading, kept);
        }
    }

    // Lets go what is kept of a reading, in either part.
    pub(crate) fn forget(&mut self, key: &RowKey)
        ensures { (who : ℕ) (other : key_value) (okuri : Option (List ℕ)) →
            kept_cands self.new (Lookup who other okuri)
            ≡ (if same_text other.reading key.now.reading then None else kept_cands self.old (Lookup who other okuri)) }
    {
        // The number of readings tells that they differ.
        let _differ = self.readings.len();
        self.readings.pop(key.reading().as_str());
    }

    // Lets go all that is kept.
    pub(crate) fn clear(&mut self)
        ensures { self.new ≡ [] }
    {
        self.readings.clear();
    }

    // What is kept of a call.
    fn cands_of(&self, call: &Call) -> Option<&FoundCands>
        ensures { option_copied result ≡ kept_cands self.now call.now }
    {
        match call {
            Call::Lookup { who, key, okuri } => {
                let answers = self.readings.peek(key.reading().as_str())?;
                cands_in(answers.as_slice(), key.part(), *who, okuri.as_ref())
            }
            _ => None,
        }
    }

    // Makes the reading of a look-up the one that was used last.
    fn touch(&mut self, call: &Call)
        ensures { (other : call_value) → kept_cands self.new other ≡ kept_cands self.old other }
    {
        if let Call::Lookup { key, .. } = call {
            self.readings.promote(key.reading().as_str());
        }
    }

    // Keeps an answer under the reading of its key, unless it is out of memory.
    fn put(&mut self, alloc: Global, key: &RowKey, reading: String, kept: KeptAnswer)
        requires { string_bytes reading ≡ encode_utf8_all key.now.reading }
        ensures { (other : call_value) (found : List Cand) → kept_cands self.new other ≡ Some found
            → (kept_cands self.old other ≡ Some found) ⊎ IsAnswerOf (string_bytes reading) kept other found }
    {
        // The number of readings tells that they differ.
        let _differ = self.readings.len();
        let answers = with_room(alloc, self.readings.pop(key.reading().as_str()));
        let answers = with_answer(answers, kept);
        let _ = self.readings.put(reading, answers);
    }
}

// The candidates of the first answer that is that of a look-up.
fn cands_in<'a>(
    answers: &'a [KeptAnswer],
    part: Part,
    who: u16,
    okuri: Option<&Okuri>,
) -> Option<&'a FoundCands>
    ensures { option_copied result ≡ cands_in part who (option_copied okuri.entry) answers.now }
{
    let answer = answers
        .iter()
        .find(|answer| answer.is_of(part, who, okuri))?;
    Some(&answer.cands)
}

// The answers of a reading, or none where there is no place for one more.
fn with_room(alloc: Global, answers: Option<Answers>) -> Answers
    ensures { (part : part_value) (who : ℕ) (okuri : Option (List ℕ)) (found : List Cand) →
        cands_in part who okuri result ≡ Some found → cands_among part who okuri answers ≡ Some found }
{
    match answers {
        Some(answers) if answers.len() < ANSWERS => answers,
        _ => Answers::new(alloc),
    }
}

// The answers with one more, unless it is out of memory.
fn with_answer(answers: Answers, kept: KeptAnswer) -> Answers
    ensures { (part : part_value) (who : ℕ) (okuri : Option (List ℕ)) (found : List Cand) →
        cands_in part who okuri result ≡ Some found → (cands_in part who okuri answers ≡ Some found)
        ⊎ ((is_of part who okuri kept ≡ true) × (kept.cands ≡ found)) }
{
    let mut answers = answers;
    let _ = answers.push(kept);
    answers
}

// Whether what was found has few enough bytes to be kept.
fn is_short(found: &FoundCands) -> bool {
    let bytes = match found.items() {
        FoundItems::Distinct(cands) => bytes_of(cands.cands()),
        FoundItems::Plain(cands) => cands.text().byte_len(),
    };
    bytes <= BYTES
}

// How many bytes the words and notes of candidates have together.
fn bytes_of(cands: &Cands) -> usize {
    let mut bytes: usize = 0;
    for cand in cands.as_slice() {
        bytes = bytes.saturating_add(cand.word().byte_len());
        bytes = bytes.saturating_add(cand.note().byte_len());
    }
    bytes
}
