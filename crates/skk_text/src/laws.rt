ghost use Rattle.std.specs.Prelude.{◌≡◌, ◌⊎◌, ℕ, List, true};
ghost use Rattle.skk_text.specs.Kana.{is_hiragana, is_katakana, hiragana, katakana};
ghost use Rattle.skk_text.specs.KeyText.{spelled, AreKeys, HasBadName, HasNotAscii};
ghost use Rattle.skk_text.specs.declared.key.Key.{Key};

/// A text is the spelling of one list of keys at most.
pub fn one_list_of_keys()
    ensures { (keys others : List Key) → AreKeys keys → AreKeys others → spelled keys ≡ spelled others → keys ≡ others }
{}

/// A text that has a fault is the spelling of no keys, and has its fault at one place.
pub fn one_fault_of_key_text()
    ensures no_keys { (text : List ℕ) (keys : List Key) (at : ℕ) → AreKeys keys → spelled keys ≡ text
        → ¬ (HasBadName text at ⊎ HasNotAscii text at) }
    ensures one_place { (text : List ℕ) (at other : ℕ) → HasBadName text at ⊎ HasNotAscii text at
        → HasBadName text other ⊎ HasNotAscii text other → at ≡ other }
{}

/// Hiragana and katakana that have each other go forth and back.
pub fn kana_pairs()
    ensures hiragana { (c : ℕ) → is_hiragana c ≡ true → hiragana (katakana c) ≡ c }
    ensures katakana { (c : ℕ) → is_katakana c ≡ true → katakana (hiragana c) ≡ c }
{}
