ghost use Rattle.std.specs.Prelude.{◌≡◌, ◌≢◌, ◌↔◌, ◌≤◌, ◌⊎◌, Some, Ok, ℕ, true, List, [], ◌∷◌, map, length};
ghost use Rattle.std.specs.Prelude.{encode_utf8_all};
ghost use Rattle.std.specs.List.{flat_map, list_all};
ghost use Rattle.std.specs.List.Sorted.{IsPermutation};
ghost use Rattle.std.specs.Str.{IsUtf8};
ghost use Rattle.skk_calls.specs.declared.part.Part.{Part};
ghost use Rattle.skk_calls.specs.Canonical.{canonical, is_good, item, with_slash};
ghost use Rattle.skk_calls.specs.Rows.{Cand, Row, is_cand, is_note, is_row, keys_differ};
ghost use Rattle.exact_readers.specs.Lacking.{lacks};
ghost use Rattle.dict_format.specs.declared.file.Listed.{Listed};
ghost use Rattle.dict_format.specs.declared.reason.LineReason.{LineReason};
ghost use Rattle.dict_format.specs.EntryRows.{HasKey, listed_rows, row_of_line};
ghost use Rattle.dict_format.specs.FileLines.{Lists, TakeAll, entries_of, file_limit, none_listed};
ghost use Rattle.dict_format.specs.ItemsAlone.{item_alone};
ghost use Rattle.dict_format.specs.Lines.{SpellsRow};
ghost use Rattle.dict_format.specs.PrintedFiles.{in_printing_order, printed_file, without_stamp};
ghost use Rattle.dict_format.specs.Reading.{texts_at};
ghost use Rattle.dict_format.specs.Reasons.{IsReason};

/// Each line of a part spells a row or has a first reason why it spells none, and never both.
pub fn lines_spell_rows_or_have_reasons()
    ensures one { (part : Part) (line : List ℕ)
        → ((row : Row) × SpellsRow part line row) ⊎ ((first : LineReason) × IsReason part line first) }
    ensures not_both { (part : Part) (line : List ℕ) (row : Row) (first : LineReason) → SpellsRow part line row
        → IsReason part line first → ⊥ }
{}

/// A line spells one row at most, which is a row and the one that is read of it, and has one first reason at most.
pub fn lines_spell_one_row()
    ensures row { (part : Part) (line : List ℕ) (row other : Row) → SpellsRow part line row
        → SpellsRow part line other → row ≡ other }
    ensures read { (part : Part) (line : List ℕ) (row : Row)
        → SpellsRow part line row ↔ (row_of_line part line ≡ Some row) }
    ensures valid { (part : Part) (line : List ℕ) (row : Row) → SpellsRow part line row → is_row row ≡ true }
    ensures key { (part : Part) (line : List ℕ) (row : Row) → SpellsRow part line row → HasKey part line row }
    ensures reason { (part : Part) (line : List ℕ) (first other : LineReason) → IsReason part line first
        → IsReason part line other → first ≡ other }
{}

/// The canonical line of a good row spells that row, with stamp 0: a learned dictionary can be read again.
pub fn good_rows_are_read_again()
    ensures { (row : Row) → is_row row ≡ true → is_good row ≡ true
        → SpellsRow row.key.part (canonical row) (record row { stamp = 0 }) }
{}

/// What is printed of a candidate is read again as the candidate, also where it stands by itself: it holds no slash and
/// ends no line.
pub fn items_are_read_again()
    ensures read { (cand : Cand) → is_cand cand ≡ true → item_alone (item cand) ≡ Ok (Some cand) }
    ensures characters { (cand : Cand) → is_cand cand ≡ true → is_note (item cand) ≡ true }
{}

/// A body has one list of texts between its slashes at most, which hold none, and is that list with its slashes.
pub fn bodies_have_one_list_of_texts()
    ensures body { (body : List ℕ) (texts : List (List ℕ)) → texts_at body ≡ Some texts
        → (body ≡ 0x2F ∷ flat_map with_slash texts) × (list_all (lacks 0x2F) texts ≡ true) }
    ensures texts { (texts : List (List ℕ)) → texts ≢ [] → list_all (lacks 0x2F) texts ≡ true
        → texts_at (0x2F ∷ flat_map with_slash texts) ≡ Some texts }
{}

/// A file that is printed has the rows of its book, all of them and no other, whose keys still differ; and rows that
/// are in printing order stay where they are.
pub fn printing_order_moves_rows()
    ensures same_rows { (rows : List Row) → IsPermutation rows (in_printing_order rows) }
    ensures keys { (rows : List Row) → keys_differ rows ≡ true → keys_differ (in_printing_order rows) ≡ true }
    ensures once { (rows : List Row) → keys_differ rows ≡ true
        → in_printing_order (in_printing_order rows) ≡ in_printing_order rows }
{}

/// The file that is printed of good rows whose keys differ lists them again, in printing order and with stamp 0, and no
/// bad line, where it is not too long and is UTF-8: a dictionary that is written out can be read again. However long it
/// is, its entries come to these rows.
pub fn printed_files_are_read_again()
    ensures lists { (rows : List Row) → keys_differ rows ≡ true → list_all is_row rows ≡ true
        → list_all is_good rows ≡ true → length (encode_utf8_all (printed_file rows)) ≤ file_limit
        → IsUtf8 (encode_utf8_all (printed_file rows))
        → Lists (encode_utf8_all (printed_file rows))
        (record { book = map without_stamp (in_printing_order rows); bad = [] }) }
    ensures entries { (rows : List Row) → keys_differ rows ≡ true → list_all is_row rows ≡ true
        → list_all is_good rows ≡ true → IsUtf8 (encode_utf8_all (printed_file rows))
        → TakeAll none_listed (entries_of (encode_utf8_all (printed_file rows)))
        (record { book = map without_stamp (in_printing_order rows); bad = [] }) }
{}

/// The bytes of a file list one thing at most, and those of each file that is not too long and is UTF-8 list something:
/// what a file comes to is never open. Its rows are those that its entries spell, the first of each key.
pub fn files_list_one_thing()
    ensures once { (bytes : List ℕ) (listed other : Listed) → Lists bytes listed → Lists bytes other → listed ≡ other }
    ensures some { (bytes : List ℕ) → length bytes ≤ file_limit → IsUtf8 bytes
        → (listed : Listed) × Lists bytes listed }
    ensures rows { (bytes : List ℕ) (listed : Listed) → Lists bytes listed
        → listed.book ≡ listed_rows (entries_of bytes) }
{}
