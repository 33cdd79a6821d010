ghost use Rattle.std.specs.Prelude.{◌≡◌, ℕ, true, List, [], map};
ghost use Rattle.std.specs.List.{list_all};
ghost use Rattle.skk_calls.specs.Rows.{Row, is_row, keys_differ};
ghost use Rattle.skk_calls.specs.States.{row_in};
ghost use Rattle.dict_format.specs.declared.file.Listed.{Listed};
ghost use Rattle.dict_format.specs.FileLines.{Lists};
ghost use Rattle.dict_format.specs.PrintedFiles.{without_stamp};
ghost use Rattle.dict_expr.specs.Books.{difference, in_order, says_something, sum};
ghost use Rattle.dict_expr.specs.Lacking.{row_lacks};

/// A dictionary without itself has no row.
pub fn nothing_is_left_without_itself()
    ensures { (rows : List Row) → keys_differ rows ≡ true → list_all is_row rows ≡ true → difference rows rows ≡ [] }
{}

/// A dictionary with itself has its own rows, in the order of their keys and with stamp 0.
pub fn nothing_is_added_by_itself()
    ensures { (rows : List Row) → keys_differ rows ≡ true → list_all is_row rows ≡ true
        → sum rows rows ≡ map without_stamp (in_order rows) }
{}

/// What is left of a dictionary without another has no word of it: neither that of a candidate nor one of a block of
/// the same okurigana, and it hides none that the other hides. So what is added is taken away again.
pub fn no_word_is_left_of_another()
    ensures any { (rows others : List Row)
        → list_all (λ row. row_lacks row (row_in row.key others)) (difference rows others) ≡ true }
    ensures added { (rows others : List Row)
        → list_all (λ row. row_lacks row (row_in row.key others)) (difference (sum rows others) others) ≡ true }
{}

/// The rows that a file lists say something, so that sums and differences of files can be printed and read again.
pub fn rows_of_files_say_something()
    ensures { (bytes : List ℕ) (listed : Listed) → Lists bytes listed → list_all says_something listed.book ≡ true }
{}
