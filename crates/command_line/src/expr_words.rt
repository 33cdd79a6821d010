ghost use Rattle.std.specs.Prelude.{◌≡◌, ◌≤◌, Some, length, IfSome, MatchOption};
ghost use Rattle.command_line.specs.Expr.{AreNoneOrBeyond, behind, expr_of, names_file, sign_of, term_of, terms_of};

use crate::word::Word;
use arrayvec::ArrayVec;

/// The most files of `expr` behind the first.
pub const TERMS: usize = 15;

/// What is done with a file.
#[derive(Clone, Copy, Debug, PartialEq, Eq)]
pub enum Sign {
    /// What it has is added.
    Plus,
    /// What it has is taken away.
    Minus,
}

/// A file of `expr` behind the first, with its sign.
#[derive(Drop)]
pub struct Term<'a> {
    pub sign: Sign,
    pub name: Word<'a>,
}

impl<'a> Default for Term<'a> {
    fn default() -> Term<'a> {
        Term {
            sign: Sign::Plus,
            name: Word::empty(),
        }
    }
}

/// The files of `expr`.
#[derive(Drop)]
pub struct ExprOptions<'a> {
    /// The first.
    pub first: Word<'a>,
    /// Those behind it, in order.
    pub terms: ArrayVec<Term<'a>, TERMS>,
}

/// The files that the words behind `expr` are, where they are files with a sign before each but the first, and no more
/// than 16. Takes no memory.
pub fn read_expr<'a>(words: &'a [Word<'a>]) -> Option<ExprOptions<'a>>
    ensures { result ≡ expr_of words.entry.now }
{
    let (first, rest) = words.split_first()?;
    if !names_file(first) {
        return None;
    }
    let terms = read_behind(ArrayVec::new(), rest)?;
    Some(ExprOptions {
        first: first.again(),
        terms,
    })
}

// Files, and behind them those that words are.
fn read_behind<'a>(
    terms: ArrayVec<Term<'a>, TERMS>,
    words: &'a [Word<'a>],
) -> Option<ArrayVec<Term<'a>, TERMS>>
    requires { length terms.items ≤ 15 }
    ensures read { MatchOption result (AreNoneOrBeyond (behind terms.entry.items (terms_of words.now)))
        (λ all. behind terms.entry.items (terms_of words.now) ≡ Some all.items) }
    ensures few { IfSome result (λ all. length all.items ≤ 15) }
{
    let Some((sign, rest)) = words.split_first() else {
        return Some(terms);
    };
    let (name, more) = rest.split_first()?;
    let term = term_of(sign, name)?;
    let mut terms = terms;
    terms.try_push(term).ok()?;
    read_behind(terms, more)
}

// The file that two words are, the first its sign.
fn term_of<'a>(sign: &Word<'a>, name: &Word<'a>) -> Option<Term<'a>>
    ensures { result ≡ term_of sign.now name.now }
{
    let sign = sign_of(sign)?;
    if !names_file(name) {
        return None;
    }
    Some(Term {
        sign,
        name: name.again(),
    })
}

// The sign that a word is.
fn sign_of(word: &Word) -> Option<Sign>
    ensures { result ≡ sign_of word.now }
{
    match word.as_str() {
        "+" => Some(Sign::Plus),
        "-" => Some(Sign::Minus),
        _ => None,
    }
}

// Whether a word names a file there: it may be a file's name, and is no sign.
fn names_file(word: &Word) -> bool
    ensures { result ≡ names_file word.now }
{
    word.is_name() && word.as_str() != "+"
}
