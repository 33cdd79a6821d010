ghost use Rattle.std.specs.Prelude.{◌≡◌, ◌<◌, true, nat_lt};
ghost use Rattle.std.specs.Option.{option_copied};
ghost use Rattle.std.specs.Vec.{vec_len, vec_capacity};
ghost use Rattle.skk_calls.specs.Orders.{insert_by};
ghost use Rattle.skk_calls.specs.States.{list_in, lists_ascend, with_list, without_list};

use ordered_lists::{Keyed, has_key_at, item_of, place_of};
use skk_calls::{BookList, TypistList};
use std::cmp::Ordering;

// A typist whose list is looked for.
#[derive(Drop)]
struct Typist {
    number: u16,
}

/// Lists of books stand in order by their typists.
impl Keyed<Typist> for TypistList {
    ghost use Rattle.std.specs.Prelude.{ℕ};
    ghost use Rattle.ordered_lists.specs.KeyOrders.{number_keys};

    ghost Key = { ℕ };

    ghost keys = { number_keys };

    ghost key = { λ list. list.typist };

    ghost sought_key = { λ typist. typist.number };

    fn compare(&self, sought: &Typist) -> Ordering {
        self.typist.cmp(&sought.number)
    }
}

/// The list of a typist. Takes a logarithm in the number of lists, and no memory.
pub fn list_of(lists: &[TypistList], typist: u16) -> Option<&TypistList>
    requires { lists_ascend lists.now ≡ true }
    ensures { option_copied result ≡ list_in typist lists.now }
{
    item_of(lists, &Typist { number: typist })
}

/// Gives a typist a list of books, or takes the typist's list away where that is the one of the shared book alone.
/// Takes a logarithm in the number of lists to find its place, moves the lists behind it where it is new or goes, and
/// takes no memory.
pub fn put_list(lists: &mut Vec<TypistList>, typist: u16, books: BookList)
    requires ascend { lists_ascend lists.old.items ≡ true }
    requires room { vec_len lists.old < vec_capacity lists.old }
    ensures { lists.new.items ≡ with_list typist books lists.old.items }
{
    if books.is_same(&BookList::of_shared()) {
        take_list(lists, typist);
    } else {
        set_list(lists, TypistList { typist, books });
    }
}

// Takes the list of a typist out, where there is one.
fn take_list(lists: &mut Vec<TypistList>, typist: u16)
    requires { lists_ascend lists.old.items ≡ true }
    ensures { lists.new.items ≡ without_list typist lists.old.items }
{
    let sought = Typist { number: typist };
    let place = place_of(lists, &sought);
    if has_key_at(lists, place, &sought) {
        let _taken = lists.remove(place);
    }
}

// Puts a list in place of that of its typist.
fn set_list(lists: &mut Vec<TypistList>, list: TypistList)
    requires ascend { lists_ascend lists.old.items ≡ true }
    requires room { vec_len lists.old < vec_capacity lists.old }
    ensures { lists.new.items ≡ insert_by (λ one other. nat_lt one.typist other.typist) list
        (without_list list.typist lists.old.items) }
{
    let sought = Typist {
        number: list.typist,
    };
    let place = place_of(lists, &sought);
    if has_key_at(lists, place, &sought) {
        lists[place] = list;
    } else {
        let _fits = lists.insert(place, list);
    }
}
