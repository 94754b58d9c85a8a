// The check of a book's names, 23: list by list, each name by itself and against the earlier ones of its list.
ghost use Rattle.std.specs.Prelude.{◌∷◌, ◌≡◌, suc, ◌+◌, ◌≤◌, ◌<◌, length, drop};
ghost use Rattle.books.specs.Places.{names_by, earlier};
ghost use Rattle.books.specs.Shelves.{meant, good_at, list_check};
ghost use Rattle.meaning.specs.Books.{shelves, apart_from, names_check};

use crate::names::{all_letters, are_apart, name_at};
use meaning::Refusal;

// A list: how many names, how many letters each has, and whether no name may begin another.
#[derive(Clone, Copy)]
pub struct Shelf {
    pub count: usize,
    pub least: usize,
    pub most: usize,
    pub apart: bool,
}

// In book order: wide and short months; wide, short, two-letter and narrow weekdays; narrow months.
const SHELVES: [Shelf; 7] = [
    Shelf {
        count: 12,
        least: 2,
        most: 20,
        apart: true,
    },
    Shelf {
        count: 12,
        least: 2,
        most: 20,
        apart: true,
    },
    Shelf {
        count: 7,
        least: 2,
        most: 20,
        apart: true,
    },
    Shelf {
        count: 7,
        least: 3,
        most: 3,
        apart: false,
    },
    Shelf {
        count: 7,
        least: 2,
        most: 2,
        apart: false,
    },
    Shelf {
        count: 7,
        least: 1,
        most: 1,
        apart: false,
    },
    Shelf {
        count: 12,
        least: 1,
        most: 1,
        apart: false,
    },
];

// A name against so many from the first of its list on.
fn is_apart(bytes: &[u8], places: &[usize], first: usize, count: usize, name: &[u8]) -> bool
    requires { first + count ≤ length places.now }
    ensures { result ≡ apart_from (earlier bytes.now places.now first count) name.now }
{
    places[first..first + count]
        .iter()
        .all(|&place| are_apart(name_at(bytes, place), name))
}

// The name behind so many from the first of its list on.
#[tactic(auto, unfolding(meaning::specs::Books::is_good))]
fn is_good(bytes: &[u8], places: &[usize], shelf: Shelf, first: usize, count: usize) -> bool
    requires { first + count < length places.now }
    ensures { result ≡ good_at shelf bytes.now places.now first count }
{
    let name = name_at(bytes, places[first + count]);
    shelf.least <= name.len()
        && name.len() <= shelf.most
        && all_letters(name)
        && (!shelf.apart || is_apart(bytes, places, first, count, name))
}

fn check_shelf(bytes: &[u8], places: &[usize], shelf: Shelf, first: usize) -> Result<(), Refusal>
    requires places_len { length places.now ≡ 64 }
    requires count_bound { first + shelf.count ≤ 64 }
    ensures { result ≡ list_check shelf bytes.now places.now first }
{
    // Over numbers: a name is looked at with all those before it, which no iterator over the places hands out.
    for count in 0..shelf.count {
        if !is_good(bytes, places, shelf, first, count) {
            return Err(Refusal::BookName((first + count + 1) as u32));
        }
    }
    Ok(())
}

pub fn check_names(bytes: &[u8], places: &[usize]) -> Result<(), Refusal>
    requires { length places.now ≡ 64 }
    ensures { result ≡ names_check shelves 1 (names_by bytes.now places.now) }
{
    let mut first = 0;
    for &shelf in &SHELVES {
        check_shelf(bytes, places, shelf, first)?;
        first += shelf.count;
    }
    Ok(())
}
