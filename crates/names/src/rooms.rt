// The lists of an opened book: the weekdays and months, by the numbers of their tables.
ghost use Rattle.std.specs.Prelude.{◌≡◌, ◌≤◌, ◌<◌};
ghost use Rattle.names.specs.Lists.{list_at};
ghost use Rattle.names.specs.Table.{InBook};

// The size of the row of an opened book: 64 rooms.
pub const OPENED: usize = 1344;

// Where a list begins, how many names it has, and how many letters they have at most.
#[derive(Clone, Copy)]
pub struct Rooms {
    pub from: usize,
    pub count: usize,
    pub most: usize,
}

fn at(from: usize, count: usize, most: usize) -> Rooms
    ensures { result ≡ record { from = from; count = count; most = most } }
{
    Rooms { from, count, most }
}

#[tactic(auto, unfolding(meaning::specs::Names::names))]
pub fn rooms_of(table: usize) -> Rooms
    requires { (10 ≤ table) × (table < 17) }
    ensures { InBook result (list_at table) }
{
    match table {
        10 => at(504, 7, 20),
        11 => at(651, 7, 3),
        12 => at(798, 7, 2),
        13 => at(945, 7, 1),
        14 => at(0, 12, 20),
        15 => at(252, 12, 20),
        _ => at(1092, 12, 1),
    }
}
