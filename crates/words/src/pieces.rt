// The pieces of a word: what each step of it is.
ghost use Rattle.std.specs.Prelude.{◌≡◌, ◌≤◌, ◌<◌, length, get_or};
ghost use Rattle.words.specs.Pieces as pieces;

use crate::coding::rule_in;
use crate::fields::{code, count, first_byte, from, is_lost, last_byte, second_byte, slot};
use meaning::Rule;
use rules::short::{Short, short_rule};

#[derive(Clone, Copy)]
pub enum Piece {
    // A byte that stands for itself, so many times.
    Times {
        byte: u8,
        count: usize,
    },
    // Bytes that the row holds from a place on; a write may lose the last of them.
    Held {
        from: usize,
        count: usize,
        lost: bool,
    },
    // A symbol with its rule.
    Symbol(Rule),
}

// One of the numbers that patterns have most, by its slot; any other slot is the day.
#[tactic(auto, unfolding(crate::specs::Pieces::short_in))]
pub fn short_in(n: usize) -> Short
    ensures { result ≡ pieces.short_in n }
{
    match n {
        0 => Short::Month,
        2 => Short::Hour,
        3 => Short::Minute,
        4 => Short::Second,
        _ => Short::Day,
    }
}

// 1 where a byte stands behind all else.
fn behind_count(w: u64) -> usize
    ensures { (result ≡ length (pieces.behind w)) × (result ≤ 1) }
{
    if last_byte(w) == 0 { 0 } else { 1 }
}

// How many pieces a word has.
// An arm for each code, as the definition of a word has a row.
pub fn piece_count(w: u64) -> usize
    ensures { (result ≡ length (pieces.pieces_in w)) × (result ≤ 6) }
{
    let behind = behind_count(w);
    match code(w) {
        1 => 1,
        3 => 1 + behind,
        4 => 1 + behind,
        9 => 1 + behind,
        10 => 5 + behind,
        15 => 5 + behind,
        22 => 1 + behind,
        29 => 1,
        30 => 1,
        31 => 1,
        _ => 0,
    }
}

fn once(b: u8) -> Piece
    ensures { result ≡ pieces.once b }
{
    Piece::Times { byte: b, count: 1 }
}

fn shortly(number: Short, digits: u8) -> Piece
    ensures { result ≡ pieces.shortly number digits }
{
    Piece::Symbol(short_rule(number, digits))
}

// y, so many times.
fn yearly(digits: usize) -> Piece
    ensures { result ≡ pieces.yearly digits }
{
    Piece::Symbol(if digits <= 4 {
        Rule::Years(digits)
    } else {
        Rule::FixedYear(digits)
    })
}

// The first piece of a word that has one.
// An arm for each code, as there.
pub fn first_piece(w: u64) -> Piece
    ensures { result ≡ get_or (pieces.pieces_in w) 0 (pieces.once 0) }
{
    match code(w) {
        1 => once(last_byte(w)),
        3 => shortly(short_in(slot(w)), 2),
        4 => shortly(short_in(slot(w)), 1),
        9 => yearly(slot(w)),
        10 => shortly(Short::Hour, 2),
        15 => yearly(4),
        22 => Piece::Symbol(rule_in(w)),
        29 => yearly(count(w)),
        30 => Piece::Times {
            byte: last_byte(w),
            count: count(w),
        },
        31 => Piece::Held {
            from: from(w),
            count: count(w),
            lost: is_lost(w),
        },
        _ => once(0),
    }
}

// Behind the first of three numbers: the other two, and the bytes.
fn of_three(second: Short, third: Short, w: u64, k: usize) -> Piece
    ensures { result ≡ get_or (pieces.three (pieces.once 0) (pieces.shortly second 2) (pieces.shortly third 2) w) k (pieces.once 0) }
{
    match k {
        1 => once(first_byte(w)),
        2 => shortly(second, 2),
        3 => once(second_byte(w)),
        4 => shortly(third, 2),
        5 => once(last_byte(w)),
        _ => once(0),
    }
}

// The k-th piece of a word.
// Only the two codes of three numbers have more than a piece and a byte.
pub fn piece_in(w: u64, k: usize) -> Piece
    requires { k < length (pieces.pieces_in w) }
    ensures { result ≡ get_or (pieces.pieces_in w) k (pieces.once 0) }
{
    if k == 0 {
        return first_piece(w);
    }
    match code(w) {
        10 => of_three(Short::Minute, Short::Second, w, k),
        15 => of_three(Short::Month, Short::Day, w, k),
        _ => once(last_byte(w)),
    }
}
