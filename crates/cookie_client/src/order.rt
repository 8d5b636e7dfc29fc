//! Texts in the order in which numbers pick them.
ghost use Rattle.std.specs.Prelude.{◌≡◌, ◌<◌, length, IfOk, IsPermutation};

use std::alloc::{AllocError, Global};

// The place of a text.
#[derive(Clone, Copy)]
struct Place {
    // The number of texts that are left in the block of places that ends here. With places counted from 1, the size of
    // a block is the lowest bit of its end's number (a Fenwick tree).
    left: usize,
    // The turn in which its text is picked.
    turn: usize,
}

// `count` places, each with its text.
fn places(alloc: Global, count: usize) -> Result<Vec<Place>, AllocError>
    ensures { IfOk result (λ places. length places.items ≡ count) }
{
    let mut places = Vec::with_capacity(alloc, count)?;
    for place in 0..count {
        let end = place + 1;
        places.push(Place {
            left: end & end.wrapping_neg(),
            turn: 0,
        })?;
    }
    Ok(places)
}

// The place of the text that has this number among those that are left, which is picked.
fn pick_place(places: &mut [Place], number: usize) -> usize
    ensures { length places.new ≡ length places.old }
{
    let mut number = number;
    let mut place = 0usize;
    let mut width = places.len().next_power_of_two();
    while width > 0 {
        let end = place.saturating_add(width);
        if let Some(block) = places.get_mut(end - 1) {
            if number < block.left {
                block.left -= 1;
            } else {
                number -= block.left;
                place = end;
            }
        }
        width /= 2;
    }
    place
}

// The number of the text that a turn takes, among the texts that are left.
fn number_of(pick: &[usize], turn: usize, left: usize) -> usize
    requires { 0 < left }
    ensures { result < left }
{
    match pick.get(turn) {
        Some(number) => *number % left,
        None => 0,
    }
}

// Puts each text at its turn.
fn arrange(texts: &mut [String], places: &mut [Place])
    requires { length places.old ≡ length texts.old }
    ensures { IsPermutation texts.old texts.new }
{
    for place in 0..texts.len() {
        // An exchange brings a text to its turn, where it stays. So there are no more of them than texts in all.
        for _ in 0..texts.len() {
            let turn = places[place].turn;
            if turn == place || turn >= texts.len() {
                break;
            }
            texts.swap(place, turn);
            places.swap(place, turn);
        }
    }
}

// The texts in the order of `pick`, in time that grows as n log n for n texts.
pub(crate) fn reorder(
    alloc: Global,
    mut texts: Vec<String>,
    pick: &[usize],
) -> Result<Vec<String>, AllocError>
    ensures { IfOk result (λ ordered. IsPermutation texts.items ordered.items) }
{
    let count = texts.len();
    let mut places = places(alloc, count)?;
    for turn in 0..count {
        let place = pick_place(&mut places, number_of(pick, turn, count - turn));
        if let Some(place) = places.get_mut(place) {
            place.turn = turn;
        }
    }
    arrange(&mut texts, &mut places);
    Ok(texts)
}
