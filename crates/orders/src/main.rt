// Prints counts and places of monomials that can be checked by hand, with the refusals at each bound, and walks through
// all places of some cases, comparing neighbours by degree and exponents alone.
#![tactic(auto)]

use std::cmp::Ordering;
use std::{fmt, io};

// What a call answers: a number, or that it refuses.
#[derive(Clone, Copy)]
struct Answer(Option<usize>);

impl fmt::Display for Answer {
    fn fmt<W: fmt::Write>(&self, f: &mut fmt::Formatter<W>) -> fmt::Result {
        match self.0 {
            Some(number) => write!(f, "{number}"),
            None => write!(f, "refused"),
        }
    }
}

fn show_unrank(
    rt: &impl Print,
    place: usize,
    degree: usize,
    exponents: &mut [u8],
) -> io::Result<()> {
    if monomials::unrank(place, degree, exponents) {
        println!(rt; "unrank {place} {degree}: {exponents:?}")
    } else {
        println!(rt; "unrank {place} {degree}: refused, {exponents:?} kept")
    }
}

fn degree_of(exponents: &[u8]) -> usize {
    exponents
        .iter()
        .fold(0, |total: usize, &x| total.wrapping_add(usize::from(x)))
}

// By degree, and then the one with the larger exponent at the first difference first.
fn order(first: &[u8], second: &[u8]) -> Ordering {
    degree_of(first)
        .cmp(&degree_of(second))
        .then_with(|| second.cmp(first))
}

// Whether the monomial at the place has this place, and the one at the next place, if there is any, comes after it.
fn stands(place: usize, degree: usize, here: &mut [u8], next: &mut [u8]) -> bool {
    monomials::unrank(place, degree, here)
        && monomials::rank(here) == Some(place)
        && (!monomials::unrank(place.wrapping_add(1), degree, next) || order(here, next).is_lt())
}

// How many places, from 0 on, stand.
fn walk(degree: usize, here: &mut [u8], next: &mut [u8]) -> usize {
    let monomials = monomials::count(here.len(), degree).unwrap_or(0);
    (0..monomials)
        .take_while(|&place| stands(place, degree, here, next))
        .count()
}

fn show_counts(rt: &impl Print) -> io::Result<()> {
    for (variables, degree) in [
        (0, 0),
        (0, 75),
        (0, 76),
        (1, 7),
        (2, 4),
        (4, 4),
        (24, 6),
        (24, 7),
        (24, 51),
        (24, 52),
        (25, 0),
        (3, usize::MAX),
    ] {
        let answer = Answer(monomials::count(variables, degree));
        println!(rt; "count {variables} {degree}: {answer}")?;
    }
    Ok(())
}

fn show_ranks(rt: &impl Print) -> io::Result<()> {
    let all: [&[u8]; 12] = [
        &[0, 0],
        &[1, 0],
        &[0, 1],
        &[2, 0],
        &[1, 1],
        &[0, 2],
        &[0, 73],
        &[0, 74],
        &[],
        &[255],
        &[0; 24],
        &[0; 25],
    ];
    for exponents in all {
        let answer = Answer(monomials::rank(exponents));
        println!(rt; "rank {exponents:?}: {answer}")?;
    }
    Ok(())
}

fn show_places(rt: &impl Print) -> io::Result<()> {
    for place in [0, 4, 14, 15] {
        show_unrank(rt, place, 4, &mut [7, 7])?;
    }
    show_unrank(rt, 0, 73, &mut [7, 7])?;
    show_unrank(rt, 0, 74, &mut [7, 7])?;
    show_unrank(rt, 593_774, 6, &mut [0; 24])?;
    show_unrank(rt, 0, 7, &mut [0; 24])?;
    show_unrank(rt, 0, 0, &mut [9; 25])
}

fn main(rt: HostRuntime) -> io::Result<()> {
    show_counts(&rt)?;
    show_ranks(&rt)?;
    show_places(&rt)?;
    let two = walk(12, &mut [0; 2], &mut [0; 2]);
    let four = walk(6, &mut [0; 4], &mut [0; 4]);
    let ten = walk(4, &mut [0; 10], &mut [0; 10]);
    println!(rt; "in order: {two} {four} {ten}")
}
