//! The calls, and reading one from a line.
ghost use Rattle.std.specs.Prelude.{◌≡◌, IfOk};
ghost use Rattle.zimborae.specs.Words.{paired};

use super::why::Why;
use super::words::{end, number};
use problems::quantity::{RowEnds, Span};
use std::alloc::{AllocError, Global};

/// Whom to ask.
#[derive(Clone, Copy, PartialEq, Eq, Debug)]
pub enum Pile {
    Halving,
}

/// A call with what it was given.
#[derive(Drop)]
pub enum Call {
    New { n: i64, ends: Vec<Span> },
    Row { coefs: Vec<i64>, ends: RowEnds },
    Open,
    Ask { tester: Pile, budget: i64 },
}

// The numbers that the words write.
fn numbers<'a>(heap: Global, words: &[&'a str]) -> Result<Vec<i64>, Why<'a>> {
    words.iter().copied().map(number).try_collect(heap)
}

// The numbers two by two as ends. Where one is left over the list is not one of pairs, and no number of
// variables has an empty list.
fn spans(heap: Global, numbers: &[i64]) -> Result<Vec<Span>, AllocError>
    ensures value { IfOk result (λ v. v.items ≡ paired numbers.now) }
{
    if numbers.len() % 2 != 0 {
        return Ok(Vec::new(heap));
    }
    let (pairs, _) = numbers.as_chunks::<2>();
    pairs
        .iter()
        .map(|pair| Span {
            lower: pair[0],
            upper: pair[1],
        })
        .collect(heap)
}

fn read_new<'a>(heap: Global, words: &[&'a str]) -> Result<Call, Why<'a>> {
    let [first, rest @ ..] = words else {
        return Err(Why::TooFew("new", "a number of variables"));
    };
    let n = number(*first)?;
    let numbers = numbers(heap, rest)?;
    let ends = spans(heap, numbers.as_slice())?;
    Ok(Call::New { n, ends })
}

fn read_row<'a>(heap: Global, words: &[&'a str]) -> Result<Call, Why<'a>> {
    let [coefs @ .., lower, upper] = words else {
        return Err(Why::TooFew("row", "two ends"));
    };
    let coefs = numbers(heap, coefs)?;
    let lower = end(*lower)?;
    let upper = end(*upper)?;
    let ends = RowEnds { lower, upper };
    Ok(Call::Row { coefs, ends })
}

// Refuses a word behind the last.
fn end_here<'a>(words: &[&'a str]) -> Result<(), Why<'a>> {
    match words {
        [] => Ok(()),
        [word, ..] => Err(Why::TooMany(*word)),
    }
}

fn read_open<'a>(words: &[&'a str]) -> Result<Call, Why<'a>> {
    end_here(words)?;
    Ok(Call::Open)
}

fn read_ask<'a>(words: &[&'a str]) -> Result<Call, Why<'a>> {
    let [tester, budget, rest @ ..] = words else {
        return Err(Why::TooFew("ask", "a tester and a budget"));
    };
    if *tester != "halving" {
        return Err(Why::NoTester(*tester));
    }
    let budget = number(*budget)?;
    end_here(rest)?;
    Ok(Call::Ask {
        tester: Pile::Halving,
        budget,
    })
}

/// The call that the line is.
pub fn read<'a>(heap: Global, line: &'a str) -> Result<Call, Why<'a>> {
    let words: Vec<&'a str> = line.split_ascii_whitespace().collect(heap)?;
    let [name, rest @ ..] = words.as_slice() else {
        return Err(Why::NoCall(""));
    };
    match *name {
        "new" => read_new(heap, rest),
        "row" => read_row(heap, rest),
        "open" => read_open(rest),
        "ask" => read_ask(rest),
        word => Err(Why::NoCall(word)),
    }
}
