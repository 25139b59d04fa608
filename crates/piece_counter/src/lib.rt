// The counter (M-106): what takes a number, and which names are numbers.
#![tactic(auto)]

ghost use Rattle.std.specs.Prelude.{List, ◌≡◌, ℕ, ◌+◌, ◌*◌, ltb};
ghost use Rattle.program.specs.Choice.{pick};
ghost use Rattle.records.specs.Limits.{counter_limit};
ghost use Rattle.grammar.specs.Counter.{counted, takes, takes_next, named, counted_name};
ghost use Rattle.lexer.specs.Reads.{Gives};
ghost use Rattle.lexer_names.specs.Names.{part, raw_word};
ghost use Rattle.piece_counter.specs.Numbers.{NumberIs};

use lexer::limits::DIGIT;
use lexer::{Parsed, class};

// Where the reader is, and the counter there.
#[derive(Clone, Copy)]
pub struct Counter {
    pub p: Parsed,
    pub c: u64,
}

// Where the reader is behind a name, its word, and the counter there.
#[derive(Clone, Copy)]
pub struct CountedName {
    pub p: Parsed,
    pub v: u64,
    pub c: u64,
}

// The number v where the counter is c; 26, at `at`, where it is below the counter or not below 2^32.
fn take(p: Parsed, at: usize, c: u64, v: u64) -> Counter
    ensures { (text : List ℕ) → Gives (takes at c v) result.c text p result.p }
{
    if v < c {
        let q = lexer::refuse_at(p, records::Q_COUNTER, at);
        return Counter { p: q, c };
    }
    if records::COUNTER_LIMIT <= v {
        let q = lexer::refuse_at(p, records::Q_COUNTER, at);
        return Counter { p: q, c };
    }
    Counter { p, c: v + 1 }
}

// The next number.
pub fn take_next(p: Parsed, at: usize, c: u64) -> Counter
    ensures { (text : List ℕ) → Gives (takes_next at c) result.c text p result.p }
{
    take(p, at, c, c)
}

// One digit more, up to 2^32.
fn add_digit(v: u64, d: u8) -> u64
    ensures { result ≡ pick (ltb v counter_limit) (v * 10 + d) v }
{
    if v < records::COUNTER_LIMIT {
        return v * 10 + (d as u64);
    }
    v
}

// The number that bytes write, if all are digits. From 2^32 on any number stands for any other.
fn number_in(raw: &[u8]) -> Option<u64>
    ensures { NumberIs raw.now result }
{
    let mut v: u64 = 0;
    for b in raw {
        let d = class(*b);
        if DIGIT <= d {
            return None;
        }
        v = add_digit(v, d);
    }
    Some(v)
}

// The counter behind a name, which is lent as it stands.
fn named_raw(raw: &[u8], p: Parsed, at: usize, c: u64) -> Counter
    ensures { (text : List ℕ) → Gives (named at c (raw_word raw.now)) result.c text p result.p }
{
    match number_in(raw) {
        Some(v) => take(p, at, c, v),
        None => Counter { p, c },
    }
}

// The counter behind the name that stands from a place to another; 26 is refused at `at`.
pub fn name_counter(text: &[u8], p: Parsed, at: usize, c: u64, from: usize, to: usize) -> Counter
    ensures { Gives (named at c (raw_word (part text.now from to))) result.c text.now p result.p }
{
    let end = to.min(text.len());
    if from <= end {
        return named_raw(&text[from..end], p, at, c);
    }
    named_raw(&[], p, at, c)
}

// A name behind its sigil, as its word, and the counter behind it.
pub fn counted_name(text: &[u8], p: Parsed, c: u64) -> CountedName
    ensures { Gives (counted_name c) (counted result.c result.v) text.now p result.p }
{
    let at = lexer::place(p);
    let x = lexer_names::read_word(text, p);
    let n = lexer_names::name_of(x, at);
    let q = n.p;
    let j = lexer::place(q);
    let d = name_counter(text, q, j, c, x.start, x.end);
    let q1 = d.p;
    CountedName {
        p: q1,
        v: n.v,
        c: d.c,
    }
}
