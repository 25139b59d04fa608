// Names (parser.rs `read_word`, `parse_local_name`, `parse_global_name`): a run of name characters, or quoted, with escapes.
#![tactic(auto)]

pub mod skips; // skips.rt: what is passed over, and byte strings

ghost use Rattle.std.specs.Prelude.{◌≡◌, List, ℕ, ◌+◌, ◌≤◌, ◌<◌, drop};
ghost use Rattle.program.specs.Prog.{scan_len};
ghost use Rattle.grammar.specs.Lexer.{name_step, quote_step, name_of, name_word, parse_local_name, parse_global_name};
ghost use Rattle.lexer.specs.Step.{step_of};
ghost use Rattle.lexer.specs.Reads.{Gives};
ghost use Rattle.lexer.specs.Parsed.{Parsed, Ok};
ghost use Rattle.records.specs.Words.{pack};
ghost use Rattle.lexer_names.specs.Names.{part, raw_word, WordIs, no_word, sigil_name};

use lexer::{Cursor, Num, Parsed, limits, scan_text};
use records::Refusal;
pub use skips::{balanced, cstring, skip_metadata_ref, skip_parens, three_dots};

// A word as it stands in the text, quotes included, and whether it has no bytes (between its quotes).
#[derive(Clone, Copy)]
pub struct WordAt {
    pub p: Parsed,
    pub start: usize,
    pub end: usize,
    pub empty: bool,
}

// A byte of a name with escapes undone, and the place behind it.
#[derive(Clone, Copy)]
pub struct Letter {
    pub b: u16,
    pub next: usize,
}

// A name without quotes: the one state, or none at a byte of no name.
fn name_step(q: u8, b: u8) -> Option<u8>
    ensures { step_of result ≡ name_step q b }
{
    if lexer::class(b) <= limits::NAME {
        Some(0)
    } else {
        None
    }
}

// The place behind the name that stands at `at`.
fn name_end(text: &[u8], at: usize) -> usize
    ensures { result ≡ at + scan_len name_step 0 (drop at text.now) }
{
    scan_text(text, at, name_step).at
}

// Between quotes: the state behind b, which is 1 behind `\` and 2 behind its first digit, or none where they end.
pub fn quote_step(q: u8, b: u8) -> Option<u8>
    ensures { step_of result ≡ quote_step q b }
{
    if q == 0 {
        if b == b'"' {
            return None;
        }
        if b == 0 {
            return None;
        }
        if b == b'\\' {
            return Some(1);
        }
        return Some(0);
    }
    if q == 1 {
        if b == b'\\' {
            return Some(0);
        }
        if lexer::class(b) < limits::HEX {
            return Some(2);
        }
        return None;
    }
    if lexer::class(b) < limits::HEX {
        return Some(0);
    }
    None
}

// A refusal of a word.
fn no_word(r: Refusal) -> WordAt
    ensures { result ≡ no_word r.question r.place }
{
    WordAt {
        p: Err(r),
        start: 0,
        end: 0,
        empty: true,
    }
}

// A name, quoted or not, at the cursor; it may be empty.
fn word_at(text: &[u8], c: Cursor) -> WordAt
    ensures { WordIs text.now (Ok c) result }
{
    if lexer::at_byte(text, c.at, b'"') {
        let from = c.at + 1;
        let x = scan_text(text, from, quote_step);
        if x.q != 0 {
            return no_word(Refusal {
                question: records::Q_ESCAPE,
                place: x.at,
            });
        }
        if lexer::at_byte(text, x.at, b'"') {
            let end = x.at + 1;
            return WordAt {
                p: Ok(Cursor { at: end, w: c.w }),
                start: c.at,
                end,
                empty: x.at == from,
            };
        }
        return no_word(Refusal {
            question: records::Q_CLOSED,
            place: x.at,
        });
    }
    let i = name_end(text, c.at);
    WordAt {
        p: Ok(Cursor { at: i, w: c.w }),
        start: c.at,
        end: i,
        empty: i == c.at,
    }
}

// A name, quoted or not; it may be empty.
pub fn read_word(text: &[u8], p: Parsed) -> WordAt
    ensures { WordIs text.now p result }
{
    match p {
        Ok(c) => word_at(text, c),
        Err(r) => no_word(r),
    }
}

// A word of a start and a length.
pub fn pack_word(at: usize, n: usize) -> u64
    ensures { at < 4294967296 → n < 4294967296 → result ≡ pack at n }
{
    if at < records::HALF_LIMIT {
        if n < records::HALF_LIMIT {
            return (at as u64) * records::HALF + (n as u64);
        }
        return 0;
    }
    0
}

// The word that was read from `at` on, as a name; an empty one is refused behind it.
pub fn name_of(x: WordAt, at: usize) -> Num
    ensures { (text : List ℕ) (p : Parsed) → WordIs text p x → at ≤ 16777216 → Gives (name_of at (raw_word (part text x.start x.end))) result.v text x.p result.p }
{
    let q = x.p;
    if x.empty {
        let q2 = lexer::refuse(q, records::Q_TOKEN);
        return Num { p: q2, v: 0 };
    }
    let n = x.end.saturating_sub(x.start);
    let v = pack_word(at, n);
    Num { p: q, v }
}

// A name behind its sigil, as its word.
pub fn name_word(text: &[u8], p: Parsed) -> Num
    ensures { Gives name_word result.v text.now p result.p }
{
    let at = lexer::place(p);
    let x = read_word(text, p);
    name_of(x, at)
}

// White space, and a name with the sigil b.
fn sigil_name(text: &[u8], p: Parsed, b: u8) -> Num
    ensures { Gives (sigil_name b) result.v text.now p result.p }
{
    let q = lexer::eat_ws(text, p);
    if lexer::looks(text, q, b) {
        let q2 = lexer::pass(text, q, 1);
        return name_word(text, q2);
    }
    let q3 = lexer::refuse(q, records::Q_TOKEN);
    Num { p: q3, v: 0 }
}

// `%name`
pub fn parse_local_name(text: &[u8], p: Parsed) -> Num
    ensures { Gives parse_local_name result.v text.now p result.p }
{
    sigil_name(text, p, b'%')
}

// `@name`
pub fn parse_global_name(text: &[u8], p: Parsed) -> Num
    ensures { Gives parse_global_name result.v text.now p result.p }
{
    sigil_name(text, p, b'@')
}
