// What is passed over (`skip_parens`, `skip_metadata_ref`), `...`, and byte strings (`parse_cstring`).
ghost use Rattle.std.specs.Prelude.{◌≡◌, ◌+◌, ◌≤◌, drop};
ghost use Rattle.program.specs.Prog.{scan_len};
ghost use Rattle.grammar.specs.Lexer.{balance_step, balanced, skip_parens, skip_metadata_ref, three_dots, cstring_step, cstring_at};
ghost use Rattle.lexer.specs.Step.{step_of, StopAt};
ghost use Rattle.lexer.specs.Parsed.{Ok};
ghost use Rattle.lexer.specs.Reads.{Gives};
ghost use Rattle.lexer_names.specs.Names.{not_closed, plain_step, step_at};

use crate::{pack_word, read_word};
use lexer::{Cursor, Num, Parsed, Stop, limits, scan_text};
use records::Refusal;

// The place of the byte that closes what is open at `at`.
fn balance_end(text: &[u8], at: usize, left: u8, right: u8) -> usize
    ensures { result ≡ at + scan_len (balance_step left right) 0 (drop at text.now) }
{
    let mut q: usize = 0;
    for i in at..text.len() {
        let b = text[i];
        if b == left {
            q += 1;
        } else if b == right {
            if q == 0 {
                return i;
            }
            q -= 1;
        }
    }
    at.max(text.len())
}

// Behind the opening byte, through the one that closes it. Quotes and comments do not count.
pub fn balanced(text: &[u8], p: Parsed, left: u8, right: u8) -> Parsed
    ensures { Gives (balanced left right) tt text.now p result }
{
    let c = p?;
    let q = Ok(Cursor {
        at: balance_end(text, c.at, left, right),
        w: c.w,
    });
    if lexer::looks(text, q, right) {
        return lexer::pass(text, q, 1);
    }
    lexer::refuse(q, records::Q_CLOSED)
}

// White space, and `( .. )`.
pub fn skip_parens(text: &[u8], p: Parsed) -> Parsed
    ensures { Gives skip_parens tt text.now p result }
{
    let q = lexer::eat_ws(text, p);
    if lexer::looks(text, q, b'(') {
        let q2 = lexer::pass(text, q, 1);
        return balanced(text, q2, b'(', b')');
    }
    lexer::refuse(q, records::Q_TOKEN)
}

// A metadata attachment, behind its first `!`.
pub fn skip_metadata_ref(text: &[u8], p: Parsed) -> Parsed
    ensures { Gives skip_metadata_ref tt text.now p result }
{
    let x = read_word(text, p);
    let q = x.p;
    let q1 = lexer::eat_ws(text, q);
    if lexer::looks(text, q1, b'!') {
        let q2 = lexer::pass(text, q1, 1);
        if lexer::looks(text, q2, b'{') {
            let q3 = lexer::pass(text, q2, 1);
            return balanced(text, q3, b'{', b'}');
        }
        let y = read_word(text, q2);
        return y.p;
    }
    q1
}

// `...`, or the refusal e at its first byte.
pub fn three_dots(text: &[u8], p: Parsed, e: u64) -> Parsed
    ensures { Gives (three_dots e) tt text.now p result }
{
    let at = lexer::place(p);
    if lexer::looks(text, p, b'.') {
        let q = lexer::pass(text, p, 1);
        if lexer::looks(text, q, b'.') {
            let q1 = lexer::pass(text, q, 1);
            if lexer::looks(text, q1, b'.') {
                return lexer::pass(text, q1, 1);
            }
            return lexer::refuse_at(q1, e, at);
        }
        return lexer::refuse_at(q, e, at);
    }
    lexer::refuse_at(p, e, at)
}

// Between the quotes of a byte string: the state behind b, which is 1 behind `\` and 2 behind its first digit, or none where they end.
pub fn cstring_step(q: u8, b: u8) -> Option<u8>
    ensures { step_of result ≡ cstring_step q b }
{
    if q == 0 {
        if b == b'"' {
            return None;
        }
        if b == b'\\' {
            return Some(1);
        }
        return Some(0);
    }
    if q == 1 {
        if lexer::class(b) < limits::HEX {
            return Some(2);
        }
        return Some(0);
    }
    if lexer::class(b) < limits::HEX {
        return Some(0);
    }
    None
}

// A byte that stands for itself in a byte string: the one state, or none at `"` and `\`.
fn plain_step(q: u8, b: u8) -> Option<u8>
    ensures { step_of result ≡ plain_step q b }
{
    match b {
        b'"' => None,
        b'\\' => None,
        _ => Some(0),
    }
}

// The place behind the bytes at `at` that stand for themselves.
fn plain_end(text: &[u8], at: usize) -> usize
    ensures { result ≡ at + scan_len plain_step 0 (drop at text.now) }
{
    scan_text(text, at, plain_step).at
}

// The state behind the byte at `at`, or none where the automaton stops there or the text ends.
fn step_at(text: &[u8], q: u8, at: usize) -> Option<u8>
    ensures { step_of result ≡ step_at cstring_step q (drop at text.now) }
{
    match text.get(at) {
        Some(b) => cstring_step(q, *b),
        None => None,
    }
}

// Where a byte string stops that begins there. Nearly all of its bytes stand for themselves and need no state: the automaton is asked in escapes alone,
// which are a byte that is no digit behind the `\`, or two digits. A function of its own: in the midst of a reader
// a loop over such bytes was compiled to half its speed.
#[inline(never)]
fn cstring_end(text: &[u8], at: usize) -> Stop
    ensures { StopAt cstring_step text.now at result }
{
    let mut i = plain_end(text, at);
    while lexer::at_byte(text, i, b'\\') {
        match step_at(text, 1, i + 1) {
            None => return Stop { at: i + 1, q: 1 },
            Some(0) => i = plain_end(text, i + 2),
            Some(_) => match step_at(text, 2, i + 2) {
                None => return Stop { at: i + 2, q: 2 },
                Some(_) => i = plain_end(text, i + 3),
            },
        }
    }
    Stop { at: i, q: 0 }
}

// A byte string at the cursor, behind its quote, which is at `at`. Where an escape is cut off the byte behind the cursor is taken before the refusal.
fn cstring_in(text: &[u8], c: Cursor, at: usize) -> Num
    ensures { at ≤ 16777216 → Gives (cstring_at at) result.v text.now (Ok c) result.p }
{
    let x = cstring_end(text, c.at);
    if x.q == 0 {
        if lexer::at_byte(text, x.at, b'"') {
            let n = x.at.saturating_sub(c.at);
            return Num {
                p: Ok(Cursor {
                    at: x.at + 1,
                    w: c.w,
                }),
                v: pack_word(at, n + 2),
            };
        }
        return not_closed(x.at);
    }
    let behind = lexer::bump(x.at);
    if x.q == 1 {
        return not_closed(behind);
    }
    Num {
        p: Err(Refusal {
            question: records::Q_ESCAPE,
            place: behind,
        }),
        v: 0,
    }
}

// A byte string that is not closed.
fn not_closed(place: usize) -> Num
    ensures { result ≡ not_closed place }
{
    Num {
        p: Err(Refusal {
            question: records::Q_CLOSED,
            place,
        }),
        v: 0,
    }
}

// A byte string behind its quote, which is at `at`, as its word.
pub fn cstring(text: &[u8], p: Parsed, at: usize) -> Num
    ensures { at ≤ 16777216 → Gives (cstring_at at) result.v text.now p result.p }
{
    match p {
        Ok(c) => cstring_in(text, c, at),
        Err(_) => Num { p, v: 0 },
    }
}
