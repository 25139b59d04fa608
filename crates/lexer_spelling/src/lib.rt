// Names with quotes and escapes undone: two names are the same when their bytes are, and an opcode may be written in quotes.
#![tactic(auto)]

ghost use Rattle.std.specs.Prelude.{◌≡◌, true, false};
ghost use Rattle.grammar.specs.Lexer.{same_word, rank, spelled, same_name};
ghost use Rattle.lexer.specs.Table.{keywords_of};
ghost use Rattle.lexer_names.specs.Names.{part, is_quoted, inner, raw_word, spelled_of, EscapeAt, LetterAt};

use lexer::class;
use lexer_keywords::{part, rank_by, rank_in};
use lexer_names::Letter;

// Does the word begin with a quote?
pub fn is_quoted(raw: &[u8]) -> bool
    ensures { result ≡ is_quoted raw.now }
{
    raw.first() == Some(&b'"')
}

// What stands between quotes.
pub fn between(raw: &[u8]) -> &[u8]
    ensures { result.now ≡ inner raw.now }
{
    match raw {
        [_, inner @ .., _] => inner,
        _ => &[],
    }
}

// The byte of an escape, behind its `\`.
fn escaped(w: &[u8], at: usize) -> Option<Letter>
    ensures { EscapeAt w.now at result }
{
    let high = *w.get(at)?;
    if high == b'\\' {
        return Some(Letter {
            b: u16::from(high),
            next: at + 1,
        });
    }
    let low = *w.get(at + 1)?;
    Some(Letter {
        b: u16::from(class(high)) * 16 + u16::from(class(low)),
        next: at + 2,
    })
}

// The next byte of a word, escapes undone where it was quoted.
pub fn next_letter(w: &[u8], q: bool, at: usize) -> Option<Letter>
    ensures { LetterAt q w.now at result }
{
    let b = *w.get(at)?;
    if q && b == b'\\' {
        return escaped(w, at + 1);
    }
    Some(Letter {
        b: u16::from(b),
        next: at + 1,
    })
}

// Are two spellings the same?
fn same_spelling(a: &[u8], qa: bool, b: &[u8], qb: bool) -> bool
    ensures { result ≡ same_word (spelled_of qa a.now) (spelled_of qb b.now) }
{
    let mut i = 0;
    let mut j = 0;
    loop {
        match (next_letter(a, qa, i), next_letter(b, qb, j)) {
            (Some(x), Some(y)) => {
                if x.b != y.b {
                    return false;
                }
                i = x.next;
                j = y.next;
            }
            (None, None) => return true,
            (Some(_), None) | (None, Some(_)) => return false,
        }
    }
}

// The bytes that spell a word: what stands between its quotes, or all of it.
fn bare(raw: &[u8]) -> &[u8]
    ensures { spelled_of (is_quoted raw.now) result.now ≡ spelled (raw_word raw.now) }
{
    if is_quoted(raw) { between(raw) } else { raw }
}

// Are two names the same, quotes and escapes undone? Each is lent as it stands in its text.
pub fn same_name(a: &[u8], b: &[u8]) -> bool
    ensures { result ≡ same_name (raw_word a.now) (raw_word b.now) }
{
    let qa = is_quoted(a);
    let qb = is_quoted(b);
    if qa || qb {
        return same_spelling(bare(a), qa, bare(b), qb);
    }
    // nearly always: another length, and then another byte, is seen at once
    a == b
}

// Does the word that stands from a place to another spell kw? Nearly always it has no quotes.
pub fn spells(text: &[u8], from: usize, to: usize, kw: &[u8]) -> bool
    ensures { result ≡ same_word (spelled (raw_word (part text.now from to))) kw.now }
{
    let raw = part(text, from, to);
    if is_quoted(raw) {
        return same_spelling(between(raw), true, kw, false);
    }
    raw == kw
}

// The rank in a table of a word that stood between quotes.
fn rank_quoted(w: &[u8], table: &[&[u8]]) -> usize
    ensures { result ≡ rank (spelled_of true w.now) (keywords_of table.now) }
{
    rank_by(table, |word| same_spelling(w, true, word, false))
}

// The rank in a table of the word that stands from a place to another, by its spelling.
pub fn spelled_rank(text: &[u8], from: usize, to: usize, table: &[&[u8]]) -> usize
    ensures { result ≡ rank (spelled (raw_word (part text.now from to))) (keywords_of table.now) }
{
    let raw = part(text, from, to);
    if is_quoted(raw) {
        return rank_quoted(between(raw), table);
    }
    rank_in(raw, table)
}
