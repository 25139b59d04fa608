// Keywords by their rank in a table, which is a constant list of byte strings.
#![tactic(auto)]

ghost use Rattle.std.specs.Prelude.{◌≡◌, List, ℕ, Bool, ◌+◌, ◌-◌, length, take, drop};
ghost use Rattle.std.specs.Fn.{FnReturnsAt};
ghost use Rattle.program.specs.Prog.{lead_word};
ghost use Rattle.grammar.specs.Lexer.{same_word, rank, skip_one, skip_all};
ghost use Rattle.records.specs.Limits.{turns};
ghost use Rattle.lexer.specs.Table.{keywords_of};
ghost use Rattle.lexer.specs.Step.{rank_p, ranked_p};
ghost use Rattle.lexer.specs.Reads.{Gives};

use lexer::limits::WORD;
use lexer::{Cursor, Parsed, class, eat_ws};

// The rank of a keyword in a table, and where the reader is behind it.
#[derive(Clone, Copy)]
pub struct Ranked {
    pub p: Parsed,
    pub r: usize,
}

// The rank in a table of the word that a test knows: how many words stand before the first that passes it, and the table's length where none does.
pub fn rank_by<F: Fn(&[u8]) -> bool>(table: &[&[u8]], is_it: F) -> usize
    requires { F.IsAlwaysCallable is_it }
    ensures { (w : List ℕ) → ((word : List ℕ) (r : Bool) → FnReturnsAt F.Fn is_it word r → r ≡ same_word w word) → result ≡ rank w (keywords_of table.now) }
{
    table
        .iter()
        .position(|word| is_it(word))
        .unwrap_or(table.len())
}

// The rank of w in a table: how many words stand before it, and the table's length where it is not in it.
pub fn rank_in(w: &[u8], table: &[&[u8]]) -> usize
    ensures { result ≡ rank w.now (keywords_of table.now) }
{
    rank_by(table, |word| w == word)
}

// The bytes of a text from a place to another, as far as it reaches.
pub fn part(text: &[u8], from: usize, to: usize) -> &[u8]
    ensures { result.now ≡ take (to - from) (drop from text.now) }
{
    let end = to.min(text.len());
    text.get(from..end).unwrap_or(&[])
}

// The rank of the bytes of a text from a place to another.
pub fn rank_of(text: &[u8], from: usize, to: usize, table: &[&[u8]]) -> usize
    ensures { result ≡ rank (take (to - from) (drop from text.now)) (keywords_of table.now) }
{
    rank_in(part(text, from, to), table)
}

// The place behind the letters, digits and `_` that stand at `at`.
fn word_end(text: &[u8], at: usize) -> usize
    ensures { result ≡ at + length (lead_word (drop at text.now)) }
{
    for i in at..text.len() {
        if WORD < class(text[i]) {
            return i;
        }
    }
    at.max(text.len())
}

// The next word's rank, and where the reader is behind it; the table's length, and where it is, if the table has it not.
pub fn match_rank(text: &[u8], p: Parsed, table: &[&[u8]]) -> Ranked
    ensures { (result.r ≡ rank_p (keywords_of table.now) text.now p) × (result.p ≡ ranked_p (keywords_of table.now) text.now p) }
{
    match p {
        Ok(c) => {
            let i = word_end(text, c.at);
            let r = rank_of(text, c.at, i, table);
            if r < table.len() {
                return Ranked {
                    p: Ok(Cursor { at: i, w: c.w }),
                    r,
                };
            }
            Ranked { p, r }
        }
        Err(_) => Ranked { p, r: table.len() },
    }
}

// White space, and one keyword of a table, if any stands there.
pub fn skip_one(text: &[u8], p: Parsed, table: &[&[u8]]) -> Parsed
    ensures { Gives (skip_one (keywords_of table.now)) tt text.now p result }
{
    let q = eat_ws(text, p);
    match_rank(text, q, table).p
}

// White space and keywords of a table, as many as stand there.
pub fn skip_all(text: &[u8], p: Parsed, table: &[&[u8]]) -> Parsed
    ensures { Gives (skip_all turns (keywords_of table.now)) tt text.now p result }
{
    let mut q = p;
    for _left in (0..records::TURNS).rev() {
        let k = match_rank(text, eat_ws(text, q), table);
        q = k.p;
        if table.len() <= k.r {
            return q;
        }
    }
    q
}
