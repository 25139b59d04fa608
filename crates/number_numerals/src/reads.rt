// Numerals in a text (`read_numeric`).
ghost use Rattle.std.specs.Prelude.{◌≡◌, MatchResult};
ghost use Rattle.lexer.specs.Parsed.{Ok, Err};
ghost use Rattle.number_numerals.specs.Reads.{FoldedAt, LitAt};

use crate::folds::{Fold, literal_of, pass_sign, start, take};
use crate::steps::next_phase;
use crate::{Folded, Lit};
use lexer::{Cursor, Parsed, class};
use records::Refusal;

// The rest of a numeral from the state s0 of what was passed of it, as far as it goes: none of it may have been passed, or any part.
pub fn fold_on(text: &[u8], p: Parsed, s0: Fold) -> Result<Folded, Refusal>
    ensures { MatchResult result (λ f. FoldedAt s0 text.now p (Ok f.c) f.s) (λ e. p ≡ Err e) }
{
    let c = p?;
    let mut s = s0;
    for i in c.at..text.len() {
        let b = text[i];
        let d = class(b);
        match next_phase(s.phase, b, d) {
            Some(f) => s = take(s, f, b, d),
            None => {
                return Ok(Folded {
                    c: Cursor { at: i, w: c.w },
                    s,
                });
            }
        }
    }
    Ok(Folded {
        c: Cursor {
            at: c.at.max(text.len()),
            w: c.w,
        },
        s,
    })
}

// A numeral behind its sign, as its literal; questions 7 and 17 behind it.
pub fn parse_numeral(text: &[u8], p: Parsed, neg: bool) -> Result<Lit, Refusal>
    ensures { LitAt neg text.now p result }
{
    let n = fold_on(text, p, pass_sign(start(), neg))?;
    match literal_of(n.s) {
        Ok(lit) => Ok(Lit { c: n.c, lit }),
        Err(question) => Err(Refusal {
            question,
            place: n.c.at,
        }),
    }
}
