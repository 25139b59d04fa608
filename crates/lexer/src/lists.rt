// What lists share: question 19, and what stands behind an element.
ghost use Rattle.std.specs.Prelude.{◌≡◌};
ghost use Rattle.program.specs.Choice.{pick};
ghost use Rattle.program.specs.Prog.{Prog};
ghost use Rattle.grammar.specs.Types.{Listed, comma_or};
ghost use Rattle.lexer.specs.Step.{counted_p};
ghost use Rattle.lexer.specs.Reads.{Comes};

use crate::{Parsed, eat_ws, looks, pass, refuse};

// Behind a child that has n before it in its node: "At most 65,535 direct children?"
pub fn count_child(p: Parsed, n: u16) -> Parsed
    ensures { result ≡ counted_p n p }
{
    let more = n < records::CHILD_LIMIT;
    if more {
        return p;
    }
    refuse(p, records::Q_CHILDREN)
}

// Where a list goes on: behind a comma, where there is more, or behind its closing byte.
#[derive(Clone, Copy)]
pub struct Behind {
    pub p: Parsed,
    pub more: bool,
}

// White space, then a comma or the closing byte.
pub fn comma_or(text: &[u8], p: Parsed, end: u8) -> Behind
    ensures { (x y : Prog Listed) → Comes (comma_or end x y) (pick result.more x y) text.now p result.p }
{
    let q = eat_ws(text, p);
    if looks(text, q, b',') {
        let q1 = pass(text, q, 1);
        return Behind { p: q1, more: true };
    }
    if looks(text, q, end) {
        let q1 = pass(text, q, 1);
        return Behind { p: q1, more: false };
    }
    let q1 = refuse(q, records::Q_TOKEN);
    Behind { p: q1, more: false }
}
