// Statements (parser.rs `parse_body`, `parse_value_inst`): a label, an instruction or a terminator, by its first word.
ghost use Rattle.std.specs.Prelude.{List, [], ℕ, ◌≤◌};
ghost use Rattle.grammar.specs.Body.{instruction, in_block, entered, labelled, parse_inst, parse_statement};
ghost use Rattle.lexer.specs.Reads.{Gives, Leads, made};
ghost use Rattle.lexer_names.specs.Names.{part, raw_word};
ghost use Rattle.inst_operands.specs.Rich.{richly};
ghost use Rattle.piece_block.specs.Stated.{word_statement, stated};

use crate::opcodes;
use lexer::Parsed;
use piece_counter::Counter;

// Which a statement is; a label's word.
#[derive(Clone, Copy)]
pub enum Kind {
    Label(u64),
    Instruction,
    Terminator,
}

// Where the reader is behind a statement, and which it was; the counter.
#[derive(Clone, Copy)]
pub struct Stated {
    pub p: Parsed,
    pub kind: Kind,
    pub c: u64,
}

// Where a block is: the counter, its last label (zero means none), how many instructions.
#[derive(Clone, Copy)]
pub struct Within {
    pub c: u64,
    pub label: u64,
    pub n: usize,
}

// The counter where a statement that is no label begins at `at`: a block without a label takes its number before its first instruction.
fn enter(p: Parsed, at: usize, b: Within) -> Counter
    ensures { (text : List ℕ) → Gives (entered at (in_block b.c b.label b.n)) result.c text p result.p }
{
    let c = b.c;
    if b.label != 0 {
        return Counter { p, c };
    }
    if b.n != 0 {
        return Counter { p, c };
    }
    piece_counter::take_next(p, at, c)
}

// The counter behind the label that stands from a place to another, its name's end at `at`: 26 behind an instruction.
fn label_counter(text: &[u8], p: Parsed, at: usize, b: Within, from: usize, to: usize) -> Counter
    ensures { Gives (labelled at (in_block b.c b.label b.n) (raw_word (part text.now from to))) result.c text.now p result.p }
{
    let c = b.c;
    if b.n == 0 {
        return piece_counter::name_counter(text, p, at, c, from, to);
    }
    let q = lexer::refuse_at(p, records::Q_COUNTER, at);
    Counter { p: q, c }
}

// `%x = ..`, behind the `%`.
fn parse_inst(text: &[u8], words: &mut [u64], p: Parsed, c: u64) -> Counter
    ensures { Leads (parse_inst c) 3 [] (richly text.now (made (instruction result.c) text.now p)) text.now p p words.old result.p words.new }
{
    let d = piece_counter::counted_name(text, p, c);
    let q = d.p;
    let q1 = lexer::expect_token(text, q, b'=');
    let q2 = lexer::eat_ws(text, q1);
    let x = lexer_names::read_word(text, q2);
    let q3 = x.p;
    let r = opcodes::value_rank(text, x.start, x.end);
    let q4 = opcodes::value_inst(text, words, q3, r, d.v);
    Counter { p: q4, c: d.c }
}

// A label, an instruction without a destination, or a terminator, whose first byte is at `at`. At a refusal it is none of the first two, so that a
// body ends there.
fn word_statement(text: &[u8], words: &mut [u64], p: Parsed, at: usize, b: Within) -> Stated
    ensures { at ≤ 16777216 → Leads (word_statement at (in_block b.c b.label b.n)) 0 [] (richly text.now (stated result.kind result.c text.now p)) text.now p p words.old result.p words.new }
{
    let x = lexer_names::read_word(text, p);
    let q = x.p;
    if x.empty {
        let q1 = lexer::refuse(q, records::Q_STATEMENT);
        return Stated {
            p: q1,
            kind: Kind::Terminator,
            c: 0,
        };
    }
    let j = lexer::place(q);
    if lexer::looks(text, q, b':') {
        let q2 = lexer::pass(text, q, 1);
        let d = label_counter(text, q2, j, b, x.start, x.end);
        let q3 = d.p;
        let n = x.end.saturating_sub(x.start);
        let label = lexer_names::pack_word(at, n);
        return Stated {
            p: q3,
            kind: Kind::Label(label),
            c: d.c,
        };
    }
    let e = enter(q, at, b);
    let q4 = e.p;
    let c = e.c;
    let r = opcodes::statement_rank(text, x.start, x.end);
    if r < opcodes::S_STORE {
        let q5 = opcodes::terminator(text, words, q4, r);
        return Stated {
            p: q5,
            kind: Kind::Terminator,
            c,
        };
    }
    let y = opcodes::plain_inst(text, words, q4, r, c);
    let q6 = y.p;
    Stated {
        p: q6,
        kind: Kind::Instruction,
        c: y.c,
    }
}

// One statement of a block that is there.
pub fn parse_statement(text: &[u8], words: &mut [u64], p: Parsed, b: Within) -> Stated
    ensures { Leads (parse_statement (in_block b.c b.label b.n)) 0 [] (richly text.now (stated result.kind result.c text.now p)) text.now p p words.old result.p words.new }
{
    let at = lexer::place(p);
    if lexer::looks(text, p, b'%') {
        let q = lexer::pass(text, p, 1);
        let e = enter(q, at, b);
        let q1 = e.p;
        let x = parse_inst(text, words, q1, e.c);
        let q2 = x.p;
        return Stated {
            p: q2,
            kind: Kind::Instruction,
            c: x.c,
        };
    }
    word_statement(text, words, p, at, b)
}
