// Blocks and the tail (parser.rs `parse_body`): a piece from its first statement through its terminator or `}`.
#![tactic(auto)]

pub mod opcodes; // opcodes.rt: the rank of an opcode, and the reader of each
pub mod statements; // statements.rt: a statement by its first word

ghost use Rattle.std.specs.Prelude.{◌≡◌, [], ◌≤◌, length, drop};
ghost use Rattle.records.specs.Limits.{turns, text_limit};
ghost use Rattle.grammar.specs.Body.{parse_body};
ghost use Rattle.grammar.specs.Function.{block_at};
ghost use Rattle.lexer.specs.Reads.{Leads};
ghost use Rattle.inst_operands.specs.Rich.{richly};
ghost use Rattle.piece_directory.specs.Piece.{BlockIs};
ghost use Rattle.piece_block.specs.Bodied.{bodied};
ghost use Rattle.piece_block.specs.Part.{BlockIn, BlockDry};

use crate::statements::{Kind, Within};
use lexer::{Cursor, Parsed};
use piece_directory::pieces::{Piece, Spot};
use records::Refusal;

// Where the reader is behind a body: is it the tail; else the counter, the last label, how many instructions, the place behind the 65,536th.
#[derive(Clone, Copy)]
pub struct Body {
    pub p: Parsed,
    pub tail: bool,
    pub c: u64,
    pub label: u64,
    pub n: usize,
    pub over: usize,
}

// Statements through a terminator or `}`, where the counter is `counter`.
fn parse_body(text: &[u8], words: &mut [u64], p: Parsed, counter: u64) -> Body
    ensures { Leads (parse_body turns counter 0 0 0 []) 0 [] (richly text.now (bodied result.tail result.c result.label result.n result.over text.now p)) text.now p p words.old result.p words.new }
{
    let mut q = p;
    let mut c = counter;
    let mut label: u64 = 0;
    let mut n: usize = 0;
    let mut over: usize = 0;
    for _left in (0..records::TURNS).rev() {
        let r = lexer::eat_ws(text, q);
        if lexer::looks(text, r, b'}') {
            let r1 = lexer::pass(text, r, 1);
            return Body {
                p: r1,
                tail: true,
                c,
                label,
                n,
                over,
            };
        }
        let s = statements::parse_statement(text, words, r, Within { c, label, n });
        let r2 = s.p;
        let r3 = lexer::anew(r2);
        match s.kind {
            Kind::Label(word) => {
                q = r3;
                c = s.c;
                label = word;
            }
            Kind::Instruction => {
                let at = lexer::place(r3);
                q = r3;
                c = s.c;
                over = piece_close::over_at(n, over, at);
                n += 1;
            }
            Kind::Terminator => {
                return Body {
                    p: r3,
                    tail: false,
                    c: s.c,
                    label,
                    n,
                    over,
                };
            }
        }
    }
    let q1 = lexer::refuse(q, records::Q_STATEMENT);
    Body {
        p: q1,
        tail: false,
        c,
        label,
        n,
        over,
    }
}

// A block or the tail, from the start of the text, where the counter is `counter`, its words from the start of the array: slots for the header and the label, the
// instructions and the terminator.
pub fn parse_block(text: &[u8], words: &mut [u64], counter: u64) -> Result<Piece, Refusal>
    requires { length text.now ≤ 16777216 }
    ensures { BlockIs (block_at counter text.now) result words.new × (length words.new ≡ length words.old) }
{
    let p = Ok(Cursor { at: 0, w: 0 });
    let r = node_words::push(words, p, 0);
    let r1 = node_words::push(words, r, 0);
    let b = parse_body(text, words, r1, counter);
    let q = b.p;
    if b.tail {
        return piece_close::tail_of(q);
    }
    let r2 = piece_close::finish_block(words, p, q, b.label, b.n, b.over);
    piece_close::piece_of(r2, b.c)
}

// The block or tail there. Its words stand from there on, as far as `to`.
pub fn block_in(text: &[u8], words: &mut [u64], spot: Spot, to: usize) -> Result<Piece, Refusal>
    requires text_len_bound { (length text.now ≤ text_limit) × (spot.pos ≤ length text.now) }
    requires word_le_to { (spot.word ≤ to) × (to ≤ length words.old) }
    ensures { BlockIn spot.counter (drop spot.pos text.now) spot.word to words.old words.new result }
{
    let pos = spot.pos;
    let word = spot.word;
    parse_block(&text[pos..], &mut words[word..to], spot.counter)
}

// The block or tail at pos, where the counter is `counter`, its words only counted.
pub fn block_dry(text: &[u8], pos: usize, counter: u64) -> Result<Piece, Refusal>
    requires text_len_bound { (length text.now ≤ text_limit) × (pos ≤ length text.now) }
    ensures { BlockDry counter (drop pos text.now) result }
{
    let mut none = [0u64; 0];
    parse_block(&text[pos..], &mut none, counter)
}
