// The readers of terminators (parser.rs, "Terminators"), each behind its word.
#![tactic(auto)]

pub mod switch; // switch.rt: `parse_switch`

ghost use Rattle.std.specs.Prelude.{[]};
ghost use Rattle.grammar.specs.Instructions.{parse_ret, parse_unreachable, parse_br};
ghost use Rattle.lexer.specs.Reads.{Leads, made, same};

use lexer::Parsed;
use records::{D_CONDITION, D_VALUE};
pub use switch::parse_switch;

// `ret void` and `ret T V`
pub fn parse_ret(text: &[u8], words: &mut [u64], p: Parsed) -> Parsed
    ensures { Leads parse_ret 1 [] (made same text.now p) text.now p p words.old result words.new }
{
    let q = node_words::push(words, p, 0);
    let q1 = lexer::eat_ws(text, q);
    if lexer::word(text, q1, b"void") {
        let q2 = lexer::pass_word(text, q1, b"void");
        return inst_operands::end(text, words, p, q2, records::K_RET, records::D_NONE, 0);
    }
    let q3 = values::parse_typed_val(text, words, q1, records::DEPTH_LIMIT);
    inst_operands::end(text, words, p, q3, records::K_RET, D_VALUE, 2)
}

// `br label L` and `br T V, label L, label L`
pub fn parse_br(text: &[u8], words: &mut [u64], p: Parsed) -> Parsed
    ensures { Leads parse_br 1 [] (made same text.now p) text.now p p words.old result words.new }
{
    let q = node_words::push(words, p, 0);
    let q1 = lexer::eat_ws(text, q);
    if lexer::word(text, q1, b"label") {
        let q2 = lexer::pass_word(text, q1, b"label");
        let l = lexer_names::parse_local_name(text, q2);
        let q3 = l.p;
        let q4 = inst_operands::label_node(words, q3, l.v);
        return inst_operands::end(text, words, p, q4, records::K_BR, records::D_NONE, 1);
    }
    let q5 = inst_operands::parse_operand(text, words, q1);
    let a = inst_operands::target(text, q5);
    let q6 = a.p;
    let q7 = inst_operands::label_node(words, q6, a.v);
    let b = inst_operands::target(text, q7);
    let q8 = b.p;
    let q9 = inst_operands::label_node(words, q8, b.v);
    inst_operands::end(text, words, p, q9, records::K_BR, D_CONDITION, 3)
}

// `unreachable`
pub fn parse_unreachable(text: &[u8], words: &mut [u64], p: Parsed) -> Parsed
    ensures { Leads parse_unreachable 1 [] (made same text.now p) text.now p p words.old result words.new }
{
    let q = node_words::push(words, p, 0);
    inst_operands::end(
        text,
        words,
        p,
        q,
        records::K_UNREACHABLE,
        records::D_NONE,
        0,
    )
}
