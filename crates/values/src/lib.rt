// The reader of values and constants (parser.rs, "Values"). Each function writes the words of what it reads behind the cursor.
#![tactic(auto)]

ghost use Rattle.std.specs.Prelude.{[], ◌+◌};
ghost use Rattle.grammar.specs.Types.{listed, parse_type};
ghost use Rattle.grammar.specs.Values.{pair_child, pair_list, aggregate, packed_const, gep_indices, parse_ce_gep, parse_ce_conv, parse_ce_bin, const_exprs, parse_value, parse_typed_val};
ghost use Rattle.lexer.specs.Reads.{Leads, Reads, Counts, made, same};

use lexer::Parsed;
use types::Listed;
use value_leaves::{BIN_OPS, CONV_OPS};

// Typed values behind commas, through the closing byte, behind the opening one (`parse_array_const`, `parse_struct_const`).
#[cycle(value_readers)]
fn pair_list(text: &[u8], words: &mut [u64], p: Parsed, end: u8, depth: usize) -> Listed
    ensures { Leads (pair_list end (parse_type depth) (parse_value depth)) 0 [] (made (listed result.n 0) text.now p) text.now p p words.old result.p words.new }
{
    let mut q = lexer::eat_ws(text, p);
    if lexer::looks(text, q, end) {
        let q1 = lexer::pass(text, q, 1);
        return Listed {
            p: q1,
            n: 0,
            dots: 0,
        };
    }
    let mut n: u16 = 0;
    for _left in (0..records::LIST_TURNS).rev() {
        let x = pair_child(text, words, q, n, depth);
        let q1 = x.p;
        let e = lexer::comma_or(text, q1, end);
        n = x.n;
        q = e.p;
        if !e.more {
            return Listed { p: q, n, dots: 0 };
        }
    }
    let q1 = lexer::refuse(q, records::Q_CHILDREN);
    Listed { p: q1, n, dots: 0 }
}

// `[..]` and `{..}`, behind the opening byte.
#[cycle(value_readers)]
fn aggregate(text: &[u8], words: &mut [u64], p: Parsed, kind: u8, end: u8, depth: usize) -> Parsed
    ensures { Leads (aggregate kind end (parse_type depth) (parse_value depth)) 1 [] (made same text.now p) text.now p p words.old result words.new }
{
    let q = node_words::push(words, p, 0);
    let l = pair_list(text, words, q, end, depth);
    let q1 = l.p;
    node_words::close(words, p, q1, kind, records::D_NONE, l.n)
}

// `<{..}>`, behind the `<` that stands at `at`.
#[cycle(value_readers)]
fn packed_const(text: &[u8], words: &mut [u64], p: Parsed, at: usize, depth: usize) -> Parsed
    ensures { Leads (packed_const at (parse_type depth) (parse_value depth)) 1 [] (made same text.now p) text.now p p words.old result words.new }
{
    if lexer::looks(text, p, b'{') {
        let q = lexer::pass(text, p, 1);
        let q1 = node_words::push(words, q, 0);
        let l = pair_list(text, words, q1, b'}', depth);
        let q2 = l.p;
        let q3 = lexer::expect_token(text, q2, b'>');
        return node_words::close(words, p, q3, records::K_STRUCT_CONST, records::D_NONE, l.n);
    }
    lexer::refuse_at(p, records::Q_VALUE, at)
}

// The indices of a constant getelementptr, from before the comma through the `)`.
#[cycle(value_readers)]
fn gep_indices(text: &[u8], words: &mut [u64], p: Parsed, depth: usize) -> Listed
    ensures { Leads (gep_indices 65536 (parse_type depth) (parse_value depth) 3 []) 0 [] (made (listed result.n 0) text.now p) text.now p p words.old result.p words.new }
{
    let mut q = p;
    let mut n: u16 = 3;
    for _left in (0..records::LIST_TURNS).rev() {
        let e = lexer::comma_or(text, q, b')');
        if !e.more {
            return Listed { p: e.p, n, dots: 0 };
        }
        let q2 = lexer::skip_keyword(text, e.p, b"inrange");
        let x = pair_child(text, words, q2, n, depth);
        q = x.p;
        n = x.n;
    }
    let q1 = lexer::refuse(q, records::Q_CHILDREN);
    Listed { p: q1, n, dots: 0 }
}

// A constant getelementptr, behind the word (`parse_ce_gep`).
#[cycle(value_readers)]
fn parse_ce_gep(text: &[u8], words: &mut [u64], p: Parsed, depth: usize) -> Parsed
    ensures { Leads (parse_ce_gep (parse_type depth) (parse_value depth)) 1 [] (made same text.now p) text.now p p words.old result words.new }
{
    let f = value_leaves::parse_gep_flags(text, p);
    let q = f.p;
    let q1 = node_words::push(words, q, 0);
    let q2 = lexer::expect_token(text, q1, b'(');
    let q3 = types::parse_type(text, words, q2, depth);
    let q4 = lexer::expect_token(text, q3, b',');
    let q5 = parse_typed_val(text, words, q4, depth);
    let l = gep_indices(text, words, q5, depth);
    let q6 = l.p;
    node_words::close(words, p, q6, records::K_GEP_EXPR, f.v, l.n)
}

// A conversion of a constant, behind the word (`parse_ce_conv_body`).
#[cycle(value_readers)]
fn parse_ce_conv(text: &[u8], words: &mut [u64], p: Parsed, op: u8, depth: usize) -> Parsed
    ensures { Leads (parse_ce_conv op (parse_type depth) (parse_value depth)) 1 [] (made same text.now p) text.now p p words.old result words.new }
{
    let q = node_words::push(words, p, 0);
    let q1 = lexer::expect_token(text, q, b'(');
    let q2 = parse_typed_val(text, words, q1, depth);
    let q3 = lexer::expect_keyword(text, q2, b"to");
    let q4 = types::parse_type(text, words, q3, depth);
    let q5 = lexer::expect_token(text, q4, b')');
    node_words::close(words, p, q5, records::K_CONV_EXPR, op, 3)
}

// An operation on two constants, behind the word.
#[cycle(value_readers)]
fn parse_ce_bin(text: &[u8], words: &mut [u64], p: Parsed, op: u8, depth: usize) -> Parsed
    ensures { Leads (parse_ce_bin op (parse_type depth) (parse_value depth)) 1 [] (made same text.now p) text.now p p words.old result words.new }
{
    let q = node_words::push(words, p, 0);
    let q1 = attributes::skip_arith_flags(text, q);
    let q2 = lexer::expect_token(text, q1, b'(');
    let q3 = parse_typed_val(text, words, q2, depth);
    let q4 = lexer::expect_token(text, q3, b',');
    let q5 = parse_typed_val(text, words, q4, depth);
    let q6 = lexer::expect_token(text, q5, b')');
    node_words::close(words, p, q6, records::K_BIN_EXPR, op, 4)
}

// Constant expressions, or 6.
#[cycle(value_readers)]
fn const_exprs(text: &[u8], words: &mut [u64], p: Parsed, depth: usize) -> Parsed
    ensures { Reads (const_exprs (parse_type depth) (parse_value depth)) text.now p words.old result words.new }
{
    if lexer::word(text, p, b"getelementptr") {
        let q = lexer::pass_word(text, p, b"getelementptr");
        return parse_ce_gep(text, words, q, depth);
    }
    let c = value_leaves::match_op(text, p, &CONV_OPS);
    if let Some(op) = c.rank {
        return parse_ce_conv(text, words, c.p, op, depth);
    }
    let b = value_leaves::match_op(text, c.p, &BIN_OPS);
    if let Some(op) = b.rank {
        return parse_ce_bin(text, words, b.p, op, depth);
    }
    lexer::refuse(b.p, records::Q_VALUE)
}

// A value (`parse_value`).
#[cycle(value_readers)]
pub fn parse_value(text: &[u8], words: &mut [u64], p: Parsed, depth: usize) -> Parsed
    ensures { Reads (parse_value depth) text.now p words.old result words.new }
{
    let q = lexer::eat_ws(text, p);
    if depth == 0 {
        return lexer::refuse(q, records::Q_DEPTH);
    }
    if let Some(r) = value_leaves::leaf_value(text, words, q) {
        return r;
    }
    if lexer::looks(text, q, b'[') {
        let q1 = lexer::pass(text, q, 1);
        return aggregate(text, words, q1, records::K_ARRAY_CONST, b']', depth - 1);
    }
    if lexer::looks(text, q, b'{') {
        let q1 = lexer::pass(text, q, 1);
        return aggregate(text, words, q1, records::K_STRUCT_CONST, b'}', depth - 1);
    }
    if lexer::looks(text, q, b'<') {
        let at = lexer::place(q);
        let q1 = lexer::pass(text, q, 1);
        return packed_const(text, words, q1, at, depth - 1);
    }
    const_exprs(text, words, q, depth - 1)
}

// How many children there are behind a typed value.
#[derive(Clone, Copy)]
pub struct Pair {
    pub p: Parsed,
    pub n: u16,
}

// A type and a value as the next children of a list, which has n so far.
#[cycle(value_readers)]
pub fn pair_child(text: &[u8], words: &mut [u64], p: Parsed, n: u16, depth: usize) -> Pair
    ensures { Reads (pair_child (parse_type depth) (parse_value depth) n) text.now p words.old result.p words.new × Counts result.p result.n (n + 2) }
{
    if depth == 0 {
        let q = lexer::eat_ws(text, p);
        let q1 = lexer::refuse(q, records::Q_DEPTH);
        return Pair { p: q1, n };
    }
    let r = types::parse_type(text, words, p, depth);
    let r1 = lexer::count_child(r, n);
    let k = types::one_more(n);
    let r2 = parse_value(text, words, r1, depth);
    let r3 = lexer::count_child(r2, k);
    let m = types::one_more(k);
    Pair { p: r3, n: m }
}

// A type and a value (`parse_typed_val`).
#[cycle(value_readers)]
pub fn parse_typed_val(text: &[u8], words: &mut [u64], p: Parsed, depth: usize) -> Parsed
    ensures { Reads (parse_typed_val depth) text.now p words.old result words.new }
{
    if depth == 0 {
        let q = lexer::eat_ws(text, p);
        return lexer::refuse(q, records::Q_DEPTH);
    }
    let q = types::parse_type(text, words, p, depth);
    parse_value(text, words, q, depth)
}
