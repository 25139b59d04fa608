// The values that hold no other, and what stands in front of constant expressions. Each function writes the words of what it reads behind the cursor.
#![tactic(auto)]

ghost use Rattle.std.specs.Prelude.{◌≡◌, true, List, [], ◌∷◌, ℕ, ◌≤◌, length};
ghost use Rattle.program.specs.Bytes.{bytes};
ghost use Rattle.program.specs.Prog.{ret};
ghost use Rattle.records.specs.Words.{node};
ghost use Rattle.records.specs.Limits.{turns};
ghost use Rattle.grammar.specs.Values.{cstring, leaf_values, parse_gep_flags};
ghost use Rattle.lexer.specs.Table.{keywords_of};
ghost use Rattle.lexer.specs.Step.{word_p};
ghost use Rattle.lexer.specs.Reads.{Leads, Reads, Gives, made, same};
ghost use Rattle.value_leaves.specs.Leaf.{Tried, key_values, Op, FlagStep};

use lexer::Parsed;

// An operator's rank, where one stands.
#[derive(Clone, Copy)]
pub struct Oper {
    pub p: Parsed,
    pub rank: Option<u8>,
}

// The conversions (`match_conv_op`).
pub static CONV_OPS: [&[u8]; 6] = [
    b"trunc",
    b"zext",
    b"sext",
    b"ptrtoint",
    b"inttoptr",
    b"bitcast",
];

// The binary operations (`match_bin_op`).
pub static BIN_OPS: [&[u8]; 13] = [
    b"add", b"sub", b"mul", b"udiv", b"sdiv", b"urem", b"srem", b"and", b"or", b"xor", b"shl",
    b"lshr", b"ashr",
];

// An operator of a table.
pub fn match_op(text: &[u8], p: Parsed, table: &[&[u8]]) -> Oper
    requires { length table.now ≤ 256 }
    ensures { Op (keywords_of table.now) text.now p result.p result.rank }
{
    let k = lexer_keywords::match_rank(text, p, table);
    if k.r < table.len() {
        return Oper {
            p: k.p,
            rank: Some(k.r as u8),
        };
    }
    Oper { p: k.p, rank: None }
}

// Where the reader is behind one flag, or behind them all; 1 where `inbounds` was among them.
#[derive(Clone, Copy)]
pub struct Flags {
    pub p: Parsed,
    pub v: u8,
    pub more: bool,
}

// One flag of a getelementptr, or none.
fn gep_flag(text: &[u8], p: Parsed, v: u8) -> Flags
    ensures { FlagStep text.now p v result.p result.v result.more }
{
    let q = lexer::eat_ws(text, p);
    if lexer::word(text, q, b"inbounds") {
        let q1 = lexer::pass_word(text, q, b"inbounds");
        return Flags {
            p: q1,
            v: records::D_INBOUNDS,
            more: true,
        };
    }
    if lexer::word(text, q, b"nuw") {
        let q1 = lexer::pass_word(text, q, b"nuw");
        return Flags {
            p: q1,
            v,
            more: true,
        };
    }
    if lexer::word(text, q, b"nusw") {
        let q1 = lexer::pass_word(text, q, b"nusw");
        return Flags {
            p: q1,
            v,
            more: true,
        };
    }
    if lexer::word(text, q, b"inrange") {
        let r = lexer::pass_word(text, q, b"inrange");
        let r1 = lexer_names::skip_parens(text, r);
        return Flags {
            p: r1,
            v,
            more: true,
        };
    }
    Flags {
        p: q,
        v,
        more: false,
    }
}

// The flags of a getelementptr (`parse_gep_flags`): whether `inbounds` is among them.
pub fn parse_gep_flags(text: &[u8], p: Parsed) -> Flags
    ensures { Gives (parse_gep_flags turns 0) result.v text.now p result.p }
{
    let mut q = p;
    let mut v: u8 = records::D_NONE;
    for _left in (0..records::TURNS).rev() {
        let f = gep_flag(text, q, v);
        q = f.p;
        v = f.v;
        if !f.more {
            return Flags {
                p: q,
                v,
                more: false,
            };
        }
    }
    Flags {
        p: q,
        v,
        more: false,
    }
}

// An integer that is a word.
fn bool_node(words: &mut [u64], p: Parsed, x: u64) -> Parsed
    ensures { (text : List ℕ) → Leads (ret (node 18 0 0 (0 ∷ x ∷ []))) 3 [] (made same text p) text p p words.old result words.new }
{
    let q = node_words::push(words, p, 0);
    let q1 = node_words::push(words, q, 0);
    let q2 = node_words::push(words, q1, x);
    node_words::close(words, p, q2, records::K_INT_CONST, records::D_NONE, 0)
}

// The values that are a word. No two words stand at one place, so they are tried by how often they come.
fn key_value(text: &[u8], words: &mut [u64], p: Parsed) -> Option<Parsed>
    ensures { Tried key_values text.now p words.old result words.new }
{
    if lexer::word(text, p, b"null") {
        let q = lexer::pass_word(text, p, b"null");
        let r = type_leaves::leaf(words, q, records::K_NULL);
        return Some(r);
    }
    if lexer::word(text, p, b"true") {
        let q = lexer::pass_word(text, p, b"true");
        let r = bool_node(words, q, 1);
        return Some(r);
    }
    if lexer::word(text, p, b"false") {
        let q = lexer::pass_word(text, p, b"false");
        let r = bool_node(words, q, 0);
        return Some(r);
    }
    if lexer::word(text, p, b"undef") {
        let q = lexer::pass_word(text, p, b"undef");
        let r = type_leaves::leaf(words, q, records::K_UNDEF);
        return Some(r);
    }
    if lexer::word(text, p, b"poison") {
        let q = lexer::pass_word(text, p, b"poison");
        let r = type_leaves::leaf(words, q, records::K_POISON);
        return Some(r);
    }
    if lexer::word(text, p, b"zeroinitializer") {
        let q = lexer::pass_word(text, p, b"zeroinitializer");
        let r = type_leaves::leaf(words, q, records::K_ZERO_INIT);
        return Some(r);
    }
    None
}

// `c".."`, or 6 where no quote is behind the `c`.
fn cstring_value(text: &[u8], words: &mut [u64], p: Parsed) -> Parsed
    ensures { word_p text.now p (bytes "c") ≡ true → Reads cstring text.now p words.old result words.new }
{
    let at = lexer::place(p);
    let q = lexer::pass(text, p, 1);
    let from = lexer::place(q);
    if lexer::looks(text, q, b'"') {
        let r = lexer::pass(text, q, 1);
        let r1 = node_words::push(words, r, 0);
        let n = lexer_names::cstring(text, r1, from);
        let r2 = n.p;
        let r3 = node_words::push(words, r2, n.v);
        return node_words::close(words, p, r3, records::K_CSTR, records::D_NONE, 0);
    }
    lexer::refuse_at(q, records::Q_VALUE, at)
}

// The values that hold no other.
fn any_leaf(text: &[u8], words: &mut [u64], p: Parsed) -> Option<Parsed>
    ensures { Tried leaf_values text.now p words.old result words.new }
{
    if lexer::looks(text, p, b'%') {
        let q = lexer::pass(text, p, 1);
        let r = type_leaves::name_node(text, words, q, records::K_LOCAL);
        return Some(r);
    }
    if lexer::looks(text, p, b'@') {
        let q = lexer::pass(text, p, 1);
        let r = type_leaves::name_node(text, words, q, records::K_GLOBAL);
        return Some(r);
    }
    if let Some(r) = number_nodes::numeric(text, words, p) {
        return Some(r);
    }
    if let Some(r) = key_value(text, words, p) {
        return Some(r);
    }
    if lexer::word(text, p, b"c") {
        let r = cstring_value(text, words, p);
        return Some(r);
    }
    if lexer::tests::starts(text, p, b"f0x") {
        let t = lexer::pass_word(text, p, b"f0x");
        let r = number_nodes::f0x_value(text, words, t);
        return Some(r);
    }
    None
}

// The same, its answer made anew.
pub fn leaf_value(text: &[u8], words: &mut [u64], p: Parsed) -> Option<Parsed>
    ensures { Tried leaf_values text.now p words.old result words.new }
{
    match any_leaf(text, words, p) {
        Some(r) => Some(lexer::anew(r)),
        None => None,
    }
}
