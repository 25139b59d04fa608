// The reader of the head (parser.rs, `parse_param_list` and the front of `parse_define`).
#![tactic(auto)]

ghost use Rattle.std.specs.Prelude.{◌≡◌, [], ℕ, ◌≤◌, ◌<◌, length};
ghost use Rattle.records.specs.Limits.{text_limit};
ghost use Rattle.grammar.specs.Body.{parse_param, parse_param_list, parse_head};
ghost use Rattle.grammar.specs.Function.{head_at};
ghost use Rattle.lexer.specs.Reads.{Leads, made};
ghost use Rattle.piece_directory.specs.Piece.{HeadIs};
ghost use Rattle.piece_head.specs.Part.{HeadIn, HeadDry};
ghost use Rattle.piece_head.specs.Reading.{params, parameter, shuts};

use lexer::{Cursor, Parsed};
use piece_counter::Counter;
use piece_directory::pieces::Piece;
use records::Refusal;

// Where the reader is behind the parameters: their number and the return type's, whether `...` ends them, and the counter.
#[derive(Clone, Copy)]
pub struct Params {
    pub p: Parsed,
    pub n: u16,
    pub dots: u8,
    pub c: u64,
}

// A parameter: a type, attributes, and a name where one stands; without one it takes the next number. The name's word stands before the type's.
fn parse_param(text: &[u8], words: &mut [u64], p: Parsed, c: u64) -> Counter
    ensures { (q : ℕ) → Leads (parse_param q c) 2 [] (parameter q result.c text.now p) text.now p p words.old result.p words.new }
{
    let q = node_words::push(words, p, 0);
    let q1 = node_words::push(words, q, 0);
    let q2 = types::parse_type(text, words, q1, records::DEPTH_LIMIT);
    let q3 = attributes::skip_attrs(text, q2);
    let q4 = lexer::eat_ws(text, q3);
    if lexer::looks(text, q4, b'%') {
        let q5 = lexer::pass(text, q4, 1);
        let n = piece_counter::counted_name(text, q5, c);
        let q6 = n.p;
        let q7 = node_words::patch(words, p, q6, 1, n.v);
        let q8 = node_words::close(words, p, q7, records::K_PARAM, records::D_NAMED, 1);
        return Counter { p: q8, c: n.c };
    }
    let at = lexer::place(q4);
    let d = piece_counter::take_next(q4, at, c);
    let q9 = d.p;
    let q10 = node_words::close(words, p, q9, records::K_PARAM, records::D_NONE, 1);
    Counter { p: q10, c: d.c }
}

// Parameters, `...` in the last place, through the parenthesis (`parse_param_list`). The return type is a child before them.
fn parse_param_list(text: &[u8], words: &mut [u64], p: Parsed) -> Params
    ensures { Leads parse_param_list 2 [] (made (params result.c result.n result.dots) text.now p) text.now p p words.old result.p words.new × (result.dots ≤ 1) }
{
    let mut q = lexer::eat_ws(text, p);
    if lexer::looks(text, q, b')') {
        let q1 = lexer::pass(text, q, 1);
        return Params {
            p: q1,
            n: 1,
            dots: 0,
            c: 0,
        };
    }
    let mut n: u16 = 1;
    let mut c: u64 = 0;
    for _left in (0..records::LIST_TURNS).rev() {
        let r = lexer::eat_ws(text, q);
        if lexer::looks(text, r, b'.') {
            let r1 = lexer_names::three_dots(text, r, records::Q_TYPE);
            let r2 = lexer::expect_token(text, r1, b')');
            return Params {
                p: r2,
                n,
                dots: records::D_DOTS,
                c,
            };
        }
        let x = parse_param(text, words, r, c);
        let r3 = x.p;
        let r4 = lexer::count_child(r3, n);
        let e = lexer::comma_or(text, r4, b')');
        n = types::one_more(n);
        c = x.c;
        q = e.p;
        if !e.more {
            return Params {
                p: q,
                n,
                dots: 0,
                c,
            };
        }
    }
    let q1 = lexer::refuse(q, records::Q_CHILDREN);
    Params {
        p: q1,
        n,
        dots: 0,
        c,
    }
}

// A linkage's rank as a byte.
fn rank_byte(rank: usize) -> u8
    ensures { (rank < 11 → result ≡ rank) × (result < 11) }
{
    if rank < 11 {
        return rank as u8;
    }
    records::NO_LINKAGE
}

// The head, through the `{`, and the counter behind it. The name's word stands before the type's, so its slot is filled behind the type.
fn head_node(text: &[u8], words: &mut [u64], p: Parsed) -> Counter
    ensures { Leads parse_head 2 [] (shuts result.c text.now p) text.now p p words.old result.p words.new }
{
    let mut q = node_words::push(words, p, 0);
    q = node_words::push(words, q, 0);
    let k = attributes::parse_linkage(text, q);
    let linkage = rank_byte(k.r);
    q = k.p;
    q = attributes::skip_attrs(text, q);
    q = attributes::skip_call_cconv(text, q);
    q = attributes::skip_attrs(text, q);
    q = types::parse_type(text, words, q, records::DEPTH_LIMIT);
    let name = lexer_names::parse_global_name(text, q);
    q = name.p;
    q = node_words::patch(words, p, q, 1, name.v);
    q = lexer::expect_token(text, q, b'(');
    let l = parse_param_list(text, words, q);
    q = l.p;
    let dots = l.dots;
    q = attributes::skip_attrs(text, q);
    q = lexer::eat_ws(text, q);
    if lexer::looks(text, q, b'{') {
        q = lexer::pass(text, q, 1);
        let detail = linkage + records::D_VARARGS * dots;
        q = node_words::close(words, p, q, records::K_HEAD, detail, l.n);
        return Counter { p: q, c: l.c };
    }
    q = lexer::refuse(q, records::Q_TOKEN);
    Counter { p: q, c: 0 }
}

// The head at the start of a text, its words at the start of `words`, as far as these reach.
pub fn parse_head(text: &[u8], words: &mut [u64]) -> Result<Piece, Refusal>
    requires { length text.now ≤ 16777216 }
    ensures { HeadIs (head_at text.now) result words.new × (length words.new ≡ length words.old) }
{
    let p = Ok(Cursor { at: 0, w: 0 });
    let h = head_node(text, words, p);
    let q = h.p;
    piece_close::piece_of(q, h.c)
}

// The head. Its words stand from `word` on, as far as `to`.
pub fn head_in(text: &[u8], words: &mut [u64], word: usize, to: usize) -> Result<Piece, Refusal>
    requires text_len_bound { length text.now ≤ text_limit }
    requires word_le_to { (word ≤ to) × (to ≤ length words.old) }
    ensures { HeadIn text.now word to words.old words.new result }
{
    parse_head(text, &mut words[word..to])
}

// The head, its words only counted.
pub fn head_dry(text: &[u8]) -> Result<Piece, Refusal>
    requires text_len_bound { length text.now ≤ text_limit }
    ensures { HeadDry text.now result }
{
    let mut none = [0u64; 0];
    parse_head(text, &mut none)
}
