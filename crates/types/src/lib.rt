// The reader of types (parser.rs, "Types"). Each function writes the words of what it reads behind the cursor.
#![tactic(auto)]

ghost use Rattle.std.specs.Prelude.{◌≡◌, List, [], ℕ, ◌+◌, ◌<◌};
ghost use Rattle.grammar.specs.Types.{listed, struct_fields, parse_type_list, array_type, struct_type, packed_type, parse_base_type, suffixes, no_type, parse_type};
ghost use Rattle.lexer.specs.Reads.{Leads, Reads, made, same};
ghost use Rattle.types.specs.Reading.{typed, Types};

use lexer::Parsed;

// A list's answer: how many, and 1 where `...` ends it.
#[derive(Clone, Copy)]
pub struct Listed {
    pub p: Parsed,
    pub n: u16,
    pub dots: u8,
}

// One more, below the children's limit.
pub fn one_more(n: u16) -> u16
    ensures { n < 65535 → result ≡ n + 1 }
{
    n.saturating_add(1)
}

// What a type refuses with where none begins.
fn no_type(depth: usize) -> u64
    ensures { result ≡ no_type depth }
{
    if depth == 0 {
        return records::Q_DEPTH;
    }
    records::Q_TYPE
}

// `{ T, T, .. }`, behind the opening brace.
#[cycle(type_readers)]
fn parse_struct_fields(text: &[u8], words: &mut [u64], p: Parsed, depth: usize) -> Listed
    ensures { Leads (struct_fields (parse_type depth)) 0 [] (made (listed result.n 0) text.now p) text.now p p words.old result.p words.new }
{
    let mut q = lexer::eat_ws(text, p);
    if lexer::looks(text, q, b'}') {
        let q1 = lexer::pass(text, q, 1);
        return Listed {
            p: q1,
            n: 0,
            dots: 0,
        };
    }
    let mut n: u16 = 0;
    for _left in (0..records::LIST_TURNS).rev() {
        let r = parse_type(text, words, q, depth);
        let r1 = lexer::count_child(r, n);
        let e = lexer::comma_or(text, r1, b'}');
        n = one_more(n);
        q = e.p;
        if !e.more {
            return Listed { p: q, n, dots: 0 };
        }
    }
    let q1 = lexer::refuse(q, records::Q_CHILDREN);
    Listed { p: q1, n, dots: 0 }
}

// Types with attributes, `...` in the last place, through the parenthesis (`parse_type_list`). The return type counts with them.
#[cycle(type_readers)]
pub fn parse_type_list(text: &[u8], words: &mut [u64], p: Parsed, depth: usize) -> Listed
    ensures { Leads (parse_type_list (no_type depth) (parse_type depth)) 0 [] (made (listed result.n result.dots) text.now p) text.now p p words.old result.p words.new }
{
    let mut q = lexer::eat_ws(text, p);
    if lexer::looks(text, q, b')') {
        let q1 = lexer::pass(text, q, 1);
        return Listed {
            p: q1,
            n: 1,
            dots: 0,
        };
    }
    let bad = no_type(depth);
    let mut n: u16 = 1;
    for _left in (0..records::LIST_TURNS).rev() {
        let r = lexer::eat_ws(text, q);
        if lexer::looks(text, r, b'.') {
            let r1 = lexer_names::three_dots(text, r, bad);
            let r2 = lexer::expect_token(text, r1, b')');
            return Listed {
                p: r2,
                n,
                dots: records::D_DOTS,
            };
        }
        let r3 = parse_type(text, words, r, depth);
        let r4 = lexer::count_child(r3, n);
        let r5 = attributes::skip_attrs(text, r4);
        let e = lexer::comma_or(text, r5, b')');
        n = one_more(n);
        q = e.p;
        if !e.more {
            return Listed { p: q, n, dots: 0 };
        }
    }
    let q1 = lexer::refuse(q, records::Q_CHILDREN);
    Listed { p: q1, n, dots: 0 }
}

// `[N x T]` and `<N x T>`, behind the opening byte.
#[cycle(type_readers)]
fn array_type(
    text: &[u8],
    words: &mut [u64],
    p: Parsed,
    packed: u8,
    end: u8,
    depth: usize,
) -> Parsed
    ensures { (end ≡ 40 → ⊥) → Leads (array_type packed end (parse_type depth)) 2 [] (made same text.now p) text.now p p words.old result words.new }
{
    let q = node_words::push(words, p, 0);
    let q1 = lexer::eat_ws(text, q);
    let n = number_counts::parse_int(text, q1, 0, records::NUMBER_LIMIT);
    let q2 = n.p;
    let q3 = node_words::push(words, q2, n.v);
    let q4 = lexer::expect_keyword(text, q3, b"x");
    let q5 = parse_type(text, words, q4, depth);
    let q6 = lexer::expect_token(text, q5, end);
    node_words::close(words, p, q6, records::K_ARRAY, packed, 1)
}

// `{..}`, behind the opening brace.
#[cycle(type_readers)]
fn struct_type(text: &[u8], words: &mut [u64], p: Parsed, depth: usize) -> Parsed
    ensures { Leads (struct_type (parse_type depth)) 1 [] (made same text.now p) text.now p p words.old result words.new }
{
    let q = node_words::push(words, p, 0);
    let l = parse_struct_fields(text, words, q, depth);
    let q1 = l.p;
    node_words::close(words, p, q1, records::K_STRUCT, records::D_NONE, l.n)
}

// `<{..}>` and `<N x T>`, behind the `<`.
#[cycle(type_readers)]
fn packed_type(text: &[u8], words: &mut [u64], p: Parsed, depth: usize) -> Parsed
    ensures { Leads (packed_type (parse_type depth)) 2 [] (made same text.now p) text.now p p words.old result words.new }
{
    if lexer::looks(text, p, b'{') {
        let q = lexer::pass(text, p, 1);
        let q1 = node_words::push(words, q, 0);
        let l = parse_struct_fields(text, words, q1, depth);
        let q2 = l.p;
        let q3 = lexer::expect_token(text, q2, b'>');
        return node_words::close(words, p, q3, records::K_STRUCT, records::D_PACKED, l.n);
    }
    array_type(text, words, p, records::D_PACKED, b'>', depth)
}

// A type without what may stand behind it. No keyword begins with a byte that is tried first.
#[cycle(type_readers)]
fn parse_base_type(text: &[u8], words: &mut [u64], p: Parsed, depth: usize) -> Parsed
    ensures { Reads (parse_base_type (parse_type depth)) text.now p words.old result words.new }
{
    if lexer::looks(text, p, b'i') {
        let q = lexer::pass(text, p, 1);
        return type_leaves::int_type(text, words, q);
    }
    if lexer::looks(text, p, b'%') {
        let q = lexer::pass(text, p, 1);
        return type_leaves::name_node(text, words, q, records::K_NAMED);
    }
    if lexer::looks(text, p, b'[') {
        let q = lexer::pass(text, p, 1);
        return array_type(text, words, q, 0, b']', depth);
    }
    if lexer::looks(text, p, b'{') {
        let q = lexer::pass(text, p, 1);
        return struct_type(text, words, q, depth);
    }
    if lexer::looks(text, p, b'<') {
        let q = lexer::pass(text, p, 1);
        return packed_type(text, words, q, depth);
    }
    type_leaves::keyword_type(text, words, p)
}

// What may stand behind a type, whose words begin at p0.
#[cycle(type_readers)]
fn type_suffixes(text: &[u8], words: &mut [u64], p0: Parsed, p: Parsed, depth: usize) -> Parsed
    ensures { (t : List ℕ) → Leads (suffixes 16777217 (no_type depth) (parse_type depth) t) 0 t (typed (parse_type_list (no_type depth) (parse_type depth)) text.now p0) text.now p0 p words.old result words.new }
{
    let mut q = p;
    for _left in (0..records::TURNS).rev() {
        let r = lexer::eat_ws(text, q);
        if lexer::looks(text, r, b'(') {
            let s = lexer::pass(text, r, 1);
            let l = parse_type_list(text, words, s, depth);
            let s1 = l.p;
            let s2 = lexer::eat_ws(text, s1);
            if lexer::looks(text, s2, b'*') {
                let t = lexer::pass(text, s2, 1);
                q = node_words::replace(words, p0, t, records::PTR_NODE);
            } else {
                return node_words::back_to(r, s2);
            }
        } else {
            let s = type_leaves::opt_addrspace(text, r);
            if lexer::looks(text, s, b'*') {
                let t = lexer::pass(text, s, 1);
                q = node_words::replace(words, p0, t, records::PTR_NODE);
            } else {
                return s;
            }
        }
    }
    q
}

// A type (`parse_type`). At a parenthesis behind it that no `*` follows the cursor is back at the parenthesis.
#[cycle(type_readers)]
pub fn parse_type(text: &[u8], words: &mut [u64], p: Parsed, depth: usize) -> Parsed
    ensures { Types depth text.now p words.old result words.new }
{
    let q = lexer::eat_ws(text, p);
    if depth == 0 {
        return lexer::refuse(q, records::Q_DEPTH);
    }
    let r = parse_base_type(text, words, q, depth - 1);
    type_suffixes(text, words, q, r, depth - 1)
}
