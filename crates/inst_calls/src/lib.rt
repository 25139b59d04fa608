// `parse_call`: a function type in a call repeats the return type, whose words are copied to where they belong too.
#![tactic(auto)]

ghost use Rattle.std.specs.Prelude.{◌≡◌, List, [], ◌∷◌, ℕ, ◌+◌, ◌≤◌, ◌<◌, length};
ghost use Rattle.program.specs.Prog.{ret};
ghost use Rattle.grammar.specs.Types.{listed};
ghost use Rattle.grammar.specs.Instructions.{arg_item, parse_arg_list, call_rest, parse_call, parse_tail_call, parse_plain_call, parse_plain_tail_call};
ghost use Rattle.lexer.specs.Reads.{Leads, Counts, made, same};
ghost use Rattle.inst_operands.specs.Rich.{richly};
ghost use Rattle.inst_calls.specs.Copy.{copied, Held};
ghost use Rattle.inst_calls.specs.Func.{func_type};
ghost use Rattle.inst_calls.specs.Void.{VoidType, Voids, void_p};
ghost use Rattle.grammar.specs.Counter.{counted};

use lexer::{Cursor, Parsed};
use piece_counter::Counter;
use types::Listed;
use values::Pair;

// An argument: a typed value with attributes behind its type, as the next children of a list, which has n so far.
fn arg_item(text: &[u8], words: &mut [u64], p: Parsed, n: u16) -> Pair
    ensures { Leads (arg_item n) 0 [] (made same text.now p) text.now p p words.old result.p words.new × Counts result.p result.n (n + 2) }
{
    let q = types::parse_type(text, words, p, records::DEPTH_LIMIT);
    let q1 = lexer::count_child(q, n);
    let k = types::one_more(n);
    let q2 = attributes::skip_attrs(text, q1);
    let q3 = values::parse_value(text, words, q2, records::DEPTH_LIMIT);
    let q4 = lexer::count_child(q3, k);
    let k1 = types::one_more(k);
    Pair { p: q4, n: k1 }
}

// The arguments, behind the `(` (`parse_arg_list`); n children stand before them.
fn parse_arg_list(text: &[u8], words: &mut [u64], p: Parsed, n: u16) -> Listed
    ensures { Leads (parse_arg_list n) 0 [] (made (listed result.n 0) text.now p) text.now p p words.old result.p words.new }
{
    let mut q = lexer::eat_ws(text, p);
    if lexer::looks(text, q, b')') {
        q = lexer::pass(text, q, 1);
        return Listed { p: q, n, dots: 0 };
    }
    let mut m: u16 = n;
    for _left in (0..records::LIST_TURNS).rev() {
        q = lexer::eat_ws(text, q);
        if lexer::looks(text, q, b'.') {
            q = lexer_names::three_dots(text, q, records::Q_TYPE);
            q = lexer::expect_token(text, q, b')');
            return Listed {
                p: q,
                n: m,
                dots: 0,
            };
        }
        let x = arg_item(text, words, q, m);
        let e = lexer::comma_or(text, x.p, b')');
        m = x.n;
        q = e.p;
        if !e.more {
            return Listed {
                p: q,
                n: m,
                dots: 0,
            };
        }
    }
    q = lexer::refuse(q, records::Q_CHILDREN);
    Listed {
        p: q,
        n: m,
        dots: 0,
    }
}

// Behind the types: callee, arguments, attributes, trailing part; the node was begun at p0.
fn call_rest(text: &[u8], words: &mut [u64], p0: Parsed, p: Parsed, d: u8, n: u16) -> Parsed
    ensures { (dest : ℕ) (types : List ℕ) → Leads (call_rest dest d n types) 0 (0 ∷ dest ∷ types) (made same text.now p0) text.now p0 p words.old result words.new }
{
    let q = values::parse_value(text, words, p, records::DEPTH_LIMIT);
    let q1 = lexer::expect_token(text, q, b'(');
    let l = parse_arg_list(text, words, q1, n);
    let q2 = attributes::skip_attrs(text, l.p);
    inst_operands::end(text, words, p0, q2, records::K_CALL, d, l.n)
}

// The n words from `from` on stand from `to` on too, where that is not before them; as far as the array reaches.
// One after the other, as `copied` says it: where the two parts overlap `copy_within` would give other words.
fn copy(words: &mut [u64], from: usize, to: usize, n: usize)
    ensures { from ≤ to → words.new ≡ copied n from to words.old }
{
    if to < from {
        return;
    }
    let room = words.len().saturating_sub(to);
    for k in 0..n {
        if room <= k {
            return;
        }
        words[to + k] = words[from + k];
    }
}

// The words between a and b stand once more behind p.
fn again(words: &mut [u64], a: Parsed, b: Parsed, p: Parsed) -> Parsed
    ensures { (text t : List ℕ) → Held t a b p words.old → Leads (ret t) (length t) [] (made same text p) text p p words.old result words.new }
{
    let c = p?;
    match (a, b) {
        (Ok(x), Ok(y)) => {
            let n = y.w.saturating_sub(x.w);
            copy(words, x.w, c.w, n);
            let w = c.w.saturating_add(n);
            Ok(Cursor { at: c.at, w })
        }
        _ => p,
    }
}

// The function type, behind the `(`: the words since s are those of its return type.
fn func_type(text: &[u8], words: &mut [u64], p: Parsed, s: Parsed) -> Parsed
    ensures { (t : List ℕ) → Held t s p p words.old → Leads (func_type t) (length t + 1) [] (made same text.now p) text.now p p words.old result words.new }
{
    let q = node_words::push(words, p, 0);
    let q1 = again(words, s, p, q);
    let l = types::parse_type_list(text, words, q1, records::LIST_DEPTH);
    node_words::close(words, p, l.p, records::K_FUNC, l.dots, l.n)
}

// Where the reader is behind a call, and whether it is void, if it has no destination: its type tells that, whatever is refused behind it.
#[derive(Clone, Copy)]
struct Called {
    p: Parsed,
    void: bool,
}

// Is that the header of void's node? It was read where the reader has come behind it with a word.
fn is_void(p: Parsed, first: u64) -> bool
    ensures { result ≡ void_p p first }
{
    match p {
        Ok(c) => 0 < c.w && first == records::VOID_NODE,
        Err(_) => false,
    }
}

// Is the type there void? It is asked of a call without a destination, whose type is read into a word of its own: no array may be lent for it.
fn void_type(text: &[u8], p: Parsed, dest: u64) -> bool
    ensures { dest ≡ 0 → VoidType text.now p result }
{
    if dest != 0 {
        return false;
    }
    let nowhere = Ok(Cursor { at: 0, w: 0 });
    let q = inst_operands::resume(nowhere, p);
    let mut first: [u64; 1] = [0];
    let q1 = types::parse_type(text, &mut first, q, records::DEPTH_LIMIT);
    is_void(q1, first[0])
}

// `call T V(..)`, behind the word.
fn call_node(text: &[u8], words: &mut [u64], p: Parsed, dest: u64) -> Called
    ensures { Leads (parse_call dest) 3 [] (richly text.now (made same text.now p)) text.now p p words.old result.p words.new × (dest ≡ 0 → Voids text.now p result.void) }
{
    let q = node_words::begin(words, p, dest);
    let q1 = attributes::skip_call_cconv(text, q);
    let s = attributes::skip_attrs(text, q1);
    let void = void_type(text, s, dest);
    let q2 = types::parse_type(text, words, s, records::DEPTH_LIMIT);
    let q3 = lexer::eat_ws(text, q2);
    if lexer::looks(text, q3, b'(') {
        let q4 = lexer::pass(text, q3, 1);
        let q5 = func_type(text, words, q4, s);
        let q6 = call_rest(text, words, p, q5, records::D_FUNCTION_TYPE, 3);
        return Called { p: q6, void };
    }
    let q7 = call_rest(text, words, p, q3, records::D_NONE, 2);
    Called { p: q7, void }
}

// `call T V(..)` with a destination, behind the word.
pub fn parse_call(text: &[u8], words: &mut [u64], p: Parsed, dest: u64) -> Parsed
    ensures { Leads (parse_call dest) 3 [] (richly text.now (made same text.now p)) text.now p p words.old result words.new }
{
    call_node(text, words, p, dest).p
}

// `tail call` and its like, behind the first word.
pub fn parse_tail_call(text: &[u8], words: &mut [u64], p: Parsed, dest: u64) -> Parsed
    ensures { Leads (parse_tail_call dest) 3 [] (richly text.now (made same text.now p)) text.now p p words.old result words.new }
{
    let q = lexer::expect_keyword(text, p, b"call");
    parse_call(text, words, q, dest)
}

// `call T V(..)` without a destination, behind the word, where the counter is c: M-106, one that is not void takes the next number.
pub fn parse_plain_call(text: &[u8], words: &mut [u64], p: Parsed, c: u64) -> Counter
    ensures { Leads (parse_plain_call c) 3 [] (richly text.now (made (counted result.c) text.now p)) text.now p p words.old result.p words.new }
{
    let r = call_node(text, words, p, 0);
    if r.void {
        return Counter { p: r.p, c };
    }
    piece_counter::take_next(r.p, lexer::place(r.p), c)
}

// `tail call` and its like without a destination, behind the first word.
pub fn parse_plain_tail_call(text: &[u8], words: &mut [u64], p: Parsed, c: u64) -> Counter
    ensures { Leads (parse_plain_tail_call c) 3 [] (richly text.now (made (counted result.c) text.now p)) text.now p p words.old result.p words.new }
{
    let q = lexer::expect_keyword(text, p, b"call");
    parse_plain_call(text, words, q, c)
}
