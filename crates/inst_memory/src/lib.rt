// The readers of the instructions on memory and aggregates (parser.rs, "memory"), each behind its opcode. Each writes the words of its node behind
// the cursor: a slot for the header, the destination, the operands; then the header.
#![tactic(auto)]

ghost use Rattle.std.specs.Prelude.{◌≡◌, [], ℕ, ◌*◌, length, MatchResult};
ghost use Rattle.grammar.specs.Lexer.{rank, spelled};
ghost use Rattle.grammar.specs.Instructions.{skip_atomic_ordering, load_operands, store_operands, access, parse_load, parse_store, gep_inst_indices, parse_gep_inst, pointer_then_value, parse_cmpxchg, rmw_ops, rmw_op, parse_atomicrmw, clauses, parse_alloca, parse_extractvalue, parse_fence};
ghost use Rattle.records.specs.Details.{d_alloca_align};
ghost use Rattle.lexer.specs.Parsed.{Ok, Err};
ghost use Rattle.lexer_names.specs.Names.{part, raw_word};
ghost use Rattle.lexer.specs.Reads.{Leads, Gives, made, same, Reads};
ghost use Rattle.inst_operands.specs.Trailing.{align_of};
ghost use Rattle.inst_memory.specs.Access.{access_operands};
ghost use Rattle.inst_memory.specs.Ordering.{opt_scope};
ghost use Rattle.records.specs.Limits.{turns};
ghost use Rattle.grammar.specs.Types.{listed};
ghost use Rattle.std.proofs.Math.Option.{none};
ghost use Rattle.inst_operands.specs.Rich.{richly};
ghost use Rattle.inst_operands.specs.Dry.{Dry};
ghost use Rattle.inst_memory.specs.Alloca.{counting, counted, aligned_p, aligns, RestIs};

use lexer::{Cursor, Parsed};
use records::Refusal;
use types::Listed;

// `syncscope(..)`, where it stands.
fn opt_scope(text: &[u8], p: Parsed) -> Parsed
    ensures { Gives opt_scope tt text.now p result }
{
    if lexer::word(text, p, b"syncscope") {
        let q = lexer::pass_word(text, p, b"syncscope");
        return lexer_names::skip_parens(text, q);
    }
    p
}

static ORDERINGS: [&[u8]; 6] = [
    b"seq_cst",
    b"acq_rel",
    b"acquire",
    b"release",
    b"monotonic",
    b"unordered",
];

// A scope and an ordering, where they stand (`skip_atomic_ordering`).
pub fn skip_atomic_ordering(text: &[u8], p: Parsed) -> Parsed
    ensures { Gives skip_atomic_ordering tt text.now p result }
{
    let q = lexer::eat_ws(text, p);
    let q1 = opt_scope(text, q);
    lexer_keywords::skip_one(text, q1, &ORDERINGS)
}

// T, T V
fn load_operands(text: &[u8], words: &mut [u64], p: Parsed) -> Parsed
    ensures { Reads load_operands text.now p words.old result words.new }
{
    let q = types::parse_type(text, words, p, records::DEPTH_LIMIT);
    let q1 = lexer::expect_token(text, q, b',');
    inst_operands::parse_operand(text, words, q1)
}

// T V, T V
fn store_operands(text: &[u8], words: &mut [u64], p: Parsed) -> Parsed
    ensures { Reads store_operands text.now p words.old result words.new }
{
    let q = values::parse_typed_val(text, words, p, records::DEPTH_LIMIT);
    let q1 = lexer::expect_token(text, q, b',');
    inst_operands::parse_operand(text, words, q1)
}

// The operands of a load, or of a store.
fn access_operands(text: &[u8], words: &mut [u64], p: Parsed, store: bool) -> Parsed
    ensures { Reads (access_operands store) text.now p words.old result words.new }
{
    if store {
        return store_operands(text, words, p);
    }
    load_operands(text, words, p)
}

// What a load and a store do not share: which it is, the kinds of its node, and how many children.
#[derive(Clone, Copy)]
struct Form {
    store: bool,
    kind: u8,
    atomic: u8,
    n: u16,
}

// A load or a store. The alignment stands before the operands and is known behind them: a slot is left for it, and where there is none the
// operands are read again without the slot.
fn parse_access(text: &[u8], words: &mut [u64], p: Parsed, dest: u64, form: Form) -> Parsed
    ensures { Leads (access form.kind form.atomic form.n (access_operands form.store) dest) 3 [] (made same text.now p) text.now p p words.old result words.new }
{
    let q = node_words::begin(words, p, dest);
    let q1 = lexer::eat_ws(text, q);
    if lexer::word(text, q1, b"atomic") {
        let q2 = lexer::pass_word(text, q1, b"atomic");
        let q3 = lexer::skip_keyword(text, q2, b"volatile");
        let q4 = access_operands(text, words, q3, form.store);
        let q5 = skip_atomic_ordering(text, q4);
        return inst_operands::end(text, words, p, q5, form.atomic, records::D_NONE, form.n);
    }
    let p1 = lexer::skip_keyword(text, q1, b"volatile");
    let q6 = node_words::push(words, p1, 0);
    let q7 = access_operands(text, words, q6, form.store);
    let t = inst_operands::parse_trailing(text, q7);
    let q8 = t.p;
    match t.align {
        None => {
            let z = access_operands(text, words, p1, form.store);
            let q9 = inst_operands::resume(z, q8);
            node_words::close(words, p, q9, form.kind, records::D_NONE, form.n)
        }
        Some(v) => {
            let q10 = node_words::patch(words, p, q8, 2, v);
            node_words::close(words, p, q10, form.kind, records::D_ALIGN, form.n)
        }
    }
}

// `load T, T V`
pub fn parse_load(text: &[u8], words: &mut [u64], p: Parsed, dest: u64) -> Parsed
    ensures { Leads (parse_load dest) 3 [] (made same text.now p) text.now p p words.old result words.new }
{
    let form = Form {
        store: false,
        kind: records::K_LOAD,
        atomic: records::K_ATOMIC_LOAD,
        n: 2,
    };
    parse_access(text, words, p, dest, form)
}

// `store T V, T V`, with no destination.
pub fn parse_store(text: &[u8], words: &mut [u64], p: Parsed) -> Parsed
    ensures { Leads parse_store 3 [] (made same text.now p) text.now p p words.old result words.new }
{
    let form = Form {
        store: true,
        kind: records::K_STORE,
        atomic: records::K_ATOMIC_STORE,
        n: 3,
    };
    parse_access(text, words, p, 0, form)
}

// T V, T V: the pointer is read first and stands behind the value's type.
fn pointer_then_value(text: &[u8], words: &mut [u64], p: Parsed) -> Parsed
    ensures { Leads pointer_then_value 0 [] (richly text.now (made same text.now p)) text.now p p words.old result words.new }
{
    let q = inst_operands::pass_operand(text, p);
    let q1 = node_words::join(p, q);
    let q2 = lexer::expect_token(text, q1, b',');
    let q3 = types::parse_type(text, words, q2, records::DEPTH_LIMIT);
    let z = inst_operands::resume(q3, p);
    let z1 = inst_operands::parse_operand(text, words, z);
    let q4 = inst_operands::resume(z1, q3);
    values::parse_value(text, words, q4, records::DEPTH_LIMIT)
}

// `cmpxchg T V, T V, T V ..`
pub fn parse_cmpxchg(text: &[u8], words: &mut [u64], p: Parsed, dest: u64) -> Parsed
    ensures { Leads (parse_cmpxchg dest) 3 [] (richly text.now (made same text.now p)) text.now p p words.old result words.new }
{
    let mut q = node_words::begin(words, p, dest);
    q = lexer::skip_keyword(text, q, b"weak");
    q = lexer::skip_keyword(text, q, b"volatile");
    q = pointer_then_value(text, words, q);
    q = lexer::expect_token(text, q, b',');
    q = inst_operands::parse_operand(text, words, q);
    q = skip_atomic_ordering(text, q);
    q = skip_atomic_ordering(text, q);
    inst_operands::end(text, words, p, q, records::K_CMPXCHG, records::D_NONE, 4)
}

// The operations of `atomicrmw`, in ast.rs order.
static RMW_OPS: [&[u8]; 7] = [b"xchg", b"add", b"sub", b"and", b"or", b"xor", b"nand"];

// The rank of the operation that stands from a place to another.
fn rmw_rank(text: &[u8], from: usize, to: usize) -> usize
    ensures { result ≡ rank (spelled (raw_word (part text.now from to))) rmw_ops }
{
    lexer_spelling::spelled_rank(text, from, to, &RMW_OPS)
}

// Behind the operation's word, quoted or not, and its rank; 9 behind any other.
fn rmw_op(text: &[u8], p: Parsed) -> Result<(Cursor, u8), Refusal>
    ensures { MatchResult result (λ x. Gives rmw_op x.1 text.now p (Ok x.0)) (λ e. (r : ℕ) → Gives rmw_op r text.now p (Err e)) }
{
    let q = lexer::eat_ws(text, p);
    let x = lexer_names::read_word(text, q);
    let c = x.p?;
    let r = rmw_rank(text, x.start, x.end);
    if r < RMW_OPS.len() {
        return Ok((c, r as u8));
    }
    Err(Refusal {
        question: records::Q_OPCODE,
        place: c.at,
    })
}

// `atomicrmw OP T V, T V ..`
pub fn parse_atomicrmw(text: &[u8], words: &mut [u64], p: Parsed, dest: u64) -> Parsed
    ensures { Leads (parse_atomicrmw dest) 3 [] (richly text.now (made same text.now p)) text.now p p words.old result words.new }
{
    let mut q = node_words::begin(words, p, dest);
    q = lexer::skip_keyword(text, q, b"volatile");
    let (c, op) = rmw_op(text, q)?;
    q = pointer_then_value(text, words, Ok(c));
    q = skip_atomic_ordering(text, q);
    inst_operands::end(text, words, p, q, records::K_ATOMIC_RMW, op, 3)
}

// `extractvalue T V, N`: the number's slot is filled behind the operand.
pub fn parse_extractvalue(text: &[u8], words: &mut [u64], p: Parsed, dest: u64) -> Parsed
    ensures { Leads (parse_extractvalue dest) 3 [] (made same text.now p) text.now p p words.old result words.new }
{
    let mut q = node_words::begin(words, p, dest);
    q = node_words::push(words, q, 0);
    q = inst_operands::parse_operand(text, words, q);
    q = lexer::expect_token(text, q, b',');
    q = lexer::eat_ws(text, q);
    let n = number_counts::parse_int(text, q, 0, records::INDEX_LIMIT);
    q = node_words::patch(words, p, n.p, 2, n.v);
    inst_operands::end(
        text,
        words,
        p,
        q,
        records::K_EXTRACT_VALUE,
        records::D_NONE,
        1,
    )
}

// `fence ..`
pub fn parse_fence(text: &[u8], words: &mut [u64], p: Parsed) -> Parsed
    ensures { Leads parse_fence 2 [] (made same text.now p) text.now p p words.old result words.new }
{
    let mut q = node_words::begin(words, p, 0);
    q = skip_atomic_ordering(text, q);
    inst_operands::end(text, words, p, q, records::K_FENCE, records::D_NONE, 0)
}

// Where the reader is behind what stands behind an alloca's type, whether there is a count, and the last alignment.
#[derive(Clone, Copy)]
struct Rest {
    c: Cursor,
    counted: bool,
    align: Option<u64>,
}

// The last count, written, and the last alignment.
fn alloca_rest(text: &[u8], words: &mut [u64], p: Parsed) -> Result<Rest, Refusal>
    ensures { RestIs result (λ n al q. Leads (counting 16777217 none []) 0 [] (made (λ ws. clauses (counted n ws) al) text.now p) text.now p p words.old q words.new) }
{
    let mut q = p;
    let mut counted = false;
    let mut align = None;
    for _left in (0..records::TURNS).rev() {
        q = lexer::eat_ws(text, q);
        if lexer::looks(text, q, b',') {
            q = lexer::pass(text, q, 1);
            q = lexer::eat_ws(text, q);
            if lexer::word(text, q, b"align") {
                q = lexer::pass_word(text, q, b"align");
                q = lexer::eat_ws(text, q);
                let k = number_counts::parse_int(text, q, 0, records::NUMBER_LIMIT);
                q = k.p;
                align = Some(k.v);
            } else {
                if lexer::looks(text, q, b'!') {
                    q = lexer::pass(text, q, 1);
                    q = lexer_names::skip_metadata_ref(text, q);
                } else {
                    q = inst_operands::resume(p, q);
                    q = values::parse_typed_val(text, words, q, records::DEPTH_LIMIT);
                    counted = true;
                }
            }
        } else {
            let c = q?;
            return Ok(Rest { c, counted, align });
        }
    }
    let c = q?;
    Ok(Rest { c, counted, align })
}

// The same, not written.
fn pass_rest(text: &[u8], p: Parsed) -> Result<Rest, Refusal>
    ensures { RestIs result (λ n al q. Dry (counting 16777217 none []) (made (λ ws. clauses (counted n ws) al) text.now p) text.now p q) }
{
    let mut none: [u64; 0] = [];
    alloca_rest(text, &mut none, p)
}

// The alignment's word, where there is one.
fn push_align(words: &mut [u64], p: Parsed, align: Option<u64>) -> Parsed
    ensures { (result ≡ aligned_p align p) × (words.new ≡ aligns align p words.old) }
{
    match align {
        Some(v) => node_words::push(words, p, v),
        None => p,
    }
}

// Detail bit 1 says that an alignment is there.
fn align_bit(align: Option<u64>) -> u8
    ensures { result ≡ length (align_of align) * d_alloca_align }
{
    match align {
        Some(_) => records::D_ALLOCA_ALIGN,
        None => records::D_NONE,
    }
}

// `alloca T, T V, align N`
pub fn parse_alloca(text: &[u8], words: &mut [u64], p: Parsed, dest: u64) -> Parsed
    ensures { Leads (parse_alloca dest) 3 [] (richly text.now (made same text.now p)) text.now p p words.old result words.new }
{
    let q = node_words::begin(words, p, dest);
    let p1 = lexer::skip_keyword(text, q, b"inalloca");
    let q1 = inst_operands::pass_type(text, p1);
    let p2 = node_words::join(p1, q1);
    if lexer::looks(text, p2, b'(') {
        return lexer::refuse(p2, records::Q_STATEMENT);
    }
    let s = pass_rest(text, p2)?;
    let q3 = node_words::join(p2, Ok(s.c));
    let q4 = push_align(words, q3, s.align);
    let z = inst_operands::resume(q4, p1);
    let z1 = types::parse_type(text, words, z, records::DEPTH_LIMIT);
    let q5 = inst_operands::resume(z1, q4);
    let d = align_bit(s.align);
    if !s.counted {
        return node_words::close(words, p, q5, records::K_ALLOCA, d, 1);
    }
    let z2 = inst_operands::resume(q5, p2);
    let s2 = alloca_rest(text, words, z2)?;
    let q6 = inst_operands::resume(Ok(s2.c), q5);
    node_words::close(words, p, q6, records::K_ALLOCA, records::D_COUNT + d, 3)
}

// The indices of a getelementptr and its metadata, from before the comma; base type and pointer are children before them.
fn gep_inst_indices(text: &[u8], words: &mut [u64], p: Parsed) -> Listed
    ensures { Leads (gep_inst_indices turns 2 []) 0 [] (made (listed result.n 0) text.now p) text.now p p words.old result.p words.new }
{
    let mut q = p;
    let mut n: u16 = 2;
    for _left in (0..records::TURNS).rev() {
        q = lexer::eat_ws(text, q);
        if lexer::looks(text, q, b',') {
            q = lexer::pass(text, q, 1);
            q = lexer::eat_ws(text, q);
            if lexer::looks(text, q, b'!') {
                q = lexer::pass(text, q, 1);
                q = lexer_names::skip_metadata_ref(text, q);
            } else {
                let x = values::pair_child(text, words, q, n, records::DEPTH_LIMIT);
                q = x.p;
                n = x.n;
            }
        } else {
            return Listed { p: q, n, dots: 0 };
        }
    }
    Listed { p: q, n, dots: 0 }
}

// `getelementptr T, T V, T V, ..`
pub fn parse_gep_inst(text: &[u8], words: &mut [u64], p: Parsed, dest: u64) -> Parsed
    ensures { Leads (parse_gep_inst dest) 2 [] (made same text.now p) text.now p p words.old result words.new }
{
    let q = node_words::begin(words, p, dest);
    let f = value_leaves::parse_gep_flags(text, q);
    let q1 = types::parse_type(text, words, f.p, records::DEPTH_LIMIT);
    let q2 = lexer::expect_token(text, q1, b',');
    let q3 = inst_operands::parse_operand(text, words, q2);
    let l = gep_inst_indices(text, words, q3);
    node_words::close(words, p, l.p, records::K_GEP, f.v, l.n)
}
