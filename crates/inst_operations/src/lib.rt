// The readers of arithmetic, conversions, comparisons, `select`, `phi` and `freeze` (parser.rs, "arithmetic / bitwise" to "comparisons / select", "phi /
// freeze / call"), each behind its opcode. Each writes the words of its node behind the cursor: a slot for the header, the destination, the
// operands; then the header.
#![tactic(auto)]

ghost use Rattle.std.specs.Prelude.{◌≡◌, [], ◌∷◌, ℕ, ◌≤◌, length, MatchResult};
ghost use Rattle.grammar.specs.Instructions.{two_operands, binary, unary, parse_bin, parse_fbin, parse_fneg, parse_icmp, parse_fcmp, parse_select, parse_freeze, icmp_preds, fcmp_preds, predicate, parse_conv, phi_items, parse_phi};
ghost use Rattle.lexer.specs.Parsed.{Ok, Err};
ghost use Rattle.lexer.specs.Reads.{Leads, Reads, made, same, Gives};
ghost use Rattle.lexer.specs.Table.{keywords_of};
ghost use Rattle.grammar.specs.Types.{listed};

use lexer::{Cursor, Parsed};
use records::Refusal;
use types::Listed;

// T V, V
fn two_operands(text: &[u8], words: &mut [u64], p: Parsed) -> Parsed
    ensures { Reads two_operands text.now p words.old result words.new }
{
    let q = types::parse_type(text, words, p, records::DEPTH_LIMIT);
    let q1 = values::parse_value(text, words, q, records::DEPTH_LIMIT);
    let q2 = lexer::expect_token(text, q1, b',');
    values::parse_value(text, words, q2, records::DEPTH_LIMIT)
}

// T V, V to the end of an operation or a comparison; the node was begun at p0.
fn binary(text: &[u8], words: &mut [u64], p0: Parsed, p: Parsed, kind: u8, d: u8) -> Parsed
    ensures { (dest : ℕ) → Leads (binary kind d dest) 0 (0 ∷ dest ∷ []) (made same text.now p0) text.now p0 p words.old result words.new }
{
    let q = two_operands(text, words, p);
    inst_operands::end(text, words, p0, q, kind, d, 3)
}

// T V to the end; the node was begun at p0.
fn unary(text: &[u8], words: &mut [u64], p0: Parsed, p: Parsed, kind: u8) -> Parsed
    ensures { (dest : ℕ) → Leads (unary kind dest) 0 (0 ∷ dest ∷ []) (made same text.now p0) text.now p0 p words.old result words.new }
{
    let q = values::parse_typed_val(text, words, p, records::DEPTH_LIMIT);
    inst_operands::end(text, words, p0, q, kind, records::D_NONE, 2)
}

// `add T V, V` and its like.
pub fn parse_bin(text: &[u8], words: &mut [u64], p: Parsed, op: u8, dest: u64) -> Parsed
    ensures { Leads (parse_bin op dest) 2 [] (made same text.now p) text.now p p words.old result words.new }
{
    let q = node_words::begin(words, p, dest);
    let q1 = attributes::skip_arith_flags(text, q);
    binary(text, words, p, q1, records::K_BIN, op)
}

// `fadd T V, V` and its like.
pub fn parse_fbin(text: &[u8], words: &mut [u64], p: Parsed, op: u8, dest: u64) -> Parsed
    ensures { Leads (parse_fbin op dest) 2 [] (made same text.now p) text.now p p words.old result words.new }
{
    let q = node_words::begin(words, p, dest);
    let q1 = attributes::skip_fast_math_flags(text, q);
    binary(text, words, p, q1, records::K_FBIN, op)
}

// `fneg T V`
pub fn parse_fneg(text: &[u8], words: &mut [u64], p: Parsed, dest: u64) -> Parsed
    ensures { Leads (parse_fneg dest) 2 [] (made same text.now p) text.now p p words.old result words.new }
{
    let q = node_words::begin(words, p, dest);
    let q1 = attributes::skip_fast_math_flags(text, q);
    unary(text, words, p, q1, records::K_FNEG)
}

// The predicates of `fcmp`, in ast.rs order.
static FCMP_PREDICATES: [&[u8]; 16] = [
    b"false", b"oeq", b"ogt", b"oge", b"olt", b"ole", b"one", b"ord", b"ueq", b"ugt", b"uge",
    b"ult", b"ule", b"une", b"uno", b"true",
];

// Behind a predicate of a table, and its rank (`parse_fcmp_pred`, `parse_icmp_pred`).
fn parse_predicate(text: &[u8], p: Parsed, table: &[&[u8]]) -> Result<(Cursor, u8), Refusal>
    requires { length table.now ≤ 256 }
    ensures { MatchResult result (λ x. Gives (predicate (keywords_of table.now)) x.1 text.now p (Ok x.0)) (λ e. (r : ℕ) → Gives (predicate (keywords_of table.now)) r text.now p (Err e)) }
{
    let k = lexer_keywords::match_rank(text, lexer::eat_ws(text, p), table);
    let c = k.p?;
    if k.r < table.len() {
        return Ok((c, k.r as u8));
    }
    Err(Refusal {
        question: records::Q_PREDICATE,
        place: c.at,
    })
}

// `fcmp P T V, V`
pub fn parse_fcmp(text: &[u8], words: &mut [u64], p: Parsed, dest: u64) -> Parsed
    ensures { Leads (parse_fcmp dest) 2 [] (made same text.now p) text.now p p words.old result words.new }
{
    let q = node_words::begin(words, p, dest);
    let q1 = attributes::skip_fast_math_flags(text, q);
    let (c, r) = parse_predicate(text, q1, &FCMP_PREDICATES)?;
    binary(text, words, p, Ok(c), records::K_FCMP, r)
}

// `trunc T V to T` and its like. At a `(` the next statement would refuse.
pub fn parse_conv(text: &[u8], words: &mut [u64], p: Parsed, op: u8, dest: u64) -> Parsed
    ensures { Leads (parse_conv op dest) 2 [] (made same text.now p) text.now p p words.old result words.new }
{
    let q = node_words::begin(words, p, dest);
    let q1 = attributes::skip_conv_flags(text, q);
    let q2 = values::parse_typed_val(text, words, q1, records::DEPTH_LIMIT);
    let q3 = lexer::expect_keyword(text, q2, b"to");
    let q4 = types::parse_type(text, words, q3, records::DEPTH_LIMIT);
    if lexer::looks(text, q4, b'(') {
        return lexer::refuse(q4, records::Q_STATEMENT);
    }
    inst_operands::end(text, words, p, q4, records::K_CONV, op, 3)
}

// The predicates of `icmp`, in ast.rs order.
static ICMP_PREDICATES: [&[u8]; 10] = [
    b"eq", b"ne", b"ugt", b"uge", b"ult", b"ule", b"sgt", b"sge", b"slt", b"sle",
];

// `icmp P T V, V`
pub fn parse_icmp(text: &[u8], words: &mut [u64], p: Parsed, dest: u64) -> Parsed
    ensures { Leads (parse_icmp dest) 2 [] (made same text.now p) text.now p p words.old result words.new }
{
    let q = node_words::begin(words, p, dest);
    let q1 = lexer::skip_keyword(text, q, b"samesign");
    let (c, r) = parse_predicate(text, q1, &ICMP_PREDICATES)?;
    binary(text, words, p, Ok(c), records::K_ICMP, r)
}

// `select T V, T V, T V`
pub fn parse_select(text: &[u8], words: &mut [u64], p: Parsed, dest: u64) -> Parsed
    ensures { Leads (parse_select dest) 2 [] (made same text.now p) text.now p p words.old result words.new }
{
    let q = node_words::begin(words, p, dest);
    let q1 = inst_operands::parse_operand(text, words, q);
    let q2 = lexer::expect_token(text, q1, b',');
    let q3 = values::parse_typed_val(text, words, q2, records::DEPTH_LIMIT);
    let q4 = lexer::expect_token(text, q3, b',');
    let q5 = inst_operands::parse_operand(text, words, q4);
    inst_operands::end(text, words, p, q5, records::K_SELECT, records::D_NONE, 4)
}

// `[V, L]` behind commas, each two children behind the type.
fn phi_items(text: &[u8], words: &mut [u64], p: Parsed) -> Listed
    ensures { Leads (phi_items 65536 1 []) 0 [] (made (listed result.n 0) text.now p) text.now p p words.old result.p words.new }
{
    let mut q = p;
    let mut n: u16 = 1;
    for _left in (0..records::LIST_TURNS).rev() {
        q = lexer::expect_token(text, q, b'[');
        q = values::parse_value(text, words, q, records::DEPTH_LIMIT);
        q = lexer::count_child(q, n);
        let k = types::one_more(n);
        q = lexer::expect_token(text, q, b',');
        let l = lexer_names::parse_local_name(text, q);
        q = lexer::count_child(l.p, k);
        n = types::one_more(k);
        q = lexer::expect_token(text, q, b']');
        q = inst_operands::label_node(words, q, l.v);
        q = lexer::eat_ws(text, q);
        if lexer::looks(text, q, b',') {
            q = lexer::pass(text, q, 1);
        } else {
            return Listed { p: q, n, dots: 0 };
        }
    }
    q = lexer::refuse(q, records::Q_CHILDREN);
    Listed { p: q, n, dots: 0 }
}

// `phi T [V, L], ..`
pub fn parse_phi(text: &[u8], words: &mut [u64], p: Parsed, dest: u64) -> Parsed
    ensures { Leads (parse_phi dest) 2 [] (made same text.now p) text.now p p words.old result words.new }
{
    let q = node_words::begin(words, p, dest);
    let q1 = types::parse_type(text, words, q, records::DEPTH_LIMIT);
    let l = phi_items(text, words, q1);
    node_words::close(words, p, l.p, records::K_PHI, records::D_NONE, l.n)
}

// `freeze T V`
pub fn parse_freeze(text: &[u8], words: &mut [u64], p: Parsed, dest: u64) -> Parsed
    ensures { Leads (parse_freeze dest) 2 [] (made same text.now p) text.now p p words.old result words.new }
{
    let q = node_words::begin(words, p, dest);
    unary(text, words, p, q, records::K_FREEZE)
}
