// Opcodes: their rank in one table of all that may stand there, a quick way for the most frequent, and the reader of each. A word is lent by its
// places and compared with quotes and escapes undone.
ghost use Rattle.std.specs.Prelude.{◌≡◌, ◌<◌, ◌≤◌, [], length, ⊤, MatchOption};
ghost use Rattle.grammar.specs.Lexer.{rank, spelled};
ghost use Rattle.grammar.specs.Counter.{counted};
ghost use Rattle.lexer_names.specs.Names.{part, raw_word};
ghost use Rattle.piece_block.specs.Opcodes.{value_opcodes, statement_words, value_at, terminator_at, plain_at};
ghost use Rattle.lexer.specs.Table.{keywords_of};
ghost use Rattle.lexer.specs.Reads.{Leads, made, same};
ghost use Rattle.inst_operands.specs.Rich.{richly};

use lexer::Parsed;
use piece_counter::Counter;

// Ranks in the table of `value_rank`, where the code needs one: operations, conversions and the words before `call` begin at V_FADD, V_TRUNC and
// V_TAIL, each in its table's order, and V_NONE is no opcode's. `value_opcodes` is the same table, and a law computes that they fit.
pub const V_ADD: u8 = 0;

pub const V_MUL: u8 = 2;

pub const V_FADD: u8 = 13;

pub const V_FNEG: u8 = 18;

pub const V_TRUNC: u8 = 19;

pub const V_ZEXT: u8 = 20;

pub const V_SEXT: u8 = 21;

pub const V_BITCAST: u8 = 24;

pub const V_ICMP: u8 = 31;

pub const V_FCMP: u8 = 32;

pub const V_SELECT: u8 = 33;

pub const V_LOAD: u8 = 34;

pub const V_GETELEMENTPTR: u8 = 35;

pub const V_PHI: u8 = 36;

pub const V_ALLOCA: u8 = 37;

pub const V_FREEZE: u8 = 38;

pub const V_CALL: u8 = 39;

pub const V_CMPXCHG: u8 = 40;

pub const V_ATOMICRMW: u8 = 41;

pub const V_TAIL: u8 = 43;

pub const V_NONE: u8 = 46;

// Ranks in the table of `statement_rank`: terminators first, then from S_STORE on the instructions without a destination, from S_TAIL on the words
// before `call`; S_NONE is no opcode's.
pub const S_RET: u8 = 0;

pub const S_BR: u8 = 1;

pub const S_SWITCH: u8 = 2;

pub const S_STORE: u8 = 4;

pub const S_FENCE: u8 = 5;

pub const S_CALL: u8 = 6;

pub const S_TAIL: u8 = 7;

pub const S_NONE: u8 = 10;

// The words of `value_opcodes`.
static VALUE_OPCODES: [&[u8]; 46] = [
    b"add",
    b"sub",
    b"mul",
    b"udiv",
    b"sdiv",
    b"urem",
    b"srem",
    b"and",
    b"or",
    b"xor",
    b"shl",
    b"lshr",
    b"ashr",
    b"fadd",
    b"fsub",
    b"fmul",
    b"fdiv",
    b"frem",
    b"fneg",
    b"trunc",
    b"zext",
    b"sext",
    b"ptrtoint",
    b"inttoptr",
    b"bitcast",
    b"sitofp",
    b"uitofp",
    b"fptosi",
    b"fptoui",
    b"fpext",
    b"fptrunc",
    b"icmp",
    b"fcmp",
    b"select",
    b"load",
    b"getelementptr",
    b"phi",
    b"alloca",
    b"freeze",
    b"call",
    b"cmpxchg",
    b"atomicrmw",
    b"extractvalue",
    b"tail",
    b"musttail",
    b"notail",
];

// The words of `statement_words`.
static STATEMENT_WORDS: [&[u8]; 10] = [
    b"ret",
    b"br",
    b"switch",
    b"unreachable",
    b"store",
    b"fence",
    b"call",
    b"tail",
    b"musttail",
    b"notail",
];

// A word and its rank in a table.
#[derive(Clone, Copy)]
struct Likely(&'static [u8], u8);

// The rank in a table of the word that stands from a place to another, where some word is likely there: in so short a table a byte holds it.
fn quick_rank(text: &[u8], from: usize, to: usize, table: &[&[u8]], likely: Option<Likely>) -> u8
    requires short { length table.now < 256 }
    requires ranked { MatchOption likely ⊤ (λ l. l.1 ≡ rank l.0.now (keywords_of table.now)) }
    ensures { result ≡ rank (spelled (raw_word (part text.now from to))) (keywords_of table.now) }
{
    match likely {
        Some(l) if lexer_spelling::spells(text, from, to, l.0) => l.1,
        _ => lexer_spelling::spelled_rank(text, from, to, table) as u8,
    }
}

// The frequent opcode behind `%x =` whose first letters stand at a place.
#[tactic(auto, unfolding(grammar::specs::Lexer::same_word, grammar::specs::Lexer::rank, grammar::specs::Values::bin_ops, grammar::specs::Instructions::fbin_ops, grammar::specs::Instructions::inst_conv_ops, grammar::specs::Instructions::tail_words, crate::specs::Opcodes::value_opcodes))]
fn likely_value(text: &[u8], from: usize) -> Option<Likely>
    ensures { MatchOption result ⊤ (λ l. l.1 ≡ rank l.0.now value_opcodes) }
{
    match text.get(from)? {
        b'l' => Some(Likely(b"load", V_LOAD)),
        b'g' => Some(Likely(b"getelementptr", V_GETELEMENTPTR)),
        b'c' => Some(Likely(b"call", V_CALL)),
        b'i' => Some(Likely(b"icmp", V_ICMP)),
        b'p' => Some(Likely(b"phi", V_PHI)),
        b't' => Some(Likely(b"tail", V_TAIL)),
        b'z' => Some(Likely(b"zext", V_ZEXT)),
        b'a' if text[from..].starts_with(b"ad") => Some(Likely(b"add", V_ADD)),
        b'a' => Some(Likely(b"alloca", V_ALLOCA)),
        b's' if text[from..].starts_with(b"sex") => Some(Likely(b"sext", V_SEXT)),
        b's' => Some(Likely(b"select", V_SELECT)),
        b'm' => Some(Likely(b"mul", V_MUL)),
        b'b' => Some(Likely(b"bitcast", V_BITCAST)),
        _ => None,
    }
}

// The opcode behind `%x =` that stands from a place to another.
#[tactic(auto, unfolding(grammar::specs::Values::bin_ops, grammar::specs::Instructions::fbin_ops, grammar::specs::Instructions::inst_conv_ops, grammar::specs::Instructions::tail_words, crate::specs::Opcodes::value_opcodes))]
pub fn value_rank(text: &[u8], from: usize, to: usize) -> u8
    ensures { result ≡ rank (spelled (raw_word (part text.now from to))) value_opcodes }
{
    quick_rank(text, from, to, &VALUE_OPCODES, likely_value(text, from))
}

// The frequent word before a statement whose first letter stands at a place.
#[tactic(auto, unfolding(grammar::specs::Lexer::same_word, grammar::specs::Lexer::rank, grammar::specs::Instructions::tail_words, crate::specs::Opcodes::statement_words))]
fn likely_statement(text: &[u8], from: usize) -> Option<Likely>
    ensures { MatchOption result ⊤ (λ l. l.1 ≡ rank l.0.now statement_words) }
{
    match text.get(from)? {
        b's' => Some(Likely(b"store", S_STORE)),
        b'b' => Some(Likely(b"br", S_BR)),
        b'c' => Some(Likely(b"call", S_CALL)),
        b'r' => Some(Likely(b"ret", S_RET)),
        b't' => Some(Likely(b"tail", S_TAIL)),
        _ => None,
    }
}

// The word that begins a statement, from a place to another.
#[tactic(auto, unfolding(grammar::specs::Instructions::tail_words, crate::specs::Opcodes::statement_words))]
pub fn statement_rank(text: &[u8], from: usize, to: usize) -> u8
    ensures { result ≡ rank (spelled (raw_word (part text.now from to))) statement_words }
{
    quick_rank(
        text,
        from,
        to,
        &STATEMENT_WORDS,
        likely_statement(text, from),
    )
}

// An instruction behind `%x =` and its opcode (`parse_value_inst`); 9 where no opcode stands there.
pub fn value_inst(text: &[u8], words: &mut [u64], p: Parsed, r: u8, dest: u64) -> Parsed
    ensures { Leads (value_at dest r) 3 [] (richly text.now (made same text.now p)) text.now p p words.old result words.new }
{
    if r < V_FADD {
        return inst_operations::parse_bin(text, words, p, r, dest);
    }
    if r < V_ICMP {
        if r < V_FNEG {
            return inst_operations::parse_fbin(text, words, p, r - V_FADD, dest);
        }
        if r == V_FNEG {
            return inst_operations::parse_fneg(text, words, p, dest);
        }
        return inst_operations::parse_conv(text, words, p, r - V_TRUNC, dest);
    }
    if V_TAIL <= r {
        if r < V_NONE {
            return inst_calls::parse_tail_call(text, words, p, dest);
        }
        return lexer::refuse(p, records::Q_OPCODE);
    }
    match r {
        V_ICMP => inst_operations::parse_icmp(text, words, p, dest),
        V_FCMP => inst_operations::parse_fcmp(text, words, p, dest),
        V_SELECT => inst_operations::parse_select(text, words, p, dest),
        V_LOAD => inst_memory::parse_load(text, words, p, dest),
        V_GETELEMENTPTR => inst_memory::parse_gep_inst(text, words, p, dest),
        V_PHI => inst_operations::parse_phi(text, words, p, dest),
        V_ALLOCA => inst_memory::parse_alloca(text, words, p, dest),
        V_FREEZE => inst_operations::parse_freeze(text, words, p, dest),
        V_CALL => inst_calls::parse_call(text, words, p, dest),
        V_CMPXCHG => inst_memory::parse_cmpxchg(text, words, p, dest),
        V_ATOMICRMW => inst_memory::parse_atomicrmw(text, words, p, dest),
        _ => inst_memory::parse_extractvalue(text, words, p, dest),
    }
}

// A terminator behind its word.
pub fn terminator(text: &[u8], words: &mut [u64], p: Parsed, r: u8) -> Parsed
    requires { r < 4 }
    ensures { Leads (terminator_at r) 3 [] (richly text.now (made same text.now p)) text.now p p words.old result words.new }
{
    match r {
        S_RET => inst_terminators::parse_ret(text, words, p),
        S_BR => inst_terminators::parse_br(text, words, p),
        S_SWITCH => inst_terminators::parse_switch(text, words, p),
        _ => inst_terminators::parse_unreachable(text, words, p),
    }
}

// An instruction without a destination behind its word, where the counter is c; 9 where no opcode stands there.
pub fn plain_inst(text: &[u8], words: &mut [u64], p: Parsed, r: u8, c: u64) -> Counter
    requires { 4 ≤ r }
    ensures { Leads (plain_at c r) 3 [] (richly text.now (made (counted result.c) text.now p)) text.now p p words.old result.p words.new }
{
    if S_TAIL <= r {
        if r < S_NONE {
            return inst_calls::parse_plain_tail_call(text, words, p, c);
        }
        let q = lexer::refuse(p, records::Q_OPCODE);
        return Counter { p: q, c };
    }
    if r == S_STORE {
        let q1 = inst_memory::parse_store(text, words, p);
        return Counter { p: q1, c };
    }
    if r == S_FENCE {
        let q2 = inst_memory::parse_fence(text, words, p);
        return Counter { p: q2, c };
    }
    inst_calls::parse_plain_call(text, words, p, c)
}
