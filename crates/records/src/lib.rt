// The numbers of records and questions, under the names that the definitions have for them: `K_BIN` is `kind Bin` of specs/Kinds.antt, `D_PACKED` is
// `d_packed` of specs/Details.antt, `Q_TOKEN` is `q_token` of specs/Questions.antt, `DEPTH_LIMIT` is `depth_limit` of specs/Limits.antt.
// tools/same-numbers holds code, definitions and header against each other.
#![tactic(auto)]

// Kinds of nodes. Numbers and no enum, here and below: `node_words::close` and `lexer::refuse` take any number, and the calls from C hand them out.
// `Type`
pub const K_VOID: u8 = 1;

pub const K_INT: u8 = 2;

pub const K_FLOAT: u8 = 3;

pub const K_DOUBLE: u8 = 4;

pub const K_PTR: u8 = 5;

pub const K_ARRAY: u8 = 6;

pub const K_NAMED: u8 = 7;

pub const K_STRUCT: u8 = 8;

pub const K_LABEL: u8 = 9;

pub const K_METADATA: u8 = 10;

pub const K_FUNC: u8 = 11;

// `Value`, the last three the `ConstExpr` cases
pub const K_LOCAL: u8 = 16;

pub const K_GLOBAL: u8 = 17;

pub const K_INT_CONST: u8 = 18;

pub const K_FLOAT_CONST: u8 = 19;

pub const K_NULL: u8 = 20;

pub const K_UNDEF: u8 = 21;

pub const K_POISON: u8 = 22;

pub const K_ZERO_INIT: u8 = 23;

pub const K_CSTR: u8 = 24;

pub const K_ARRAY_CONST: u8 = 25;

pub const K_STRUCT_CONST: u8 = 26;

pub const K_GEP_EXPR: u8 = 27;

pub const K_CONV_EXPR: u8 = 28;

pub const K_BIN_EXPR: u8 = 29;

// `InstKind`
pub const K_BIN: u8 = 32;

pub const K_FBIN: u8 = 33;

pub const K_FNEG: u8 = 34;

pub const K_CONV: u8 = 35;

pub const K_ICMP: u8 = 36;

pub const K_FCMP: u8 = 37;

pub const K_SELECT: u8 = 38;

pub const K_LOAD: u8 = 39;

pub const K_STORE: u8 = 40;

pub const K_ALLOCA: u8 = 41;

pub const K_GEP: u8 = 42;

pub const K_PHI: u8 = 43;

pub const K_CALL: u8 = 44;

pub const K_FREEZE: u8 = 45;

pub const K_ATOMIC_LOAD: u8 = 46;

pub const K_ATOMIC_STORE: u8 = 47;

pub const K_ATOMIC_RMW: u8 = 48;

pub const K_CMPXCHG: u8 = 49;

pub const K_EXTRACT_VALUE: u8 = 50;

pub const K_FENCE: u8 = 51;

// `Terminator`
pub const K_RET: u8 = 52;

pub const K_BR: u8 = 53;

pub const K_SWITCH: u8 = 54;

pub const K_UNREACHABLE: u8 = 55;

// a function's head, a block, a parameter, a name
pub const K_HEAD: u8 = 60;

pub const K_BLOCK: u8 = 61;

pub const K_PARAM: u8 = 62;

pub const K_NAME: u8 = 63;

// Details. The first is the rank of a linkage that is not written.
pub const NO_LINKAGE: u8 = 10; // "the `Linkage` rank (10 when unwritten)"

pub const D_VARARGS: u8 = 128; // "plus 128 for varargs"

pub const D_NONE: u8 = 0; // nothing that may be there is there

pub const D_PACKED: u8 = 1; // a packed struct; a vector, which is a packed array

pub const D_DOTS: u8 = 1; // a function type that ends in `...`

pub const D_INBOUNDS: u8 = 1; // a getelementptr with `inbounds`

pub const D_ALIGN: u8 = 1; // a load or store with an alignment

pub const D_COUNT: u8 = 1; // an alloca with a count

pub const D_ALLOCA_ALIGN: u8 = 2; // an alloca with an alignment

pub const D_FUNCTION_TYPE: u8 = 1; // a call with a function type

pub const D_CONDITION: u8 = 3; // a branch with a condition and two targets

pub const D_NAMED: u8 = 1; // a parameter with a name

pub const D_VALUE: u8 = 1; // a `ret` with a value

// A refusal: the number of the question that says no, and the place.
#[derive(Clone, Copy, Debug, PartialEq, Eq)]
pub struct Refusal {
    pub question: u64,
    pub place: usize,
}

// The questions.
pub const Q_LENGTH: u64 = 1;

pub const Q_ASCII: u64 = 2;

pub const Q_TOKEN: u64 = 3;

pub const Q_DIGIT: u64 = 4;

pub const Q_TYPE: u64 = 5;

pub const Q_VALUE: u64 = 6;

pub const Q_LITERAL: u64 = 7;

pub const Q_STATEMENT: u64 = 8;

pub const Q_OPCODE: u64 = 9;

pub const Q_PREDICATE: u64 = 10;

pub const Q_TRAILING: u64 = 11;

pub const Q_CASE: u64 = 12;

pub const Q_CLOSED: u64 = 13;

pub const Q_ESCAPE: u64 = 14;

pub const Q_NUMBER: u64 = 15;

pub const Q_DEPTH: u64 = 16;

pub const Q_DECIMAL: u64 = 17;

pub const Q_LEFT_OUT: u64 = 18;

pub const Q_CHILDREN: u64 = 19;

pub const Q_WORDS: u64 = 20;

pub const Q_ENTRIES: u64 = 21;

pub const Q_OLDER: u64 = 22;

pub const Q_RULE: u64 = 23;

pub const Q_OVERLAP: u64 = 24;

pub const Q_GAP: u64 = 25;

pub const Q_COUNTER: u64 = 26;

pub const Q_OUTPUT: u64 = 27;

// Limits.
pub const TEXT_LIMIT: usize = 16777216; // questions 1 and 27: the most bytes of a text, be it read or written

pub const BYTE_LIMIT: u8 = 127; // question 2: the largest byte

pub const TURNS: usize = TEXT_LIMIT + 1; // turns of a loop, more than a text has bytes: each takes a byte, so none runs out

pub const WIDTH_LIMIT: u64 = 8388608; // question 15: the largest integer width

pub const INDEX_LIMIT: u64 = 4294967295; // question 15: the largest index

pub const NUMBER_LIMIT: u64 = 18446744073709551615; // question 15: the largest other number

pub const DEPTH_LIMIT: usize = 19; // question 16: the deepest level of types and values

pub const LIST_DEPTH: usize = DEPTH_LIMIT - 1; // levels below an outermost type

pub const CHILD_LIMIT: u16 = 65535; // question 19: the most direct children of a node

pub const LIST_TURNS: usize = 65536; // turns of a list, each of which has a child: question 19 refuses before they run out

pub const HALF_LIMIT: usize = 4294967296; // question 20: words end below it; half a word is below it

pub const COUNTER_LIMIT: u64 = 4294967296; // question 26: the most that the counter can be; numbers are below it

pub const ENTRY_WORDS: usize = 3; // question 21: the words of a directory entry

pub const CLASS_LIMIT: u8 = 3; // questions 23 to 25: the highest class

pub const CHANNEL_LIMIT: u16 = 65535; // questions 23 to 25: the highest channel

// A header has its kind, detail and number of children in these units above its number of words. Other packed words have two halves.
pub const KIND_UNIT: u64 = 72057594037927936; // 2^56

pub const DETAIL_UNIT: u64 = 281474976710656; // 2^48

pub const HALF: u64 = HALF_LIMIT as u64; // 2^32

// The one word of a ptr's node and of void's, and the headers of nodes whose length is known.
pub const PTR_NODE: u64 = (K_PTR as u64) * KIND_UNIT + 1;

pub const VOID_NODE: u64 = (K_VOID as u64) * KIND_UNIT + 1;

pub const NAME_HEADER: u64 = (K_NAME as u64) * KIND_UNIT + 2;

pub const INT_HEADER: u64 = (K_INT_CONST as u64) * KIND_UNIT + 3;

pub const FLOAT_HEADER: u64 = (K_FLOAT_CONST as u64) * KIND_UNIT + 2;
