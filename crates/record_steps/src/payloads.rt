// How many payload words a node has: by its kind, its detail and, for a switch, its first payload word.
ghost use Rattle.std.specs.Prelude.{◌≡◌};
ghost use Rattle.trees.specs.Steps.{kinds};
ghost use Rattle.record_steps.specs.Payloads.{length_among, ways, words_in};

// A number of words; or a switch's count word and two words for each case.
#[derive(Clone, Copy)]
pub enum Payload {
    Words(u8),
    Cases(u64),
}

// For each kind's number the first kind whose payload is counted in the same way, and 0 where no kind has the number.
const ALIKE: [u8; 64] = [
    0,
    records::K_VOID,
    records::K_INT,
    records::K_VOID, // K_FLOAT
    records::K_VOID, // K_DOUBLE
    records::K_VOID, // K_PTR
    records::K_INT, // K_ARRAY
    records::K_INT, // K_NAMED
    records::K_VOID, // K_STRUCT
    records::K_VOID, // K_LABEL
    records::K_VOID, // K_METADATA
    records::K_VOID, // K_FUNC
    0,
    0,
    0,
    0,
    records::K_INT, // K_LOCAL
    records::K_INT, // K_GLOBAL
    records::K_INT_CONST,
    records::K_INT, // K_FLOAT_CONST
    records::K_VOID, // K_NULL
    records::K_VOID, // K_UNDEF
    records::K_VOID, // K_POISON
    records::K_VOID, // K_ZERO_INIT
    records::K_INT, // K_CSTR
    records::K_VOID, // K_ARRAY_CONST
    records::K_VOID, // K_STRUCT_CONST
    records::K_VOID, // K_GEP_EXPR
    records::K_VOID, // K_CONV_EXPR
    records::K_VOID, // K_BIN_EXPR
    0,
    0,
    records::K_INT, // K_BIN
    records::K_INT, // K_FBIN
    records::K_INT, // K_FNEG
    records::K_INT, // K_CONV
    records::K_INT, // K_ICMP
    records::K_INT, // K_FCMP
    records::K_INT, // K_SELECT
    records::K_LOAD,
    records::K_LOAD, // K_STORE
    records::K_ALLOCA,
    records::K_INT, // K_GEP
    records::K_INT, // K_PHI
    records::K_INT, // K_CALL
    records::K_INT, // K_FREEZE
    records::K_INT, // K_ATOMIC_LOAD
    records::K_INT, // K_ATOMIC_STORE
    records::K_INT, // K_ATOMIC_RMW
    records::K_INT, // K_CMPXCHG
    records::K_INT_CONST, // K_EXTRACT_VALUE
    records::K_INT, // K_FENCE
    records::K_VOID, // K_RET
    records::K_VOID, // K_BR
    records::K_SWITCH,
    records::K_VOID, // K_UNREACHABLE
    0,
    0,
    0,
    0,
    records::K_INT, // K_HEAD
    records::K_INT, // K_BLOCK
    records::K_INT, // K_PARAM
    records::K_INT, // K_NAME
];

fn alike(kind: u8) -> u8
    ensures { length_among ways result ≡ length_among kinds kind }
{
    if kind < 64 { ALIKE[kind as usize] } else { 0 }
}

// None where no kind has this number.
pub fn payload_length(kind: u8, detail: u8, first: u64) -> Option<Payload>
    ensures { words_in result ≡ length_among kinds kind detail first }
{
    match alike(kind) {
        records::K_VOID => Some(Payload::Words(0)),
        records::K_INT => Some(Payload::Words(1)),
        records::K_INT_CONST => Some(Payload::Words(2)),
        records::K_LOAD => Some(Payload::Words(1 + detail / records::D_ALIGN % 2)),
        records::K_ALLOCA => Some(Payload::Words(1 + detail / records::D_ALLOCA_ALIGN % 2)),
        records::K_SWITCH => Some(Payload::Cases(first)),
        _ => None,
    }
}
