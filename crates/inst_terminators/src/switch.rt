// `parse_switch`: the count of the cases and their integers are payload and stand first, the operand and the labels behind them.
ghost use Rattle.std.specs.Prelude.{◌≡◌, [], ◌∷◌, Bool};
ghost use Rattle.program.specs.Prog.{ret};
ghost use Rattle.grammar.specs.Instructions.{case_int, switch_cases, parse_switch};
ghost use Rattle.lexer.specs.Reads.{Leads, Gives, made, same};
ghost use Rattle.inst_operands.specs.Rich.{richly};
ghost use Rattle.inst_operands.specs.Kept.{kept};
ghost use Rattle.inst_terminators.specs.Switch.{taken_p, cases_of, weight_of, Writes};

use lexer::Parsed;

// `switch_front`: type, value and default are children before the cases' labels.
const SWITCH_FRONT: u16 = 3;

// Word i of those that were written up to q.
fn taken(words: &[u64], q: Parsed, i: usize) -> u64
    ensures { result ≡ taken_p i q words.now }
{
    match q {
        Ok(c) if i < c.w && i < words.len() => words[i],
        _ => 0,
    }
}

// A case's integer, as its two words.
#[derive(Clone, Copy)]
struct Case {
    p: Parsed,
    lo: u64,
    hi: u64,
}

// A case's integer: the value is read into an array of its own.
fn case_int(text: &[u8], p: Parsed) -> Case
    ensures { Gives case_int (result.hi ∷ result.lo ∷ []) text.now p result.p }
{
    let mut value: [u64; 3] = [0, 0, 0];
    let q = node_words::restart(p);
    let q1 = inst_operands::parse_operand(text, &mut value, q);
    let h = taken(&value, q1, 0);
    let hi = taken(&value, q1, 1);
    let lo = taken(&value, q1, 2);
    let q2 = node_words::join(p, q1);
    if h == records::INT_HEADER {
        return Case { p: q2, lo, hi };
    }
    let q3 = lexer::refuse(q2, records::Q_CASE);
    Case { p: q3, lo, hi }
}

// So many children there are with the labels of the cases.
#[derive(Clone, Copy)]
struct Cases {
    p: Parsed,
    n: u16,
}

// The cases through the `]`, where one of the two is written of each: its integer, the labels left for later, or its label.
fn switch_cases<F: Fn(&mut [u64], Parsed, Case, u64) -> Parsed>(
    text: &[u8],
    words: &mut [u64],
    p: Parsed,
    write: F,
) -> Cases
    requires { F.IsAlwaysCallable write }
    ensures { (labels : Bool) → Writes F.post write labels → Leads (switch_cases 65536 3 [] []) 0 [] (kept (λ left written. ret (cases_of labels result.n left written)) (weight_of labels) text.now p) text.now p p words.old result.p words.new }
{
    let mut q = p;
    let mut n: u16 = SWITCH_FRONT;
    for _left in (0..records::LIST_TURNS).rev() {
        q = lexer::eat_ws(text, q);
        if lexer::looks(text, q, b']') {
            q = lexer::pass(text, q, 1);
            return Cases { p: q, n };
        }
        let c = case_int(text, q);
        q = c.p;
        let t = inst_operands::target(text, q);
        q = t.p;
        q = lexer::count_child(q, n);
        if q.is_err() {
            // no byte ends the list of cases then
            return Cases { p: q, n };
        }
        q = write(words, q, c, t.v);
        n = types::one_more(n);
    }
    q = lexer::refuse(q, records::Q_CHILDREN);
    Cases { p: q, n }
}

// `switch T V, label %d [ T V, label %a .. ]`. The word before the integers is left open until the cases are counted.
pub fn parse_switch(text: &[u8], words: &mut [u64], p: Parsed) -> Parsed
    ensures { Leads parse_switch 3 [] (richly text.now (made same text.now p)) text.now p p words.old result words.new }
{
    let p1 = node_words::push(words, p, 0);
    let p2 = node_words::push(words, p1, 0);
    let q = inst_operands::pass_typed_val(text, p2);
    let q1 = node_words::join(p2, q);
    let d = inst_operands::target(text, q1);
    let q2 = d.p;
    let p3 = lexer::expect_token(text, q2, b'[');
    let c = switch_cases(text, words, p3, |words, q, case, _label| {
        let q1 = node_words::push(words, q, case.hi);
        node_words::push(words, q1, case.lo)
    });
    let q3 = c.p;
    let t = inst_operands::parse_trailing(text, q3);
    let q4 = t.p;
    let z = inst_operands::resume(q4, p2);
    let z1 = values::parse_typed_val(text, words, z, records::DEPTH_LIMIT);
    let q5 = inst_operands::resume(z1, q4);
    let q6 = inst_operands::label_node(words, q5, d.v);
    let z2 = inst_operands::resume(q6, p3);
    let l = switch_cases(
        text,
        words,
        z2,
        |words, q, _case, label| inst_operands::label_node(words, q, label),
    );
    let z3 = l.p;
    let q7 = inst_operands::resume(z3, q6);
    let count = c.n.saturating_sub(SWITCH_FRONT);
    let q8 = node_words::patch(words, p, q7, 1, count as u64);
    node_words::close(words, p, q8, records::K_SWITCH, records::D_NONE, c.n)
}
