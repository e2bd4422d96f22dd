// Values and labels: ?V and ?C enter a value, VC clears the variables, P asks for labels.
//
// Paper 01: "`?` looks at the active form", "`?Vn,"text"`, `?Cn,value` (0 to 10^w-1, else 17), `VC` (unsets variables, not counters), `Pk` with k 1..65535".
// `run_value` promises one equation with `value_by` (specs/Values.antt): its rows of the table, then what it does.
#![tactic(auto)]

ghost use Rattle.std.specs.Prelude.{◌≡◌, []};
ghost use Rattle.grammar.specs.declared.ValueCommand.TheVariants.{Variable as Enter, Counter as Count, Clear, Print as Owe};
ghost use Rattle.lent.specs.Lent.{world};
ghost use Rattle.results.specs.Result.{ran};
ghost use Rattle.value_commands.specs.Values.{refusal_answer, value_by};

use active_form::active_declared;
use answers::Answer;
use declarations::Refused;
use grammar::row::ENTERED_AT;
use grammar::{Print, SetCounter, SetVariable, ValueCommand};
use parts::inside;
use results::{Done, answered, taken};
use session::{Session, sixteen_bits};
use stored_values::unset_all;

// [13] and [17], by why a value is refused.
fn refusal(r: Refused) -> Answer
    ensures { result ≡ refusal_answer r }
{
    match r {
        Refused::Undeclared => Answer::Undeclared(ENTERED_AT),
        Refused::Unfit => Answer::Misfit,
    }
}

// ?V
fn enter_variable(
    session: Session,
    line: &[u8],
    v: SetVariable,
    store: &[u8],
    links: &[u16],
    directory: &[u8],
    values: &mut [u8],
) -> Done
    ensures { ran result (world [] store.now links.now directory.now values.new) [] ≡ value_by (world [] store.now links.now directory.now values.old) session line.now (Enter v) }
{
    let n = v.n;
    let at = v.at;
    let length = v.length;
    let active = session.active;
    let d = active_declared(store, links, directory, active);
    let text = inside(line, at, length);
    match stored_values::set_variable(d, values, n, text) {
        Ok(()) => taken(session),
        Err(refused) => answered(refusal(refused), session),
    }
}

// ?C
fn enter_counter(
    session: Session,
    c: SetCounter,
    store: &[u8],
    links: &[u16],
    directory: &[u8],
) -> Done
    ensures { ran result (world [] store.now links.now directory.now []) [] ≡ value_by (world [] store.now links.now directory.now []) session [] (Count c) }
{
    let n = c.n;
    let value = c.value;
    let active = session.active;
    let counters = session.counters;
    let d = active_declared(store, links, directory, active);
    match counters::set_counter(d, counters, n, value) {
        Ok(next) => taken(session.counting(next)),
        Err(refused) => answered(refusal(refused), session),
    }
}

// VC "unsets variables, not counters"
fn clear(session: Session, values: &mut [u8]) -> Done
    ensures { ran result (world [] [] [] [] values.new) [] ≡ value_by (world [] [] [] [] values.old) session [] Clear }
{
    unset_all(values);
    taken(session)
}

// P
fn owe(
    session: Session,
    p: Print,
    store: &[u8],
    links: &[u16],
    directory: &[u8],
    values: &[u8],
) -> Done
    ensures { ran result (world [] store.now links.now directory.now values.now) [] ≡ value_by (world [] store.now links.now directory.now values.now) session [] (Owe p) }
{
    let k = sixteen_bits(p.k);
    let active = session.active;
    let counters = session.counters;
    if !active_form::active_pictures(store, links, directory, active) {
        return answered(Answer::Missing, session);
    }
    let d = active_declared(store, links, directory, active);
    if !values::all_set(d, values, counters) {
        return answered(Answer::Unset, session);
    }
    if !counter_steps::lasts(d, counters, k) {
        return answered(Answer::RunsOut, session);
    }
    taken(session.owing(k))
}

// A command of values.
pub fn run_value(
    session: Session,
    command: ValueCommand,
    line: &[u8],
    store: &[u8],
    links: &[u16],
    directory: &[u8],
    values: &mut [u8],
) -> Done
    ensures { ran result (world [] store.now links.now directory.now values.new) [] ≡ value_by (world [] store.now links.now directory.now values.old) session line.now command }
{
    match command {
        ValueCommand::Variable(v) => enter_variable(
            session, line, v, store, links, directory, values,
        ),
        ValueCommand::Counter(c) => enter_counter(session, c, store, links, directory),
        ValueCommand::Clear => clear(session, values),
        ValueCommand::Print(p) => owe(session, p, store, links, directory, values),
    }
}
