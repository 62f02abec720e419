//! Steps and runs.

ghost use Rattle.std.specs.Prelude.{◌≡◌, ◌+◌, ◌-◌, ◌<◌, ◌≤◌, ◌%◌, ◌^◌, ℕ, true, false, length, drop};
ghost use Rattle.std.specs.Prelude.{Ok, IsTrue, IfSome, IfNone, OnOk, IfErr, OnErr};
ghost use Rattle.x86_ins.specs.declared.ins.Ins.{Ins};
ghost use Rattle.x86_ins.specs.Spelling.{has_spelling};
ghost use Rattle.x86_ins.specs.Machine.{effect, point_of};
ghost use Rattle.orc_bits.specs.Parts.{memory_of};
ghost use Rattle.x86_ins.specs.Way.{InCode, Step, Stuck, IsOver, told};
ghost use Rattle.x86_machine.specs.Fetching.{AreFetched};
ghost use Rattle.x86_machine.specs.Ends.{code_of, point, stop_of, SameCode, EndsAt, OneEnd, IsCause};

use crate::fetching::{Table, empty, fetch};
use crate::machine::{End, Machine};
use crate::segments::Segments;
use x86_apply::apply;
use x86_decode::decode;
use x86_ins::ins::Ins;
use x86_ins::state::{State, Trap, Why};

/// The place in the code of an address, where it is one of the code's.
fn place_of(code: &[u8], code_at: u64, rip: u64) -> Option<usize>
    requires { code_at + length code.now ≤ 2 ^ 64 }
    ensures outside { IfNone result (InCode (record { bytes = code.now; start = code_at }) rip → ⊥) }
    ensures inside { IfSome result (λ place. InCode (record { bytes = code.now; start = code_at }) rip) }
    ensures value { IfSome result (λ place. place ≡ rip - code_at) }
    ensures within { IfSome result (λ place. place < length code.now) }
{
    if rip < code_at || code.len() as u64 <= rip - code_at {
        return None;
    }
    Some((rip - code_at) as usize)
}

/// A trap as a step tells it: for want of flags its address is the instruction's.
fn told(trap: Trap, rip: u64) -> Trap
    ensures { result ≡ told trap.at trap.why rip }
{
    match trap.why {
        Why::NoFlags => Trap {
            at: rip,
            why: Why::NoFlags,
        },
        _ => trap,
    }
}

/// Does an instruction of this size at RIP, where the rest of the code begins with its spelling.
fn perform(state: &mut State, memory: &mut Segments, ins: &Ins, size: usize) -> Result<(), Trap>
    requires { IsTrue (has_spelling ins.now) }
    ensures done { OnOk result (effect ins.now (point_of state.old (memory_of memory.old)).core
        ((state.old.rip + size) % 2 ^ 64) ≡ Ok (point_of state.new (memory_of memory.new))) }
    ensures stuck { IfErr result (λ trap. IsCause ins.now (point_of state.old (memory_of memory.old)) size trap) }
    ensures unchanged { OnErr result
        (point_of state.new (memory_of memory.new) ≡ point_of state.old (memory_of memory.old)) }
{
    let rip = state.rip;
    state.rip = rip.wrapping_add(size as u64);
    match apply(ins, state, memory) {
        Ok(()) => Ok(()),
        Err(trap) => {
            state.rip = rip;
            Err(told(trap, rip))
        }
    }
}

/// Does the instruction at RIP of the code at an address, on a state and a memory.
///
/// # Errors
///
/// A trap, which changes nothing, as of [`step`].
pub fn step_on(
    code: &[u8],
    code_at: u64,
    state: &mut State,
    memory: &mut Segments,
) -> Result<(), Trap>
    requires low { code_at + length code.now ≤ 2 ^ 64 }
    ensures done { OnOk result ((i : Ins) × Step (record { bytes = code.now; start = code_at })
        (point_of state.old (memory_of memory.old)) i (point_of state.new (memory_of memory.new))) }
    ensures stuck { IfErr result (λ trap. Stuck (record { bytes = code.now; start = code_at })
        (point_of state.old (memory_of memory.old)) trap) }
    ensures unchanged { OnErr result
        (point_of state.new (memory_of memory.new) ≡ point_of state.old (memory_of memory.old)) }
{
    let at = state.rip;
    let Some(place) = place_of(code, code_at, at) else {
        return Err(Trap {
            at,
            why: Why::NoCode,
        });
    };
    let (_, rest) = code.split_at(place);
    let Some((ins, size)) = decode(rest) else {
        return Err(Trap {
            at,
            why: Why::NoRow,
        });
    };
    perform(state, memory, &ins, size)
}

/// The same with a table of the code's instructions.
fn step_by(
    code: &[u8],
    code_at: u64,
    state: &mut State,
    memory: &mut Segments,
    table: &mut Table,
) -> Result<(), Trap>
    requires low { code_at + length code.now ≤ 2 ^ 64 }
    requires table { AreFetched code.now table.old }
    ensures table { AreFetched code.now table.new }
    ensures done { OnOk result ((i : Ins) × Step (record { bytes = code.now; start = code_at })
        (point_of state.old (memory_of memory.old)) i (point_of state.new (memory_of memory.new))) }
    ensures stuck { IfErr result (λ trap. Stuck (record { bytes = code.now; start = code_at })
        (point_of state.old (memory_of memory.old)) trap) }
    ensures unchanged { OnErr result
        (point_of state.new (memory_of memory.new) ≡ point_of state.old (memory_of memory.old)) }
{
    let at = state.rip;
    let Some(place) = place_of(code, code_at, at) else {
        return Err(Trap {
            at,
            why: Why::NoCode,
        });
    };
    let Some(fetched) = fetch(code, place, table) else {
        return Err(Trap {
            at,
            why: Why::NoRow,
        });
    };
    perform(state, memory, &fetched.ins, fetched.size)
}

/// Does the instruction at RIP.
///
/// # Errors
///
/// A trap, which changes nothing: `NoCode` where RIP is not in the code and `NoRow` where no instruction's spelling
/// begins the rest of the code, both with RIP's value, and else what the instruction's effect says, for `NoFlags`
/// with RIP's value.
pub fn step(m: &mut Machine) -> Result<(), Trap>
    ensures same { SameCode m.old m.new }
    ensures done { OnOk result ((i : Ins) × Step (code_of m.old) (point m.old) i (point m.new)) }
    ensures stuck { IfErr result (λ trap. Stuck (code_of m.old) (point m.old) trap) }
    ensures unchanged { OnErr result (point m.new ≡ point m.old) }
{
    step_on(m.code.as_slice(), m.code_at, &mut m.state, &mut m.memory)
}

/// Does the instruction at RIP, with a table of the code's instructions.
fn step_with(m: &mut Machine, table: &mut Table) -> Result<(), Trap>
    requires { AreFetched m.old.code table.old }
    ensures table { AreFetched m.new.code table.new }
    ensures same { SameCode m.old m.new }
    ensures done { OnOk result ((i : Ins) × Step (code_of m.old) (point m.old) i (point m.new)) }
    ensures stuck { IfErr result (λ trap. Stuck (code_of m.old) (point m.old) trap) }
    ensures unchanged { OnErr result (point m.new ≡ point m.old) }
{
    step_by(
        m.code.as_slice(),
        m.code_at,
        &mut m.state,
        &mut m.memory,
        table,
    )
}

/// Whether RIP and RSP have the stop values.
fn is_over(m: &Machine) -> bool
    ensures yes { result ≡ true → IsOver (stop_of m.now) (point m.now) }
    ensures no { result ≡ false → IsOver (stop_of m.now) (point m.now) → ⊥ }
{
    m.state.rip == m.stop_rip && m.state.gpr[4] == m.stop_rsp
}

/// Runs the code until RIP and RSP have the stop values, a step has no effect, or so many steps are done. It takes no
/// memory.
///
/// Before each step, and behind the last one, it looks whether RIP and RSP have the stop values. `Budget` comes where
/// neither an end nor a trap came within the budget.
pub fn run(m: &mut Machine, budget: u64) -> End
    ensures ends { EndsAt (code_of m.old) (stop_of m.old) budget (point m.old) result (point m.new) }
    ensures same { SameCode m.old m.new }
{
    let mut table = empty();
    for steps in 0..budget {
        if is_over(m) {
            return End::Returned { steps };
        }
        match step_with(m, &mut table) {
            Ok(()) => {}
            Err(trap) => return End::Trapped { steps, trap },
        }
    }
    if is_over(m) {
        return End::Returned { steps: budget };
    }
    End::Budget
}

/// The law of one end: a run has one end at most within a budget, at one state and memory. So `run` tells the only one.
pub fn one_end()
    ensures { OneEnd }
{}
