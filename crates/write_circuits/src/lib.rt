// 01, Rewriting: the circuits of a log's claims written behind one another, and the claims' numbers.
#![tactic(auto)]

ghost use Rattle.std.specs.Prelude.{◌≡◌, ◌+◌, ◌*◌, ◌≤◌};
ghost use Rattle.kit.specs.Names.{length, get_or};
ghost use Rattle.memory_buffer.specs.Buffer.{stored};
ghost use Rattle.file_accepted.specs.Context.{nodes_in, scope_in};
ghost use Rattle.write_nodes.specs.Numbering.{Room, Numbered};
ghost use Rattle.write_circuits.specs.Circuits.{four, circuit_at, claims_in, Claimable, EntryClaimable, CircuitsRoom, CircuitsPut};

use file_accepted::CheckedFunction;
use memory_buffer::put_number;
use rewrite_log::CLAIM_LOGGED;
use write_circuit_expressions::write_circuit_form;
use write_places::Run;

// How many claims were noted, and how many nodes their circuits have.
#[derive(Clone, Copy)]
pub struct Circuits {
    pub count: usize,
    pub nodes: usize,
}

// A claim's guard, variable, owner code and root.
pub fn put_four(numbers: &mut [u16], noted: usize, guard: u16, variable: u16, owner: u16, root: u16)
    requires { noted + 4 ≤ length numbers.old }
    ensures { numbers.new ≡ stored numbers.old noted (four guard variable owner root) }
{
    put_number(numbers, noted, guard);
    put_number(numbers, noted + 1, variable);
    put_number(numbers, noted + 2, owner);
    put_number(numbers, noted + 3, root);
}

// The circuit of one claim, whose first variable is the one behind the claim's own.
fn put_circuit(
    function: &CheckedFunction,
    log: &[u16],
    from: usize,
    out: &mut [u8],
    at: usize,
    base: usize,
) -> usize
    requires { (EntryClaimable function.now.file.now function.now.at log.now from)
        × (Room out.old at base (circuit_at (scope_in function.now.file.now function.now.at)
        (nodes_in function.now.file.now) log.now from)) }
    ensures { Numbered out.old out.new at base
        (circuit_at (scope_in function.now.file.now function.now.at) (nodes_in function.now.file.now) log.now from) result }
{
    let first = log[from + 1] as usize + 1;
    let n = log[from + 3] as usize;
    let form = write_circuit_form(function, n, first, out, at, base);
    form.nodes
}

// The numbers of one claim, whose circuit has this root.
fn put_claim(log: &[u16], from: usize, root: u16, numbers: &mut [u16], noted: usize)
    requires { (from + 5 ≤ length log.now) × (noted + 4 ≤ length numbers.old) }
    ensures { numbers.new ≡ stored numbers.old noted (four (get_or log.now (from + 4) 0)
        (get_or log.now (from + 1) 0) (get_or log.now (from + 2) 0) root) }
{
    put_four(
        numbers,
        noted,
        log[from + 4],
        log[from + 1],
        log[from + 2],
        root,
    );
}

// The circuits of the claims among `left` entries of a log, with the claims' numbers noted from place `noted` on.
pub fn put_circuits(
    function: &CheckedFunction,
    log: &[u16],
    run: Run,
    numbers: &mut [u16],
    out: &mut [u8],
) -> Circuits
    requires { (Claimable function.now.file.now function.now.at log.now run.from run.left)
        × (CircuitsRoom out.old numbers.old run.at run.base run.noted
        (claims_in function.now.file.now function.now.at log.now run.from run.left)) }
    ensures { CircuitsPut out.old out.new numbers.old numbers.new
        run.at run.base run.noted
        (claims_in function.now.file.now function.now.at log.now run.from run.left) result }
{
    let from = run.from;
    let left = run.left;
    let noted = run.noted;
    let at = run.at;
    let base = run.base;
    if left == 0 {
        return Circuits { count: 0, nodes: 0 };
    }
    let rest = Run {
        from: from + 5,
        left: left - 1,
        ..run
    };
    if log[from] == CLAIM_LOGGED {
        let nodes = put_circuit(function, log, from, out, at, base);
        put_claim(log, from, (base + nodes - 1) as u16, numbers, noted);
        let later = put_circuits(
            function,
            log,
            Run {
                noted: noted + 4,
                at: at + 8 * nodes,
                base: base + nodes,
                ..rest
            },
            numbers,
            out,
        );
        Circuits {
            count: later.count + 1,
            nodes: nodes + later.nodes,
        }
    } else {
        put_circuits(function, log, rest, numbers, out)
    }
}
