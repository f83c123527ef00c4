// 01, Runs and views: "Each reveal to all or to the party's address, once worked out, adds its value to what the call discloses to the
// party, up to a failure." The expressions of the original, on numbers in all places.
#![tactic(auto)]

ghost use Rattle.std.specs.Prelude.{◌≡◌, ◌∷◌, ◌+◌, ◌<◌, ◌≤◌};
ghost use Rattle.kit.specs.Names.{[], length};
ghost use Rattle.definitions.specs.ContractFile.{node_count};
ghost use Rattle.theory_trees.specs.Trees.{expression_in};
ghost use Rattle.memory_append.specs.Append.{Appended};
ghost use Rattle.file_accepted.specs.Context.{nodes_in};
ghost use Rattle.honest_values.specs.Values.{kind_at, value_of};
ghost use Rattle.disclose_expressions.specs.Expressions.{ExpressionReady, ExpressionDisclosed};

use disclose_readers::may_read;
use file_accepted::CheckedFunction;
use file_decoded::node_at;
use file_kinds::*;
use honest_values::value;
use walk_expressions::divides;

// For which caller a function is worked out, the party that is told, and where the next value goes.
#[derive(Clone, Copy)]
pub struct Asked {
    pub caller: u8,
    pub party: u8,
    pub at: usize,
}

// The place behind the disclosed values, and whether all was worked out to its end.
#[derive(Clone, Copy)]
pub struct Told {
    pub at: usize,
    pub finished: bool,
}

// One value behind others.
fn append_value(value: u32, out: &mut [u32], at: usize) -> usize
    requires { at + 1 ≤ length out.old }
    ensures { Appended out.old out.new at (value ∷ []) result }
{
    out[at] = value;
    at + 1
}

// The value of node n for the caller.
pub fn value_asked(
    function: &CheckedFunction,
    who: Asked,
    numbers: &[u32],
    arguments: &[u32],
    n: usize,
) -> u32
    requires { n < node_count function.now.file.now }
    ensures { result ≡ value_of function.now.file.now arguments.now who.caller numbers.now
        (expression_in (nodes_in function.now.file.now) n) }
{
    value(function, numbers, arguments, who.caller, n)
}

// What node n discloses, appended.
#[cycle(disclose_expression_disclose_operator_disclose_reveal)]
pub fn disclose_expression(
    function: &CheckedFunction,
    who: Asked,
    numbers: &[u32],
    arguments: &[u32],
    addresses: &[u32],
    n: usize,
    out: &mut [u32],
) -> Told
    requires { ExpressionReady function.now.file.now arguments.now addresses.now numbers.now who n out.old }
    ensures { ExpressionDisclosed function.now.file.now arguments.now addresses.now numbers.now
        who.party (expression_in (nodes_in function.now.file.now) n) out.old out.new who.at result }
{
    let node = node_at(function.source, n);
    let kind = node.kind;
    match kind {
        ENTRY => disclose_expression(
            function, who, numbers, arguments, addresses, node.first, out,
        ),
        OPERATOR => disclose_operator(function, who, numbers, arguments, addresses, n, out),
        NOT => disclose_expression(
            function, who, numbers, arguments, addresses, node.first, out,
        ),
        REVEAL => disclose_reveal(function, who, numbers, arguments, addresses, n, out),
        _ => Told {
            at: who.at,
            finished: true,
        },
    }
}

// The left operand first; the right one discloses nothing where the left one fails.
#[cycle(disclose_expression_disclose_operator_disclose_reveal)]
fn disclose_operator(
    function: &CheckedFunction,
    who: Asked,
    numbers: &[u32],
    arguments: &[u32],
    addresses: &[u32],
    n: usize,
    out: &mut [u32],
) -> Told
    requires { (kind_at function.now.source.now n ≡ 6)
        × (ExpressionReady function.now.file.now arguments.now addresses.now numbers.now who n out.old) }
    ensures { ExpressionDisclosed function.now.file.now arguments.now addresses.now numbers.now
        who.party (expression_in (nodes_in function.now.file.now) n) out.old out.new who.at result }
{
    let node = node_at(function.source, n);
    let left = disclose_expression(
        function, who, numbers, arguments, addresses, node.first, out,
    );
    if !left.finished {
        return left;
    }
    let right = disclose_expression(
        function,
        Asked {
            caller: who.caller,
            party: who.party,
            at: left.at,
        },
        numbers,
        arguments,
        addresses,
        node.second,
        out,
    );
    if !right.finished {
        return right;
    }
    let divisor = value_asked(function, who, numbers, arguments, node.second);
    Told {
        at: right.at,
        finished: divides(node.arg, divisor),
    }
}

// A reveal's part first, and then its own value.
#[cycle(disclose_expression_disclose_operator_disclose_reveal)]
fn disclose_reveal(
    function: &CheckedFunction,
    who: Asked,
    numbers: &[u32],
    arguments: &[u32],
    addresses: &[u32],
    n: usize,
    out: &mut [u32],
) -> Told
    requires { (kind_at function.now.source.now n ≡ 8)
        × (ExpressionReady function.now.file.now arguments.now addresses.now numbers.now who n out.old) }
    ensures { ExpressionDisclosed function.now.file.now arguments.now addresses.now numbers.now
        who.party (expression_in (nodes_in function.now.file.now) n) out.old out.new who.at result }
{
    let node = node_at(function.source, n);
    let part = disclose_expression(
        function, who, numbers, arguments, addresses, node.first, out,
    );
    if !part.finished {
        return part;
    }
    if !may_read(addresses, node.arg, who.party) {
        return part;
    }
    let shown = value_asked(function, who, numbers, arguments, node.first);
    let next = append_value(shown, out, part.at);
    Told {
        at: next,
        finished: true,
    }
}
