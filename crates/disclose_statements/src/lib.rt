// 01, Runs and views: what a statement of the original discloses to a party, with the numbers that it leaves in the places: "In a call it
// works out parts first, second, third, of an if the condition and the taken branch; a false require fails the call."
#![tactic(auto)]

ghost use Rattle.std.specs.Prelude.{◌≡◌};
ghost use Rattle.theory_trees.specs.Trees.{statement_in};
ghost use Rattle.file_accepted.specs.Context.{nodes_in};
ghost use Rattle.honest_values.specs.Values.{kind_at};
ghost use Rattle.disclose_statements.specs.Statements.{StatementReady, StatementDisclosed};

use disclose_branches::{branch_of, holds};
use disclose_expressions::{Asked, Told, disclose_expression, value_asked};
use file_accepted::CheckedFunction;
use file_decoded::node_at;
use file_kinds::*;
use ledger_places::{position, put_number};

// A field takes a value.
fn disclose_field(
    function: &CheckedFunction,
    who: Asked,
    numbers: &mut [u32],
    arguments: &[u32],
    addresses: &[u32],
    n: usize,
    out: &mut [u32],
) -> Told
    requires { (kind_at function.now.source.now n ≡ 18)
        × (StatementReady function.now.file.now arguments.now addresses.now numbers.old who n out.old) }
    ensures { StatementDisclosed function.now.file.now arguments.now addresses.now numbers.old
        who.party (statement_in (nodes_in function.now.file.now) n) numbers.new
        out.old out.new who.at result }
{
    let node = node_at(function.source, n);
    let part = node.first;
    let told = disclose_expression(function, who, numbers, arguments, addresses, part, out);
    let v = value_asked(function, who, numbers, arguments, part);
    let p = position(function.file, node.arg, 0);
    put_number(numbers, p, v);
    told
}

// A mapping's entry takes a value; its key is worked out first.
fn disclose_entry(
    function: &CheckedFunction,
    who: Asked,
    numbers: &mut [u32],
    arguments: &[u32],
    addresses: &[u32],
    n: usize,
    out: &mut [u32],
) -> Told
    requires { (kind_at function.now.source.now n ≡ 19)
        × (StatementReady function.now.file.now arguments.now addresses.now numbers.old who n out.old) }
    ensures { StatementDisclosed function.now.file.now arguments.now addresses.now numbers.old
        who.party (statement_in (nodes_in function.now.file.now) n) numbers.new
        out.old out.new who.at result }
{
    let node = node_at(function.source, n);
    let key = disclose_expression(
        function, who, numbers, arguments, addresses, node.first, out,
    );
    if !key.finished {
        return key;
    }
    let told = disclose_expression(
        function,
        Asked {
            caller: who.caller,
            party: who.party,
            at: key.at,
        },
        numbers,
        arguments,
        addresses,
        node.second,
        out,
    );
    let k = value_asked(function, who, numbers, arguments, node.first);
    let v = value_asked(function, who, numbers, arguments, node.second);
    let p = position(function.file, node.arg, k as usize);
    put_number(numbers, p, v);
    told
}

// What a condition discloses is disclosed even where it is false.
fn disclose_require(
    function: &CheckedFunction,
    who: Asked,
    numbers: &[u32],
    arguments: &[u32],
    addresses: &[u32],
    n: usize,
    out: &mut [u32],
) -> Told
    requires { (kind_at function.now.source.now n ≡ 20)
        × (StatementReady function.now.file.now arguments.now addresses.now numbers.now who n out.old) }
    ensures { StatementDisclosed function.now.file.now arguments.now addresses.now numbers.now
        who.party (statement_in (nodes_in function.now.file.now) n) numbers.now
        out.old out.new who.at result }
{
    let node = node_at(function.source, n);
    let part = node.first;
    let told = disclose_expression(function, who, numbers, arguments, addresses, part, out);
    let condition = value_asked(function, who, numbers, arguments, part);
    Told {
        at: told.at,
        finished: holds(told.finished, condition),
    }
}

// What node n discloses, appended, and the numbers that it leaves where it completes.
#[cycle(disclose_conditional_disclose_sequence_disclose_statement)]
pub fn disclose_statement(
    function: &CheckedFunction,
    who: Asked,
    numbers: &mut [u32],
    arguments: &[u32],
    addresses: &[u32],
    n: usize,
    out: &mut [u32],
) -> Told
    requires { StatementReady function.now.file.now arguments.now addresses.now numbers.old who n out.old }
    ensures { StatementDisclosed function.now.file.now arguments.now addresses.now numbers.old
        who.party (statement_in (nodes_in function.now.file.now) n) numbers.new
        out.old out.new who.at result }
{
    let node = node_at(function.source, n);
    let kind = node.kind;
    match kind {
        SEQUENCE => disclose_sequence(function, who, numbers, arguments, addresses, n, out),
        FIELD_TAKES => disclose_field(function, who, numbers, arguments, addresses, n, out),
        ENTRY_TAKES => disclose_entry(function, who, numbers, arguments, addresses, n, out),
        REQUIRE => disclose_require(function, who, numbers, arguments, addresses, n, out),
        IF => disclose_conditional(function, who, numbers, arguments, addresses, n, out),
        _ => Told {
            at: who.at,
            finished: true,
        },
    }
}

// The second of two statements discloses nothing where the first one fails.
#[cycle(disclose_conditional_disclose_sequence_disclose_statement)]
fn disclose_sequence(
    function: &CheckedFunction,
    who: Asked,
    numbers: &mut [u32],
    arguments: &[u32],
    addresses: &[u32],
    n: usize,
    out: &mut [u32],
) -> Told
    requires { (kind_at function.now.source.now n ≡ 17)
        × (StatementReady function.now.file.now arguments.now addresses.now numbers.old who n out.old) }
    ensures { StatementDisclosed function.now.file.now arguments.now addresses.now numbers.old
        who.party (statement_in (nodes_in function.now.file.now) n) numbers.new
        out.old out.new who.at result }
{
    let node = node_at(function.source, n);
    let first = disclose_statement(
        function, who, numbers, arguments, addresses, node.first, out,
    );
    if !first.finished {
        return first;
    }
    disclose_statement(
        function,
        Asked {
            caller: who.caller,
            party: who.party,
            at: first.at,
        },
        numbers,
        arguments,
        addresses,
        node.second,
        out,
    )
}

// The condition first, and then the taken branch alone.
#[cycle(disclose_conditional_disclose_sequence_disclose_statement)]
fn disclose_conditional(
    function: &CheckedFunction,
    who: Asked,
    numbers: &mut [u32],
    arguments: &[u32],
    addresses: &[u32],
    n: usize,
    out: &mut [u32],
) -> Told
    requires { (kind_at function.now.source.now n ≡ 21)
        × (StatementReady function.now.file.now arguments.now addresses.now numbers.old who n out.old) }
    ensures { StatementDisclosed function.now.file.now arguments.now addresses.now numbers.old
        who.party (statement_in (nodes_in function.now.file.now) n) numbers.new
        out.old out.new who.at result }
{
    let node = node_at(function.source, n);
    let condition = value_asked(function, who, numbers, arguments, node.first);
    let branch = branch_of(condition, node.second, node.third);
    let told = disclose_expression(
        function, who, numbers, arguments, addresses, node.first, out,
    );
    if !told.finished {
        return told;
    }
    disclose_statement(
        function,
        Asked {
            caller: who.caller,
            party: who.party,
            at: told.at,
        },
        numbers,
        arguments,
        addresses,
        branch,
        out,
    )
}
