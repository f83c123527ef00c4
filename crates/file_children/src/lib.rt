// What a kind of node says of the node's parts.
#![tactic(auto)]

ghost use Rattle.std.specs.Prelude.{◌≡◌};
ghost use Rattle.file_children.specs.Children.{child_count, expression_count, is_expression_kind, is_statement_kind};

use file_kinds::*;

const CHILDREN: [usize; 22] = [
    0, 0, // constant
    0, // me
    0, // field
    1, // entry
    0, // parameter
    2, // operator
    1, // not
    1, // reveal
    0, 0, 0, 0, 0, 0, 0, 0, // skip
    2, // sequence
    1, // field takes
    2, // entry takes
    1, // require
    3, // if
];

// How many children a node of a kind has. They are its first parts.
pub fn child_count(kind: usize) -> usize
    ensures { result ≡ child_count kind }
{
    if kind < 22 { CHILDREN[kind] } else { 0 }
}

// How many of the children, the first ones, are due to be expressions: all but those of a sequence and the two behind an if's condition,
// which are due to be statements.
pub fn expression_count(kind: usize) -> usize
    ensures { result ≡ expression_count kind }
{
    if kind == SEQUENCE {
        0
    } else if kind == IF {
        1
    } else {
        child_count(kind)
    }
}

// Kinds 1 to 8: numbers 3 and 7 both ask for the sort of a kind.
pub fn is_expression_kind(kind: usize) -> bool
    ensures { result ≡ is_expression_kind kind }
{
    CONSTANT <= kind && kind <= REVEAL
}

pub fn is_statement_kind(kind: usize) -> bool
    ensures { result ≡ is_statement_kind kind }
{
    SKIP <= kind && kind <= IF
}
