// Number 7: "A statement stands where an expression is due, or the reverse."
#![tactic(auto)]

ghost use Rattle.std.specs.Prelude.{◌≡◌};
ghost use Rattle.check_07_sorts.specs.Sorts.{nodes_in, has_sort};

use file_children::{is_expression_kind, is_statement_kind};
use file_decoded::number_from;

// Whether node n is there and is an expression, or a statement.
pub fn has_sort(nodes: &[u16], expression: bool, n: usize) -> bool
    ensures { result ≡ has_sort (nodes_in nodes.now) expression n }
{
    if nodes.len() / 5 <= n {
        return false;
    }
    let kind = number_from(nodes, 5 * n);
    if expression {
        is_expression_kind(kind)
    } else {
        is_statement_kind(kind)
    }
}
