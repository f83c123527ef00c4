// Numbers 5 to 7 of a contract that is decoded and that number 4 lets pass: its nodes are read once for all three.
#![tactic(auto)]

ghost use Rattle.std.specs.Prelude.{◌≡◌, ◌∷◌, ◌+◌, ◌*◌, ◌/◌, ◌≤◌};
ghost use Rattle.kit.specs.Names.{List, [], ℕ, length};
ghost use Rattle.definitions.specs.Basics.{any, flat_map, first_that_holds};
ghost use Rattle.definitions.specs.Numbers.{used_other_than_once, too_deep, wrong_sort};
ghost use Rattle.file_decoded.specs.Slices.{nodes_from, sections_from, Shaped};
ghost use Rattle.check_05_uses.specs.Counting.{Room, Counted, children_of};
ghost use Rattle.check_06_depth.specs.Chains.{Bounded, Chains, ChildrenBelow};
ghost use Rattle.check_07_sorts.specs.Sorts.{nodes_in, parts_wrong};
ghost use Rattle.check_05_to_07.specs.Children.{SeenOf};

use check_05_to_07_roots::look_at_roots;
use check_05_uses::{count_use, some_other_than_one};
use check_06_depth::{depth_of, larger};
use check_07_sorts::has_sort;
use file_children::{child_count, expression_count};
use file_decoded::number_from;

// What is seen of a node's children: the depth of the deepest, and whether one is of another sort than is due.
#[derive(Clone, Copy)]
pub struct Seen {
    pub deepest: usize,
    pub wrong: bool,
}

// Counts the uses of a node's children, and looks up their depths and sorts.
fn look_at_children(nodes: &[u16], at: usize, counts: &mut [u16; 512], depths: &[u16; 512]) -> Seen
    requires { (at + 5 ≤ length nodes.now) × (Room counts.old 3) × (Bounded depths.now) }
    ensures { SeenOf nodes.now at counts.old counts.new depths.now result }
{
    let kind = number_from(nodes, at);
    let expressions = expression_count(kind);
    let children = child_count(kind);
    let mut deepest: usize = 0;
    let mut wrong = false;
    for i in 0..children {
        let child = number_from(nodes, at + 2 + i);
        count_use(counts, child);
        deepest = larger(deepest, depth_of(depths, child));
        wrong = wrong | !has_sort(nodes, i < expressions, child);
    }
    Seen { deepest, wrong }
}

// Counts the uses of each node's children, notes each node's depth, and tells whether some child is of another sort than is due.
// A child's number is below its parent's, so its depth is noted before.
fn look_at_nodes(nodes: &[u16], counts: &mut [u16; 512], depths: &mut [u16; 512]) -> bool
    requires { (length nodes.now ≤ 2560) × (ChildrenBelow (nodes_in nodes.now))
        × (Room counts.old (3 * (length nodes.now / 5) + 16)) × (Chains (nodes_in nodes.now) 0 depths.old) }
    ensures { (Counted counts.old counts.new
        (flat_map children_of (nodes_from (length nodes.now / 5) nodes.now 0)))
        × (Room counts.new 16)
        × (Chains (nodes_in nodes.now) (length nodes.now / 5) depths.new)
        × (result ≡ any (parts_wrong (nodes_in nodes.now)) (nodes_in nodes.now)) }
{
    let mut wrong = false;
    for n in 0..nodes.len() / 5 {
        let seen = look_at_children(nodes, 5 * n, counts, depths);
        depths[n] = (seen.deepest + 1) as u16;
        wrong = wrong | seen.wrong;
    }
    wrong
}

// "5. A node is used other than once, as a root or a child."
// "6. A chain from root to leaf has more than 64 nodes."
// "7. A statement stands where an expression is due, or the reverse."
pub fn uses_depth_sorts(functions: &[u16], nodes: &[u16]) -> u8
    requires { (Shaped functions.now nodes.now) × (ChildrenBelow (nodes_in nodes.now)) }
    ensures { (fields parameters : List ℕ) → result ≡ first_that_holds 5
        (used_other_than_once (sections_from fields functions.now parameters nodes.now)
        ∷ too_deep (sections_from fields functions.now parameters nodes.now)
        ∷ wrong_sort (sections_from fields functions.now parameters nodes.now)
        ∷ []) }
{
    let mut counts = [0u16; 512];
    let mut depths = [0u16; 512];
    let wrong = look_at_nodes(nodes, &mut counts, &mut depths);
    let number = look_at_roots(functions, nodes, &mut counts, &depths, wrong);
    let count = nodes.len() / 5;
    if some_other_than_one(&counts, count) {
        return 5;
    }
    number
}
