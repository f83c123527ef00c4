// The roots' part in numbers 5 to 7: one pass over the functions. It stands apart from the pass over the nodes, so that an edit of one
// does not prove the other again.
#![tactic(auto)]

ghost use Rattle.std.specs.Prelude.{◌≡◌, ◌||◌, ◌∷◌, ◌/◌};
ghost use Rattle.kit.specs.Names.{List, [], map, ℕ, length};
ghost use Rattle.definitions.specs.Basics.{any, first_that_holds};
ghost use Rattle.file_decoded.specs.Slices.{functions_from};
ghost use Rattle.check_05_uses.specs.Counting.{Room, Counted, root_of};
ghost use Rattle.check_06_depth.specs.Chains.{Bounded, root_too_deep};
ghost use Rattle.check_07_sorts.specs.Sorts.{nodes_in, root_wrong};

use check_05_uses::count_use;
use check_06_depth::depth_of;
use check_07_sorts::has_sort;
use file_decoded::number_from;

// Counts the uses of the functions' roots, and tells the first of the sentences 6 and 7 that holds, or 0: of their depths, and of their
// sorts with what is noted of the children's.
pub fn look_at_roots(
    functions: &[u16],
    nodes: &[u16],
    counts: &mut [u16; 512],
    depths: &[u16; 512],
    noted: bool,
) -> u8
    requires { (Room counts.old (length functions.now / 3)) × (Bounded depths.now) }
    ensures { (parameters : List ℕ)
        → (Counted counts.old counts.new
        (map root_of (functions_from parameters (length functions.now / 3) functions.now 0)))
        × (result ≡ first_that_holds 6
        (any (root_too_deep depths.now)
        (functions_from parameters (length functions.now / 3) functions.now 0)
        ∷ (noted || any (root_wrong (nodes_in nodes.now))
        (functions_from parameters (length functions.now / 3) functions.now 0))
        ∷ [])) }
{
    let mut deep = false;
    let mut wrong = noted;
    for i in 0..functions.len() / 3 {
        let root = number_from(functions, 3 * i + 2);
        count_use(counts, root);
        deep = deep | (64 < depth_of(depths, root));
        wrong = wrong | !has_sort(nodes, false, root);
    }
    if deep {
        return 6;
    }
    if wrong {
        return 7;
    }
    0
}
