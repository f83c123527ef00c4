// 02, Note 1: the links after an if.
#![tactic(auto)]

ghost use Rattle.std.specs.Prelude.{◌≡◌, ◌+◌, ◌*◌};
ghost use Rattle.kit.specs.Names.{length};
ghost use Rattle.rules_links.specs.Classes.{Classed};
ghost use Rattle.rules_meet.specs.Branches.{Met, Behind};

// The place of a pair of classes, one of each branch, in a table of all such pairs.
fn pair(one: u16, other: u16) -> usize
    ensures { result ≡ one * 74 + other }
{
    one as usize * 74 + other as usize
}

// 02, Note 1: "After an if, a pair of names is linked when it was linked at the end of both branches.", in place of the one branch's
// classes. Of the names of one pair of classes the last is the number of all.
fn meet(classes: &mut [u16], other: &[u16])
    requires { (Classed classes.old) × (Classed other.now) × (length other.now ≡ length classes.old) }
    ensures { Met classes.old other.now classes.new }
{
    let mut last = [0u16; 5476];
    for (i, class) in classes.iter().enumerate() {
        let place = pair(*class, other[i]);
        last[place] = i as u16;
    }
    for (i, class) in classes.iter_mut().enumerate() {
        let shared = pair(*class, other[i]);
        *class = last[shared];
    }
}

// The links behind an if, in place of those at the end of the branch taken, by those before it and at the end of the other. Links only
// grow: where a branch has added none, the pairs that are linked in both are those of before. The answer is whether any was added.
pub fn behind(
    classes: &mut [u16],
    before: &[u16],
    other: &[u16],
    one_added: bool,
    other_added: bool,
) -> bool
    requires { (Classed classes.old) × (Classed before.now) × (Classed other.now)
        × (length before.now ≡ length classes.old) × (length other.now ≡ length classes.old) }
    ensures { Behind before.now classes.old one_added other.now other_added
        classes.new result }
{
    if one_added {
        if other_added {
            meet(classes, other);
            return true;
        }
        classes.copy_from_slice(before);
    }
    false
}
