// Number 5: "A node is used other than once, as a root or a child."
#![tactic(auto)]

ghost use Rattle.std.specs.Prelude.{◌≡◌, ◌∷◌, ◌≤◌};
ghost use Rattle.kit.specs.Names.{[]};
ghost use Rattle.check_05_uses.specs.Counting.{Room, Counted, other_than_one, any_from};

// One more use of node n, where n can be a node.
pub fn count_use(counts: &mut [u16; 512], n: usize)
    requires { Room counts.old 1 }
    ensures { Counted counts.old counts.new (n ∷ []) }
{
    if n < 512 {
        counts[n] += 1;
    }
}

// Whether some of the first counts is other than one.
pub fn some_other_than_one(counts: &[u16; 512], count: usize) -> bool
    requires { count ≤ 512 }
    ensures { result ≡ any_from (other_than_one counts.now) 0 count }
{
    let mut other = false;
    for uses in &counts[..count] {
        other = other | (*uses != 1);
    }
    other
}
