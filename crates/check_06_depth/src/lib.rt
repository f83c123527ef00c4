// Number 6: "A chain from root to leaf has more than 64 nodes."
#![tactic(auto)]

ghost use Rattle.std.specs.Prelude.{◌≡◌, ◌≤◌};
ghost use Rattle.kit.specs.Names.{max};
ghost use Rattle.check_06_depth.specs.Chains.{Bounded, depth_in};

pub fn larger(a: usize, b: usize) -> usize
    ensures { result ≡ max a b }
{
    if a < b { b } else { a }
}

// The depth that is noted for node n.
pub fn depth_of(depths: &[u16; 512], n: usize) -> usize
    requires { Bounded depths.now }
    ensures value { result ≡ depth_in depths.now n }
    ensures upper_bound { result ≤ 512 }
{
    if n < 512 { depths[n] as usize } else { 0 }
}
