// Values written over a lent buffer, one at a time. Larger runs follow by the laws of `stored`.
#![tactic(auto)]

ghost use Rattle.std.specs.Prelude.{◌≡◌, ◌∷◌, ◌<◌};
ghost use Rattle.kit.specs.Names.{[], length};
ghost use Rattle.memory_buffer.specs.Buffer.{stored};

// A store by a function of its own, so that its effect is one equation with `stored`.
pub fn put_byte(out: &mut [u8], at: usize, value: u8)
    requires { at < length out.old }
    ensures { out.new ≡ stored out.old at (value ∷ []) }
{
    out[at] = value;
}

// The same for numbers of two bytes.
pub fn put_number(out: &mut [u16], at: usize, value: u16)
    requires { at < length out.old }
    ensures { out.new ≡ stored out.old at (value ∷ []) }
{
    out[at] = value;
}
