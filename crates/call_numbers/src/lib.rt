// 01, Runs and views: a call that is asked for; the tests of it that ask numbers alone, of numbers 18 to 20; the call that its serials
// carry.
#![tactic(auto)]

ghost use Rattle.std.specs.Prelude.{◌≡◌, ◌∷◌, ◌<◌};
ghost use Rattle.kit.specs.Names.{[], suc, leb, ltb};
ghost use Rattle.definitions.specs.Basics.{first_that_holds};

use ledger_struct::LastCall;

// The ledger's last call, and the call that is asked for.
#[derive(Clone, Copy)]
pub struct Request {
    pub last: LastCall,
    pub function: u8,
    pub caller: u8,
}

// "18. .. or a caller is above 15"
pub fn is_above_15(caller: u8) -> bool
    ensures { result ≡ ltb 15 caller }
{
    15 < caller
}

// "19. Arguments differ ..", else "20. Call number 65,535 has been used.", else 0.
pub fn number_19_or_20(arguments_off: bool, last: u16) -> u8
    ensures { result ≡ first_that_holds 19 (arguments_off ∷ leb 65535 last ∷ []) }
{
    if arguments_off {
        return 19;
    }
    if last == 65535 {
        return 20;
    }
    0
}

// "A supplied cell's serial is the call and 8 + variable": the call is the one that is made, not the last one.
pub fn serial_call(last: u16) -> u16
    requires { last < 65535 }
    ensures { result ≡ suc last }
{
    last + 1
}
