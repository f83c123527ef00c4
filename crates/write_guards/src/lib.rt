// 01, Rewriting: "Each branch begins by setting a guard variable of its own to true": the nodes of that setting.
#![tactic(auto)]

ghost use Rattle.std.specs.Prelude.{◌+◌, ◌≤◌};
ghost use Rattle.kit.specs.Names.{length};
ghost use Rattle.definitions.specs.ContractFile.{boolean};
ghost use Rattle.definitions.specs.Rewriting.{BodyExpression, Command, command_tree};
ghost use Rattle.write_nodes.specs.Numbering.{Numbered};

use file_kinds::{BOOL_BYTE, CONSTANT_BYTE};
use write_nodes::{put_leaf, put_setting};

// A guard variable set to true; the answer is that this takes two nodes.
pub fn put_guard(variable: usize, out: &mut [u8], at: usize, base: usize) -> usize
    requires { (base + 2 ≤ 65535) × (at + 16 ≤ length out.old) }
    ensures { Numbered out.old out.new at base
        (command_tree (Command.set_variable variable (BodyExpression.constant boolean 1))) result }
{
    put_leaf(CONSTANT_BYTE, BOOL_BYTE, 1, 0, out, at);
    put_setting(variable, 1, out, at, base)
}
