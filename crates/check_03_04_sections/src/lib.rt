// Numbers 3 and 4 of a contract that is decoded: each section is read once for both.
#![tactic(auto)]

ghost use Rattle.std.specs.Prelude.{◌≡◌, ◌∷◌, ◌/◌};
ghost use Rattle.kit.specs.Names.{[], length};
ghost use Rattle.definitions.specs.Basics.{any, any_numbered, first_that_holds};
ghost use Rattle.definitions.specs.Numbers.{outside_tables, names_nothing};
ghost use Rattle.file_decoded.specs.Slices.{fields_from, functions_from, nodes_from, ParametersInside};
ghost use Rattle.file_decoded.specs.Sections.{sections_held};
ghost use Rattle.check_03_declarations.specs.Outside.{field_outside, function_outside, node_outside};
ghost use Rattle.check_04_nodes.specs.Naming.{owner_names_nothing, root_names_nothing, node_names_nothing};

use check_03_declarations::{field_in_tables, parameters_outside};
use check_03_nodes::node_in_tables;
use check_04_nodes::{final_number, node_names_nothing};
use file_decoded::{DecodedSections, node_from, number_from};
use file_kinds::{EVERYONE_CODE, KEY_CODE};

// What is noted of a section: something in it is outside the tables, or names nothing.
#[derive(Clone, Copy)]
pub struct Noted {
    pub outside: bool,
    pub nothing: bool,
}

fn note_fields(fields: &[u16]) -> Noted
    ensures { (result.outside ≡ any field_outside (fields_from (length fields.now / 3) fields.now 0))
        × (result.nothing ≡ any (owner_names_nothing (length fields.now / 3))
        (fields_from (length fields.now / 3) fields.now 0)) }
{
    let count = fields.len() / 3;
    let mut outside = false;
    let mut nothing = false;
    for i in 0..count {
        let shape = number_from(fields, 3 * i);
        let data_type = number_from(fields, 3 * i + 1);
        let owner = number_from(fields, 3 * i + 2);
        outside = outside | !field_in_tables(shape, data_type, owner);
        let names_field = (owner != EVERYONE_CODE) & (owner != KEY_CODE);
        nothing = nothing | names_field & (count <= final_number(owner));
    }
    Noted { outside, nothing }
}

fn note_functions(functions: &[u16], parameters: &[u16], nodes: usize) -> Noted
    requires { ParametersInside functions.now parameters.now }
    ensures { (result.outside ≡ any function_outside
        (functions_from parameters.now (length functions.now / 3) functions.now 0))
        × (result.nothing ≡ any (root_names_nothing nodes)
        (functions_from parameters.now (length functions.now / 3) functions.now 0)) }
{
    let mut outside = false;
    let mut nothing = false;
    for i in 0..functions.len() / 3 {
        let first = number_from(functions, 3 * i);
        let own = number_from(functions, 3 * i + 1);
        let root = number_from(functions, 3 * i + 2);
        outside = outside | parameters_outside(parameters, first, own);
        nothing = nothing | (nodes <= root);
    }
    Noted { outside, nothing }
}

fn note_nodes(nodes: &[u16], fields: usize) -> Noted
    ensures { (result.outside ≡ any node_outside (nodes_from (length nodes.now / 5) nodes.now 0))
        × (result.nothing ≡ any_numbered (node_names_nothing fields) 0
        (nodes_from (length nodes.now / 5) nodes.now 0)) }
{
    let mut outside = false;
    let mut nothing = false;
    for n in 0..nodes.len() / 5 {
        let node = node_from(nodes, 5 * n);
        outside = outside | !node_in_tables(node);
        nothing = nothing | node_names_nothing(fields, n, node);
    }
    Noted { outside, nothing }
}

// "3. A shape, type, owner code, kind, operator, constant or unused part is outside the tables above."
// "4. A field number, in owner codes too, names nothing, a root is no node, or a child's number isn't below its parent's."
pub fn tables_and_names(sections: &DecodedSections) -> u8
    requires { ParametersInside sections.now.functions.now sections.now.parameters.now }
    ensures { result ≡ first_that_holds 3
        (outside_tables (sections_held sections.now)
        ∷ names_nothing (sections_held sections.now)
        ∷ []) }
{
    let of_fields = note_fields(sections.fields);
    let of_functions = note_functions(
        sections.functions,
        sections.parameters,
        sections.nodes.len() / 5,
    );
    let of_nodes = note_nodes(sections.nodes, sections.fields.len() / 3);
    if of_fields.outside | of_functions.outside | of_nodes.outside {
        return 3;
    }
    if of_fields.nothing | of_functions.nothing | of_nodes.nothing {
        return 4;
    }
    0
}
