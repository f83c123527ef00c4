// Links between names as classes: names of one class are linked. A class number stands at each name's owner's number, and is changed in
// place. A caller is told whether a link was added: where one of an if's branches has added none, the links behind the if are those before
// it, and no class need be looked at.
#![tactic(auto)]

ghost use Rattle.std.specs.Prelude.{◌≡◌, ◌<◌, ◌≤◌};
ghost use Rattle.kit.specs.Names.{eqb, length, get_or};
ghost use Rattle.definitions.specs.Owners.{no_links, with_link_of};
ghost use Rattle.rules_owners.specs.Numbering.{name_with};
ghost use Rattle.rules_links.specs.Classes.{Classed, linked_by, exchanged, Learnt};

fn exchange(class: u16, old: u16, new: u16) -> u16
    ensures { result ≡ exchanged old new class }
{
    if class == old { new } else { class }
}

// A name is linked to itself alone.
pub fn no_links(classes: &mut [u16])
    requires { (10 ≤ length classes.old) × (length classes.old ≤ 74) }
    ensures { (linked_by classes.new ≡ no_links) × (Classed classes.new)
        × (length classes.new ≡ length classes.old) }
{
    for (i, class) in classes.iter_mut().enumerate() {
        *class = i as u16;
    }
}

// Whether two names are linked.
pub fn same_class(classes: &[u16], a: u16, b: u16) -> bool
    requires { (a < length classes.now) × (b < length classes.now) }
    ensures { result ≡ eqb (get_or classes.now a 0) (get_or classes.now b 0) }
{
    let i = a as usize;
    let j = b as usize;
    classes[i] == classes[j]
}

// The names of two numbers become linked: the class of the one becomes that of the other. 0 is no name. The answer is whether there was
// something to link.
pub fn link(classes: &mut [u16], a: u16, b: u16) -> bool
    requires { (Classed classes.old) × (a < length classes.old) × (b < length classes.old) }
    ensures { Learnt classes.old classes.new result
        (with_link_of (name_with a) (name_with b) (linked_by classes.old)) }
{
    if a == 0 {
        return false;
    }
    if b == 0 {
        return false;
    }
    let i = a as usize;
    let j = b as usize;
    let old = classes[i];
    let new = classes[j];
    for class in classes.iter_mut() {
        *class = exchange(*class, old, new);
    }
    true
}

// Room for the classes of a contract with as many fields as number 2 lets pass.
pub fn class_room() -> [u16; 74]
    ensures { 74 ≡ length result }
{
    [0; 74]
}
