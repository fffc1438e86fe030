//! What holds of the definitions. These functions compute nothing: their clauses are the facts.

ghost use Rattle.ip_bind.specs.Laws.{AddressNamesNode, AddressOfNoNode};

/// In a topology an address finds a node if and only if that node has it.
pub fn address_names_node()
    ensures { AddressNamesNode }
{}

/// An address finds no node if and only if no node has it.
pub fn address_of_no_node()
    ensures { AddressOfNoNode }
{}
