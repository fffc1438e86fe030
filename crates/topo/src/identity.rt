ghost use Rattle.std.specs.Prelude.{◌≡◌, ℕ, ◌≤◌, List, length, Some, None, OnOk, IfOk, IfErr};
ghost use Rattle.std.specs.Ordering.{nat_cmp};
ghost use Rattle.std.specs.BTreeMap.{get};
ghost use Rattle.mn_base.specs.Refused.{IfFault};
ghost use Rattle.topo.specs.Nodes.{node_with};
ghost use Rattle.topo.specs.Faults.{first_fault, id_fault, address_fault};

use crate::faults::TopoFault;
use crate::parts::Node;
use mn_base::limits::NODES_MAX;
use mn_base::{NoMemory, Refusal};
use std::alloc::Global;
use std::collections::{BTreeMap, BTreeSet};

/// The nodes' numbers by their ids.
pub(crate) fn numbers_by_id(
    alloc: Global,
    nodes: &[Node],
) -> Result<BTreeMap<u64, u32>, Refusal<TopoFault>>
    requires { length nodes.now ≤ NODES_MAX }
    ensures numbers { IfOk result (λ m. (id : ℕ) → get nat_cmp m id ≡ node_with nodes.now id) }
    ensures distinct { OnOk result (first_fault (id_fault nodes.now) 0 nodes.now ≡ None) }
    ensures fault { IfErr result
        (λ e. IfFault e (λ f. first_fault (id_fault nodes.now) 0 nodes.now ≡ Some f)) }
{
    let mut numbers = BTreeMap::new(alloc);
    for (n, node) in nodes.iter().enumerate() {
        let number = n as u32;
        if numbers.contains_key(&node.id) {
            return Err(Refusal::Fault(TopoFault::DuplicateId(number)));
        }
        numbers.insert(node.id, number)?;
    }
    Ok(numbers)
}

/// The first node whose address an earlier node has.
pub(crate) fn address_fault(alloc: Global, nodes: &[Node]) -> Result<Option<TopoFault>, NoMemory>
    requires { length nodes.now ≤ NODES_MAX }
    ensures { IfOk result (λ f. f ≡ first_fault (address_fault nodes.now) 0 nodes.now) }
{
    let mut seen = BTreeSet::new(alloc);
    for (n, node) in nodes.iter().enumerate() {
        let Some(address) = node.address else {
            continue;
        };
        if seen.contains(&address) {
            return Ok(Some(TopoFault::DuplicateAddress(n as u32)));
        }
        seen.insert(address)?;
    }
    Ok(None)
}
