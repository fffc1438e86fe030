ghost use Rattle.std.specs.Prelude.{◌≡◌, ℕ, IfOk};
ghost use Rattle.std.specs.Ordering.{nat_cmp};
ghost use Rattle.std.specs.FinMap as map;
ghost use Rattle.ip_bind.specs.Books.{node_with_address};

use mn_base::NoMemory;
use std::alloc::Global;
use std::collections::BTreeMap;
use std::marker::Model;
use topo::Topology;

/// The nodes of a topology by their addresses, which contracts see as a map from addresses to numbers of nodes.
#[derive(Drop)]
pub struct AddressBook {
    nodes: BTreeMap<u32, u32>,
}

impl Model for AddressBook {
    ghost use Rattle.std.specs.Prelude.{ℕ};
    ghost use Rattle.std.specs.Ordering.{nat_cmp};
    ghost use Rattle.std.specs.FinMap as map;
    ghost use Rattle.std.specs.Coded.{coded_ℕ};

    ghost Value = { map.FinMap nat_cmp ℕ };

    ghost coded = { map.code coded_ℕ coded_ℕ };

    ghost view = { λ book. map.from_entries book.nodes.entries };
}

impl AddressBook {
    /// The book of the topology's nodes.
    pub fn new(alloc: Global, topology: &Topology) -> Result<AddressBook, NoMemory>
        ensures { IfOk result
            (λ book. (address : ℕ) → map.get book address ≡ node_with_address topology.now.nodes address) }
    {
        let mut nodes = BTreeMap::new(alloc);
        for (n, node) in topology.nodes().iter().enumerate() {
            if let Some(address) = node.address {
                nodes.insert(address, n as u32)?;
            }
        }
        Ok(AddressBook { nodes })
    }

    /// The number of the node with this address, or None where no node has it.
    pub fn find(&self, address: u32) -> Option<u32>
        ensures { result ≡ map.get self.now address }
    {
        self.nodes.get(&address).copied()
    }
}
