ghost use Rattle.std.specs.Prelude.{length};
ghost use Rattle.gml_reader.specs.Values as tree;
ghost use Rattle.gml_reader.specs.Walk.{IsValueOf};
ghost use Rattle.gml_reader.specs.ReadItems.{IsNode, IsEdge};

use crate::faults::{GmlFault, Item};
use crate::keys::{address, optional, required};
use crate::walk::ValueTokens;
use topo::{EdgeSpec, Key, Node};

/// The queue limit of an edge that tells none, in packets.
const QUEUE_DEFAULT: u64 = 50;

/// The loss of an edge that tells none, in ppm.
const LOSS_DEFAULT: u64 = 0;

/// A node by its id and address.
#[tactic(auto, unfolding(crate::specs::Reading::node_item_fault, crate::specs::Reading::node_in))]
pub(crate) fn node(text: &[u8], number: u32, value: ValueTokens) -> Result<Node, GmlFault>
    ensures { (v : tree.ValueTree) → IsValueOf (length text.now) v value.entry
        → IsNode text.now number v result }
{
    let item = Item::Node(number);
    let ValueTokens::Inner(tokens) = value else {
        return Err(GmlFault::Kind {
            item,
            key: Key::Node,
        });
    };
    let id = required(text, tokens, item, Key::Id)?;
    let address = address(text, tokens, number)?;
    Ok(Node { id, address })
}

/// An edge by its ends and values.
#[tactic(auto, unfolding(crate::specs::Reading::edge_item_fault, crate::specs::Reading::edge_in))]
pub(crate) fn edge(text: &[u8], number: u32, value: ValueTokens) -> Result<EdgeSpec, GmlFault>
    ensures { (v : tree.ValueTree) → IsValueOf (length text.now) v value.entry
        → IsEdge text.now number v result }
{
    let item = Item::Edge(number);
    let ValueTokens::Inner(tokens) = value else {
        return Err(GmlFault::Kind {
            item,
            key: Key::Edge,
        });
    };
    let source = required(text, tokens, item, Key::Source)?;
    let target = required(text, tokens, item, Key::Target)?;
    let bps = required(text, tokens, item, Key::Bandwidth)?;
    let latency_us = required(text, tokens, item, Key::Latency)?;
    let queue = optional(text, tokens, item, Key::Queue, QUEUE_DEFAULT)?;
    let ppm = optional(text, tokens, item, Key::Loss, LOSS_DEFAULT)?;
    Ok(EdgeSpec {
        source,
        target,
        bps,
        latency_us,
        queue,
        ppm,
    })
}
