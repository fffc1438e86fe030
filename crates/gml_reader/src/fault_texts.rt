//! The text of a fault, as the program says it on its line.
ghost use Rattle.std.specs.Prelude.{◌≡◌, Some};
ghost use Rattle.gml_reader.specs.FaultTexts.{many_text};

use crate::faults::{GmlFault, Item};
use std::error::Error;
use std::fmt;
use topo::{Many, TopoFault};

impl fmt::Display for Item {
    ghost use Rattle.gml_reader.specs.FaultTexts.{item_text};

    ghost output = { λ item. Some (item_text item) };

    fn fmt<W: fmt::Write>(&self, f: &mut fmt::Formatter<W>) -> fmt::Result {
        match *self {
            Item::Graph => f.write_str("graph"),
            Item::Node(node) => write!(f, "node {node}"),
            Item::Edge(edge) => write!(f, "edge {edge}"),
        }
    }
}

impl Error for GmlFault {}

impl fmt::Display for GmlFault {
    ghost use Rattle.gml_reader.specs.FaultTexts.{gml_fault_text};

    ghost output = { λ fault. Some (gml_fault_text fault) };

    #[tactic(auto, unfolding(crate::specs::FaultTexts::gml_fault_text))]
    fn fmt<W: fmt::Write>(&self, f: &mut fmt::Formatter<W>) -> fmt::Result {
        match *self {
            GmlFault::Lex { place } => write!(f, "bad byte at {place}"),
            GmlFault::Grammar { place } => write!(f, "grammar at {place}"),
            GmlFault::TooDeep { place } => write!(f, "too deep at {place}"),
            GmlFault::NoGraph => f.write_str("no graph"),
            GmlFault::Missing { item, key } => {
                let key = key.name();
                write!(f, "missing {key} in {item}")
            }
            GmlFault::Kind { item, key } => {
                let key = key.name();
                write!(f, "bad {key} in {item}")
            }
            GmlFault::BadAddress { node } => write!(f, "bad address in node {node}"),
            GmlFault::Topo(fault) => {
                let fault = TopoText(fault);
                write!(f, "{fault}")
            }
        }
    }
}

/// The fault of a topology, to be reported.
#[derive(Drop)]
struct TopoText(TopoFault);

impl fmt::Display for TopoText {
    ghost use Rattle.gml_reader.specs.FaultTexts.{topo_fault_text};

    ghost output = { λ text. Some (topo_fault_text text.0) };

    #[tactic(auto, unfolding(crate::specs::FaultTexts::topo_fault_text))]
    fn fmt<W: fmt::Write>(&self, f: &mut fmt::Formatter<W>) -> fmt::Result {
        match self.0 {
            TopoFault::TooMany(many) => {
                let many = many_text(many);
                write!(f, "too many {many}")
            }
            TopoFault::DuplicateId(node) => write!(f, "id of node {node} is taken"),
            TopoFault::DuplicateAddress(node) => write!(f, "address of node {node} is taken"),
            TopoFault::UnknownNode(edge) => write!(f, "unknown node in edge {edge}"),
            TopoFault::Range(edge, key) => {
                let key = key.name();
                write!(f, "{key} of edge {edge} out of range")
            }
        }
    }
}

fn many_text(many: Many) -> &'static str
    ensures { result.now ≡ many_text many }
{
    match many {
        Many::Nodes => "nodes",
        Many::EdgeNodes => "edge nodes",
        Many::Links => "links",
    }
}
