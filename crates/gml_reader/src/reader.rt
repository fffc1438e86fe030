ghost use Rattle.std.specs.Prelude.{◌<◌, ◌≤◌, length, All, IfOk, IfErr};
ghost use Rattle.gml_lex.specs.Tokens.{AreTokens};
ghost use Rattle.mn_base.specs.declared.limits.TheConstants.{TOPOLOGY_BYTES_MAX};
ghost use Rattle.gml_reader.specs.Places.{IsMisplaced};
ghost use Rattle.mn_base.specs.Refused.{IfFault, Gives, Refuses};
ghost use Rattle.topo.specs.TopologyView.{TopologyView};
ghost use Rattle.gml_reader.specs.Texts.{Reads, IsFirstFault};

use crate::faults::GmlFault;
use crate::grammar::{Misplaced, check};
use crate::graph::{graph_in, read_graph};
use gml_lex::{Token, tokens};
use mn_base::Refusal;
use std::alloc::Global;
use topo::Topology;

/// The topology that a GML text reads to, or its first fault.
///
/// `graph [ ]` reads to the topology of no node; the empty text has `NoGraph`, `graph [ ? ]` has `Lex` at 8, and
/// `graph [ node [ id 0 ]` has `Grammar` at 21. GML is that of Himsolt's report, within this project's profile.
pub fn read_gml(alloc: Global, text: &[u8]) -> Result<Topology, Refusal<GmlFault>>
    requires { length text.now ≤ TOPOLOGY_BYTES_MAX }
    ensures read { IfOk result (Reads text.now) }
    ensures fault { IfErr result (λ e. IfFault e (IsFirstFault text.now)) }
    ensures only_topology { (topology : TopologyView) → Reads text.now topology → Gives topology result }
    ensures only_fault { (fault : GmlFault) → IsFirstFault text.now fault → Refuses fault result }
{
    let tokens = match tokens(alloc, text) {
        Ok(tokens) => tokens,
        Err(refusal) => {
            return Err(refusal.map_fault(|fault| GmlFault::Lex { place: fault.place }));
        }
    };
    read_tokens(alloc, text, &tokens)
}

/// The topology of a text with these tokens, or its first fault.
fn read_tokens(alloc: Global, text: &[u8], tokens: &[Token]) -> Result<Topology, Refusal<GmlFault>>
    requires few { length text.now ≤ TOPOLOGY_BYTES_MAX }
    requires are { AreTokens text.now tokens.now }
    requires count { length tokens.now ≤ length text.now }
    requires spans { All (λ t. (t.start < t.end) × (t.end ≤ length text.now)) tokens.now }
    ensures read { IfOk result (Reads text.now) }
    ensures fault { IfErr result (λ e. IfFault e (IsFirstFault text.now)) }
{
    if let Err(misplaced) = check(tokens) {
        return Err(Refusal::Fault(placed(misplaced, tokens, text)));
    }
    let Some(graph) = graph_in(text, tokens) else {
        return Err(Refusal::Fault(GmlFault::NoGraph));
    };
    read_graph(alloc, text, graph)
}

/// The fault with its place in the text.
fn placed(misplaced: Misplaced, tokens: &[Token], text: &[u8]) -> GmlFault
    requires few { length text.now ≤ TOPOLOGY_BYTES_MAX }
    requires are { AreTokens text.now tokens.now }
    requires misplaced { IsMisplaced tokens.now misplaced }
    ensures { IsFirstFault text.now result }
{
    match misplaced {
        Misplaced::Bad(at) => GmlFault::Grammar {
            place: tokens[at].start,
        },
        Misplaced::Deep(at) => GmlFault::TooDeep {
            place: tokens[at].start,
        },
        Misplaced::Cut => GmlFault::Grammar {
            place: text.len() as u32,
        },
    }
}
