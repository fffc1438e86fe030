ghost use Rattle.std.specs.Prelude.{◌≡◌, ◌*◌, ◌≤◌, ◌<◌, ◌++◌, IfOk, OnOk, string_bytes};
ghost use Rattle.mn_base.specs.Draws.{state_at};
ghost use Rattle.workload.specs.declared.shape.TheConstants.{ROUTERS, HOSTS, CHORDS, GML_DRAWS};
ghost use Rattle.workload.specs.Gml.{router_line, host_line, trunk_line, access_line, router_lines, host_lines, ring_lines, chord_lines, access_lines, workload_gml};

use crate::shape::{BANDWIDTH_STEP, CHORDS, HOSTS, ROUTERS};
use mn_base::{Draws, NoMemory};
use std::alloc::Global;

/// The GML text of the stream's state.
pub fn gml_text(alloc: Global, draws: &mut Draws) -> Result<String, NoMemory>
    ensures text { IfOk result (λ text. string_bytes text ≡ workload_gml draws.old) }
    ensures state { OnOk result (draws.new ≡ state_at draws.old GML_DRAWS) }
{
    let mut text = String::new(alloc);
    writeln!(text, "graph [")?;
    write_routers(&mut text, ROUTERS)?;
    write_hosts(&mut text, HOSTS)?;
    write_ring(&mut text, draws, ROUTERS)?;
    write_chords(&mut text, draws, CHORDS)?;
    write_access(&mut text, draws, HOSTS)?;
    writeln!(text, "]")?;
    Ok(text)
}

fn write_routers(text: &mut String, routers: u32) -> Result<(), NoMemory>
    ensures { OnOk result (string_bytes text.new ≡ string_bytes text.old ++ router_lines routers) }
{
    for router in 0..routers {
        write_router(text, router)?;
    }
    Ok(())
}

fn write_hosts(text: &mut String, hosts: u32) -> Result<(), NoMemory>
    requires { hosts ≤ HOSTS }
    ensures { OnOk result (string_bytes text.new ≡ string_bytes text.old ++ host_lines hosts) }
{
    for host in 0..hosts {
        write_host(text, host)?;
    }
    Ok(())
}

fn write_ring(text: &mut String, draws: &mut Draws, routers: u32) -> Result<(), NoMemory>
    requires { routers ≤ ROUTERS }
    ensures text { OnOk result (string_bytes text.new ≡ string_bytes text.old ++ ring_lines draws.old routers) }
    ensures state { OnOk result (draws.new ≡ state_at draws.old (3 * routers)) }
{
    for router in 0..routers {
        write_trunk(text, draws, router, (router + 1) % ROUTERS)?;
    }
    Ok(())
}

fn write_chords(text: &mut String, draws: &mut Draws, routers: u32) -> Result<(), NoMemory>
    requires { routers ≤ CHORDS }
    ensures text { OnOk result (string_bytes text.new ≡ string_bytes text.old ++ chord_lines draws.old routers) }
    ensures state { OnOk result (draws.new ≡ state_at draws.old (3 * routers)) }
{
    for router in 0..routers {
        write_trunk(text, draws, router, router + CHORDS)?;
    }
    Ok(())
}

fn write_access(text: &mut String, draws: &mut Draws, hosts: u32) -> Result<(), NoMemory>
    requires { hosts ≤ HOSTS }
    ensures text { OnOk result (string_bytes text.new ≡ string_bytes text.old ++ access_lines draws.old hosts) }
    ensures state { OnOk result (draws.new ≡ state_at draws.old hosts) }
{
    for host in 0..hosts {
        write_host_edge(text, draws, host)?;
    }
    Ok(())
}

fn write_router(text: &mut String, router: u32) -> Result<(), NoMemory>
    ensures { OnOk result (string_bytes text.new ≡ string_bytes text.old ++ router_line router) }
{
    writeln!(text, "  node [ id {router} ]")?;
    Ok(())
}

fn write_host(text: &mut String, host: u32) -> Result<(), NoMemory>
    requires { host < HOSTS }
    ensures { OnOk result (string_bytes text.new ≡ string_bytes text.old ++ host_line host) }
{
    let id = ROUTERS + host;
    let last = host + 1;
    writeln!(text, "  node [ id {id} address \"10.0.0.{last}\" ]")?;
    Ok(())
}

/// An edge between two routers.
fn write_trunk(
    text: &mut String,
    draws: &mut Draws,
    source: u32,
    target: u32,
) -> Result<(), NoMemory>
    ensures text { OnOk result (string_bytes text.new ≡ string_bytes text.old ++ trunk_line draws.old source target) }
    ensures state { OnOk result (draws.new ≡ state_at draws.old 3) }
{
    let bandwidth = BANDWIDTH_STEP * (1 + draws.draw(10));
    let latency = 1_000 + draws.draw(20_000);
    let loss = draws.draw(1_000);
    write!(text, "  edge [ source {source} target {target}")?;
    writeln!(
        text,
        " bandwidth {bandwidth} latency {latency} loss {loss} ]"
    )?;
    Ok(())
}

/// The edge between a host and its router.
fn write_host_edge(text: &mut String, draws: &mut Draws, host: u32) -> Result<(), NoMemory>
    requires { host < HOSTS }
    ensures text { OnOk result (string_bytes text.new ≡ string_bytes text.old ++ access_line draws.old host) }
    ensures state { OnOk result (draws.new ≡ state_at draws.old 1) }
{
    let source = ROUTERS + host;
    let target = host % ROUTERS;
    let bandwidth = BANDWIDTH_STEP;
    let latency = 500 + draws.draw(1_000);
    write!(text, "  edge [ source {source} target {target}")?;
    writeln!(text, " bandwidth {bandwidth} latency {latency} ]")?;
    Ok(())
}
