//! The capture of a link.

ghost use Rattle.std.specs.Prelude.{◌≡◌, ◌<◌, length, slice_index_or, IfOk};
ghost use Rattle.tree_topology.specs.{Topology.HasLink, Ports.ends_of};
ghost use Rattle.world_core.specs.Ticks.{AreLegalTicks};
ghost use Rattle.link_capture.specs.Captured.{captured};

use crate::laws::laws_of_ticks;
use crate::ticks::put_tick;
use capture_file::{ByteOrder, LinkType, put_head};
use srp_base::{EgressPort, LinkNo, NoMemory};
use std::alloc::Global;
use topology_file::Scenario;
use world_core::{Run, Tick, World};

/// The ports of a link's ends, the end `a` first.
fn ends_at(scenario: &Scenario, link: LinkNo) -> (EgressPort, EgressPort)
    requires { HasLink scenario.now.tree link.0 }
    ensures { result ≡ ends_of scenario.now.tree.links link.0 }
{
    scenario.tree.ends(link)
}

/// The tick of a number.
fn tick_at(ticks: &[Tick], t: u64) -> &Tick
    requires { t < length ticks.now }
    ensures { result.now ≡ slice_index_or ticks.now t result.now }
{
    &ticks[t as usize]
}

/// The capture of a link in a run of its scenario: all PDUs that its ends sent, of both
/// applications, as a pcap file (draft-ietf-opsawg-pcap) with moments in ns, the high octet of each
/// number first, and frames of Ethernet. The moment of a PDU is the tick at whose end it is
/// carried, 10,000,000 ns a tick; in a tick those of end `a` stand first. A PDU that is lost on its
/// way is there, and what comes in a second time or is forged isn't: no end sent it.
///
/// The scenario has a link of that number, from 1 in the order of its file. The ticks of the run are
/// legal ones of the scenario, from its start to the run's network (`AreLegalTicks`), as those of
/// every run are that `srp_schedule` or `port_worker` makes of it.
///
/// What is read of the file is the law `what_is_captured_is_read`.
///
/// # Errors
///
/// `NoMemory` where memory runs out.
pub fn link_capture(
    alloc: Global,
    scenario: &Scenario,
    run: &Run,
    link: LinkNo,
) -> Result<Vec<u8>, NoMemory>
    requires link { HasLink scenario.now.tree link.0 }
    requires legal { AreLegalTicks scenario.now run.now.journal.ticks run.now.world }
    ensures exact { IfOk result (λ file. file.items
        ≡ captured scenario.now run.now.journal.ticks link.0) }
{
    laws_of_ticks(scenario);
    let ends = ends_at(scenario, link);
    let ticks = run.journal.ticks.as_slice();
    let mut out = Vec::new(alloc);
    put_head(&mut out, ByteOrder::Big, LinkType::Ethernet)?;
    let mut world = World::of(alloc, scenario)?;
    let mut cursor = 0;
    for t in 0..scenario.ticks {
        let tick = tick_at(ticks, t);
        world = put_tick(&mut out, scenario, t, tick, ends, world, &mut cursor)?;
    }
    Ok(out)
}
