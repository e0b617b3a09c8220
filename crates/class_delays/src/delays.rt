//! The numbers of a class over a tree, port by port.

ghost use Rattle.std.specs.Prelude.{◌≡◌, length, map, All, IfOk, IfErr};
ghost use Rattle.tree_topology.specs.Topology.{HasNode};
ghost use Rattle.frame_flow.specs.Copies.{all_places};
ghost use Rattle.frame_flow.specs.Given.{IsSetting};
ghost use Rattle.delay_flow.specs.Rules.{KeepRules};
ghost use Rattle.class_delays.specs.declared.delays.Unbounded.TheVariants as causes;
ghost use Rattle.class_delays.specs.Causes.{IsUnbounded, HasBounds};
ghost use Rattle.class_delays.specs.Given.{class_traffic, without_frames};
ghost use Rattle.class_delays.specs.Table.{numbers_of, place_of, ListsFed};

use crate::laws::a_class_with_bounds_has_no_cause;
use crate::setting::DelaySetting;
use delay_bound::ClassStream;
use srp_base::{Class, EgressPort, NoMemory, Rate, Seq, Timeline};
use std::alloc::{AllocError, AllocFailed, Global};
use tree_topology::Tree;

/// A stream that is fed at a port, with its numbers there.
#[derive(Clone, Copy, PartialEq, Eq)]
pub struct FedStream {
    /// The stream.
    pub stream: ClassStream,
    /// By how many ps two of its frames may have moved towards each other up to there.
    pub late: u128,
    /// The most bit times that a frame of it waits there.
    pub wait: u128,
    /// The most ps that a frame of it takes from its moment to the bit time after its last bit
    /// there.
    pub spent: u128,
}

/// What is reckoned for a port.
#[derive(Clone, PartialEq, Eq, Drop)]
pub struct PortDelays {
    /// The port.
    pub at: EgressPort,
    /// Its rate.
    pub rate: Rate,
    /// The peak of what comes there, in bits × 10^12; 0 where no stream is fed.
    pub peak: u128,
    /// The streams that are fed there, in the order of the class's streams.
    pub fed: Seq<FedStream>,
}

/// Why a class has no numbers.
#[derive(Clone, Copy, PartialEq, Eq)]
pub enum Unbounded {
    /// At this port the slope of the class is none, or less than those of its streams together.
    Steep(EgressPort),
    /// At this port a number is larger than its type holds, by those of the ports that send into its
    /// node: a stream's lateness or its time up to there, or the bases of what comes together.
    Large(EgressPort),
    /// Memory ran out.
    NoMemory,
}

impl From<NoMemory> for Unbounded {
    ghost from_gives = { λ _ e. e ≡ causes.NoMemory };

    fn from(_error: NoMemory) -> Unbounded {
        Unbounded::NoMemory
    }
}

impl From<AllocError> for Unbounded {
    ghost from_gives = { λ _ e. e ≡ causes.NoMemory };

    fn from(_error: AllocError) -> Unbounded {
        Unbounded::NoMemory
    }
}

impl<T: Drop> From<AllocFailed<T>> for Unbounded {
    ghost from_gives = { λ _ e. e ≡ causes.NoMemory };

    fn from(_error: AllocFailed<T>) -> Unbounded {
        Unbounded::NoMemory
    }
}

/// The numbers of a class over a tree, by what is in force at its ports at the end of so many ticks
/// of 10 ms: for each port, link by link, the streams that are fed there, and how long their frames
/// wait there and take up to there at most.
///
/// The answer is numbers where the class has bounds: where at each port its slope is above 0 and at
/// least those of the streams that are fed there, and no number is larger than its type holds.
///
/// There is one rate for each link. The timeline's changes ascend by port and tick, and at each port
/// both slopes together are below the rate. There are 1 to 12,000 ticks. The streams' Talkers are
/// nodes of the tree.
pub fn class_delays(
    alloc: Global,
    tree: &Tree,
    rates: &[Rate],
    timeline: &Timeline,
    ticks: u64,
    class: Class,
    streams: &[ClassStream],
) -> Result<Seq<PortDelays>, Unbounded>
    requires setting { IsSetting (without_frames tree.now rates.now timeline.now.changes ticks) }
    requires talkers { All (λ x. HasNode tree.now x.talker.0) streams.now }
    ensures ports { IfOk result
        (λ ports. map place_of ports ≡ all_places tree.now.links rates.now) }
    ensures fed { IfOk result (λ ports. All (ListsFed (record {
      setting = without_frames tree.now rates.now timeline.now.changes ticks;
      class = class;
      streams = streams.now;
    })) ports) }
    ensures rules { IfOk result (λ ports. KeepRules
        (without_frames tree.now rates.now timeline.now.changes ticks) (class_traffic class)
        streams.now
        (numbers_of (record {
          setting = without_frames tree.now rates.now timeline.now.changes ticks;
          class = class;
          streams = streams.now;
        }) ports)) }
    ensures err { IfErr result (λ e. IsUnbounded (record {
      setting = without_frames tree.now rates.now timeline.now.changes ticks;
      class = class;
      streams = streams.now;
    }) e) }
    ensures bounds { IfErr result (λ e. HasBounds (record {
      setting = without_frames tree.now rates.now timeline.now.changes ticks;
      class = class;
      streams = streams.now;
    }) → e ≡ causes.NoMemory) }
{
    tree.keeps();
    a_class_with_bounds_has_no_cause();
    let setting = DelaySetting {
        tree,
        rates,
        changes: timeline.changes.as_slice(),
        ticks,
        class,
        streams,
    };
    let ports = setting.port_by_port(alloc)?;
    Ok(Seq::from_vec(ports))
}
