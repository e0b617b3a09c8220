//! How a node names the attributes that are registered in an application.

ghost use Rattle.std.specs.Prelude.{◌≡◌, ◌++◌, slice_get, option_and_then, option_to_list, OnOk};
ghost use Rattle.node_core.specs.declared.types.NodeKey.{NodeKey};
ghost use Rattle.node_core.specs.declared.types.NodeKey.TheVariants.{Vlan, Srp};
ghost use Rattle.node_core.specs.State.{registered_key, registered_in};

use crate::types::NodeKey;
use mrp_participant::{MrpApp, Participant};
use msrp::MsrpApp;
use msrp_codec::MsrpKey;
use mvrp::MvrpApp;
use srp_base::{NoMemory, Vid};

// An application of MRP whose attributes a node names.
pub(crate) trait NodeApp: MrpApp {
    ghost name: { Self.Key → NodeKey };

    // The attribute of a key.
    fn name(key: Self::Key) -> NodeKey
        ensures { result ≡ name key };
}

impl NodeApp for MvrpApp {
    ghost name = { Vlan };

    fn name(vid: Vid) -> NodeKey {
        NodeKey::Vlan(vid)
    }
}

impl NodeApp for MsrpApp {
    ghost name = { Srp };

    fn name(key: MsrpKey) -> NodeKey {
        NodeKey::Srp(key)
    }
}

// The attributes that a participant has registered go to the end of a list.
pub(crate) fn push_keys<A: NodeApp>(
    keys: &mut Vec<NodeKey>,
    part: &Participant<A>,
) -> Result<(), NoMemory>
    ensures { OnOk result (keys.new.items ≡ keys.old.items ++ registered_in A.name part.now.state) }
{
    for i in 0..part.rows() {
        push_key(keys, part, i)?;
    }
    Ok(())
}

// The attribute of the row at a place goes to the end of a list, where it is registered.
fn push_key<A: NodeApp>(
    keys: &mut Vec<NodeKey>,
    part: &Participant<A>,
    i: usize,
) -> Result<(), NoMemory>
    ensures { OnOk result (keys.new.items
        ≡ keys.old.items
        ++ option_to_list
        (option_and_then (registered_key A.name) (slice_get part.now.state.rows i))) }
{
    if let Some(key) = key_at(part, i) {
        keys.push(key)?;
    }
    Ok(())
}

// The attribute of the row at a place, where it is registered.
fn key_at<A: NodeApp>(part: &Participant<A>, i: usize) -> Option<NodeKey>
    ensures { result ≡ option_and_then (registered_key A.name) (slice_get part.now.state.rows i) }
{
    let key = part.key_at(i)?;
    let registrar = part.registrar_at(i)?;
    if registrar.is_registered() {
        Some(A::name(key))
    } else {
        None
    }
}
