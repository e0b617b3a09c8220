//! A port as a Talker's declaration goes out of it.

ghost use Rattle.std.specs.Prelude.{◌≡◌};
ghost use Rattle.msrp_talker.specs.TalkerOut.{boundary_code, fit_code, declared_of, delayed_by, refusal_of, talker_out as talker_out_spec};

use crate::class::check;
use srp_base::{BridgeId, Failure, Talker, TalkerReg};
use stream_importance::Fit;

/// What of a port goes into the declarations of Talkers there.
#[derive(Clone, Copy, PartialEq, Eq)]
pub struct PortConfig {
    /// The port's bridge, which a failure found here names.
    pub bridge: BridgeId,
    /// The latency in ns that the port adds to a Talker's.
    pub latency: u32,
}

/// What a port declares of a Talker that is registered so at another port (IEEE Std 802.1Q-2018,
/// 35.2.4.3). `boundary` is whether this port is at the boundary of the SRP domain of the Talker's
/// class (35.1.4), and `fit` whether the stream's want fits at this port. Absent stays so, and
/// Failed keeps its Failure. Advertise becomes Failed with this bridge and the first code that
/// there is: `check`'s code, 8 where `boundary` holds, and the fit's code where that is
/// `TooLittle`; else it stays Advertise. Each Talker has the port's latency added, up to the
/// greatest u32.
pub fn talker_out(reg: TalkerReg, config: &PortConfig, boundary: bool, fit: Fit) -> TalkerReg
    ensures { result ≡ talker_out_spec reg config.now boundary fit }
{
    match reg {
        TalkerReg::Absent => TalkerReg::Absent,
        TalkerReg::Failed(talker, failure) => {
            TalkerReg::Failed(delayed_by(config.latency, talker), failure)
        }
        TalkerReg::Advertise(talker) => {
            let code = refusal(&talker, boundary, fit);
            declared(config, delayed_by(config.latency, talker), code)
        }
    }
}

/// The Talker with this much latency added, in ns, up to the greatest u32.
fn delayed_by(latency: u32, talker: Talker) -> Talker
    ensures { result ≡ delayed_by latency talker }
{
    Talker {
        latency: talker.latency.saturating_add(latency),
        ..talker
    }
}

/// The failure code for which the port refuses an advertised Talker; None where it doesn't.
fn refusal(talker: &Talker, boundary: bool, fit: Fit) -> Option<u8>
    ensures { result ≡ refusal_of talker.now boundary fit }
{
    check(talker).or(code_at(boundary)).or(code_of(fit))
}

fn code_at(boundary: bool) -> Option<u8>
    ensures { result ≡ boundary_code boundary }
{
    if boundary { Some(8) } else { None }
}

fn code_of(fit: Fit) -> Option<u8>
    ensures { result ≡ fit_code fit }
{
    match fit {
        Fit::Fits => None,
        Fit::TooLittle { code, .. } => Some(code),
    }
}

/// The Talker advertised, or failed at this port's bridge.
fn declared(config: &PortConfig, talker: Talker, code: Option<u8>) -> TalkerReg
    ensures { result ≡ declared_of config.now talker code }
{
    match code {
        None => TalkerReg::Advertise(talker),
        Some(code) => {
            let failure = Failure {
                bridge: config.bridge,
                code,
            };
            TalkerReg::Failed(talker, failure)
        }
    }
}
