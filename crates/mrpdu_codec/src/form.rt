//! The applications of MRP, and which attribute types each of them has.

ghost use Rattle.std.specs.Prelude.{◌≡◌, false};

/// The application whose MRPDUs are read or written: VLAN registration (IEEE Std 802.1Q-2018,
/// clause 11), stream reservation (clause 35) or multiple MAC registration (10.12).
#[derive(Clone, Copy, PartialEq, Eq)]
pub enum AppForm {
    Mvrp,
    Msrp,
    Mmrp,
}

/// What the octets of an attribute type look like.
#[derive(Clone, Copy, PartialEq, Eq)]
pub struct TypeForm {
    /// The octets of a FirstValue (AttributeLength).
    pub length: u8,
    /// Whether a vector has FourPackedEvents behind its ThreePackedEvents.
    pub four_packed: bool,
}

impl AppForm {
    ghost use Rattle.mrpdu_codec.specs.Types.{row_of};

    /// The form of an attribute type; None exactly where the application has no type of this number
    /// (IEEE Std 802.1Q-2018, 10.12.1, 11.2.3.1, 35.2.2.4 and 35.2.2.5).
    pub fn known(self, kind: u8) -> Option<TypeForm>
        ensures { result ≡ row_of self kind }
    {
        match self {
            AppForm::Mvrp => mvrp_form(kind),
            AppForm::Msrp => msrp_form(kind),
            AppForm::Mmrp => mmrp_form(kind),
        }
    }
}

ghost use Rattle.mrpdu_codec.specs.Types.{mvrp_row, msrp_row, mmrp_row};

/// A type with no FourPackedEvents.
const fn plain(length: u8) -> TypeForm
    ensures { result ≡ record { length = length; four_packed = false } }
{
    TypeForm {
        length,
        four_packed: false,
    }
}

fn mvrp_form(kind: u8) -> Option<TypeForm>
    ensures { result ≡ mvrp_row kind }
{
    match kind {
        1 => Some(plain(2)),
        _ => None,
    }
}

fn msrp_form(kind: u8) -> Option<TypeForm>
    ensures { result ≡ msrp_row kind }
{
    match kind {
        1 => Some(plain(25)),
        2 => Some(plain(34)),
        3 => Some(TypeForm {
            length: 8,
            four_packed: true,
        }),
        4 => Some(plain(4)),
        _ => None,
    }
}

fn mmrp_form(kind: u8) -> Option<TypeForm>
    ensures { result ≡ mmrp_row kind }
{
    match kind {
        1 => Some(plain(1)),
        2 => Some(plain(6)),
        _ => None,
    }
}
