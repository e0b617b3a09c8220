//! The four attribute types of MSRP.

ghost use Rattle.std.specs.Prelude.{◌≡◌};
ghost use Rattle.msrp_codec.specs.AttributeType.{number_of_type, type_of};

/// An AttributeType of MSRP (IEEE Std 802.1Q-2018, 35.2.2.4), numbered from 1 as they stand here.
#[derive(Clone, Copy, PartialEq, Eq, PartialOrd, Ord)]
pub enum AttributeType {
    /// Talker Advertise.
    Advertise,
    /// Talker Failed.
    Failed,
    /// Listener.
    Listener,
    /// Domain.
    Domain,
}

impl AttributeType {
    /// The number that stands in a Message.
    pub fn number(self) -> u8
        ensures { result ≡ number_of_type self }
    {
        match self {
            AttributeType::Advertise => 1,
            AttributeType::Failed => 2,
            AttributeType::Listener => 3,
            AttributeType::Domain => 4,
        }
    }

    /// The type of this number; None exactly where MSRP has none.
    pub fn of(number: u8) -> Option<AttributeType>
        ensures { result ≡ type_of number }
    {
        match number {
            1 => Some(AttributeType::Advertise),
            2 => Some(AttributeType::Failed),
            3 => Some(AttributeType::Listener),
            4 => Some(AttributeType::Domain),
            _ => None,
        }
    }
}
