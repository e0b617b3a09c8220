//! SRP domains: the Domain values that a node's link ports declare, and where a port is at the
//! boundary of one.

ghost use Rattle.std.specs.Prelude.{◌≡◌, OnOk};
ghost use Rattle.msrp.specs.Domain.{are_counted, class_id, class_in, class_priority, domain_content, domain_key, domain_part, domain_stated, has_class, is_boundary, is_boundary_of, is_edge, is_value};
ghost use Rattle.msrp.specs.Part.{key_cmp, same_content};
ghost use Rattle.mrp_participant.specs.State.{declared_state};

use crate::app::MsrpApp;
use crate::stream::talker_in;
use mrp_participant::Participant;
use msrp_codec::{MsrpContent, MsrpKey};
use msrp_talker::class_of;
use srp_base::{Class, NoMemory, TalkerReg};

/// Which Domain values a node declares at each of its link ports, from the start and for good (IEEE
/// Std 802.1Q-2018, 35.2.2.9): class A is SRclassID 6 with priority 3, class B is SRclassID 5 with
/// priority 2, each with VID 2.
///
/// A port is at the boundary of a class's SRP domain where its node doesn't declare the class's
/// Domain value, or that very value isn't registered at the port. The standard's boundary is one of
/// priorities (35.1.4); that a Domain with another VID is no agreement either is this project's own
/// rule.
#[derive(Clone, Copy, PartialEq, Eq)]
pub enum DomainSet {
    /// Domains are off: none is declared, those of neighbours are nothing to the node, and no port
    /// is a boundary.
    Off,
    /// No Domain value: each link port is at the boundary of both classes.
    Nothing,
    /// The Domain value of class A.
    OnlyA,
    /// The Domain values of both classes.
    Both,
}

impl DomainSet {
    // Whether the node heeds Domains: whether it isn't `Off`.
    pub(crate) fn are_counted(self) -> bool
        ensures { result ≡ are_counted self }
    {
        match self {
            DomainSet::Off => false,
            DomainSet::Nothing => true,
            DomainSet::OnlyA => true,
            DomainSet::Both => true,
        }
    }

    // Whether the node declares the Domain value of a class.
    pub(crate) fn has_class(self, class: Class) -> bool
        ensures { result ≡ has_class self class }
    {
        match self {
            DomainSet::Off => false,
            DomainSet::Nothing => false,
            DomainSet::OnlyA => match class {
                Class::A => true,
                Class::B => false,
            },
            DomainSet::Both => true,
        }
    }
}

// The SRclassID of a class.
fn class_id(class: Class) -> u8
    ensures { result ≡ class_id class }
{
    match class {
        Class::A => 6,
        Class::B => 5,
    }
}

// The SRclassPriority of a class.
fn class_priority(class: Class) -> u8
    ensures { result ≡ class_priority class }
{
    match class {
        Class::A => 3,
        Class::B => 2,
    }
}

// The key of a class's Domain.
fn domain_key(class: Class) -> MsrpKey
    ensures { result ≡ domain_key class }
{
    MsrpKey::Domain(class_id(class))
}

// The Domain value of a class, as it is declared.
fn domain_content(class: Class) -> MsrpContent
    ensures { result ≡ domain_content class }
{
    MsrpContent::Domain {
        priority: class_priority(class),
        vid: 2,
    }
}

// Whether a content is the very Domain value of a class.
fn is_value(class: Class, content: Option<MsrpContent>) -> bool
    ensures { result ≡ is_value class content }
{
    content == Some(domain_content(class))
}

// Declares the Domain value of a class.
fn declare_domain(part: &mut Participant<MsrpApp>, class: Class) -> Result<(), NoMemory>
    ensures { OnOk result (part.new.state
        ≡ declared_state key_cmp same_content (domain_key class)
        (domain_content class) part.old.state) }
{
    part.declare(domain_key(class), domain_content(class))
}

// Declares the Domain values of a node.
pub(crate) fn declare_domains(
    part: &mut Participant<MsrpApp>,
    domain: DomainSet,
) -> Result<(), NoMemory>
    ensures { OnOk result (part.new.state ≡ domain_part domain part.old.state) }
{
    match domain {
        DomainSet::Off => Ok(()),
        DomainSet::Nothing => Ok(()),
        DomainSet::OnlyA => declare_domain(part, Class::A),
        DomainSet::Both => {
            declare_domain(part, Class::A)?;
            declare_domain(part, Class::B)
        }
    }
}

// What a port declares of a Domain, for good.
pub(crate) fn domain_stated(domain: DomainSet, id: u8) -> Option<MsrpContent>
    ensures { result ≡ domain_stated domain id }
{
    if domain.has_class(Class::A) && id == 6 {
        return Some(domain_content(Class::A));
    }
    if domain.has_class(Class::B) && id == 5 {
        return Some(domain_content(Class::B));
    }
    None
}

// Whether a port, with its participant, is at the boundary of the domain of a class.
fn is_boundary(domain: DomainSet, part: &Participant<MsrpApp>, class: Class) -> bool
    ensures { result ≡ is_boundary domain part.now.state class }
{
    if !domain.are_counted() {
        return false;
    }
    if !domain.has_class(class) {
        return true;
    }
    !is_value(class, part.registered(domain_key(class)))
}

// Whether there is a class, and the port is at the boundary of its domain.
fn is_boundary_of(domain: DomainSet, part: &Participant<MsrpApp>, class: Option<Class>) -> bool
    ensures { result ≡ is_boundary_of domain part.now.state class }
{
    match class {
        Some(class) => is_boundary(domain, part, class),
        None => false,
    }
}

// The class of a registered Talker.
fn class_in(reg: TalkerReg) -> Option<Class>
    ensures { result ≡ class_in reg }
{
    match talker_in(reg) {
        Some(talker) => class_of(talker.priority.get()),
        None => None,
    }
}

// Whether a port, with its participant, is at the boundary of the domain of a registered Talker's
// class.
pub(crate) fn is_edge(domain: DomainSet, part: &Participant<MsrpApp>, reg: TalkerReg) -> bool
    ensures { result ≡ is_edge domain part.now.state reg }
{
    domain.are_counted() && is_boundary_of(domain, part, class_in(reg))
}
