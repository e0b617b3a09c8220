//! The Applicant of MRP (IEEE Std 802.1Q-2018, 10.7.7): what a port has said of one attribute, and
//! what it still has to say.
//!
//! ```text
//!            nothing said         said once           said enough
//! observer   Vo  very anxious
//! declared   Vp  very anxious     Aa  anxious         Qa  quiet
//! new        Vn  very anxious     An  anxious
//! withdrawn  La  leaving: a Lv is still to be said
//! ```
//!
//! `step` is one cell of the table in `specs/Table.antt`: the new state, and what is said. The
//! user's `declare`, `redeclare` and `withdraw` are requests of that table, chosen so that every
//! withdrawal of something declared says a Lv, or rides on a LeaveAll: a plain Lv! in VP would go
//! to VO in silence while an earlier Join may still be in flight, and leave the attribute
//! registered at the neighbour for good. The table is this project's, after the standard's.
//!
//! A new state or event is a variant, a row or a column of `specs/Table.antt`, and its arms of
//! `step`. What follows from the table alone, whoever stands on it, is a law in `laws`.
#![tactic(auto)]

pub mod laws;

ghost use Rattle.std.specs.Prelude.{◌≡◌};
ghost use Rattle.applicant.specs.Table.{table, declare_of, redeclare_of, withdraw_of, is_declared_in};

/// The states (IEEE Std 802.1Q-2018, 10.7.7). The first letter says how far the neighbour can be
/// trusted to know: V very anxious, A anxious, Q quiet, L leaving. The second says what this side
/// is: O observer, which declares nothing; P passive, which declares and hasn't said so; N new,
/// which declares as new; A active, which has said what it declares.
#[derive(Clone, Copy, PartialEq, Eq)]
pub enum Applicant {
    Vo,
    Vp,
    Vn,
    An,
    Aa,
    Qa,
    La,
}

/// What happens to an Applicant: a request of its user, a received event, or a transmission
/// opportunity (IEEE Std 802.1Q-2018, 10.7.7; its names stand beside).
#[derive(Clone, Copy, PartialEq, Eq)]
pub enum AppEvent {
    /// New!
    NewReq,
    /// Join!
    JoinReq,
    /// Lv!
    LvReq,
    /// rJoinIn! or rIn!
    RxIn,
    /// rJoinMt! or rMt!
    RxMt,
    /// rLv!
    RxLv,
    /// rLA!
    RxLeaveAll,
    /// periodic!
    Periodic,
    /// tx!, a transmission opportunity
    Tx,
    /// txLA!, one in a PDU with LeaveAll
    TxLeaveAll,
    /// txLAF!, one in a PDU with LeaveAll that has no room for the attribute
    TxLeaveAllFull,
}

/// What an Applicant says of its attribute in the PDU that is being sent (IEEE Std 802.1Q-2018,
/// 10.7.7).
#[derive(Clone, Copy, PartialEq, Eq)]
pub enum Say {
    Quiet,
    New,
    Join,
    Lv,
}

impl Applicant {
    /// The new state, and what is said: one cell of the table (IEEE Std 802.1Q-2018, 10.7.7).
    /// `held` is whether the port's own Registrar of the attribute is IN.
    pub fn step(self, event: AppEvent, held: bool) -> (Applicant, Say)
        ensures { result ≡ table event held self }
    {
        use AppEvent::*;
        use Applicant::*;
        match (event, self) {
            (NewReq, Vo | Vp | An | Aa | Qa | La) => (Vn, Say::Quiet),
            (JoinReq, Vo) => (Vp, Say::Quiet),
            (JoinReq, La) => (Aa, Say::Quiet),
            (LvReq, Vp) => (Vo, Say::Quiet),
            (LvReq, Vn | An | Aa | Qa) => (La, Say::Quiet),
            (RxIn, Aa) => (Qa, Say::Quiet),
            (RxMt | Periodic, Qa) => (Aa, Say::Quiet),
            (RxLv | RxLeaveAll | TxLeaveAllFull, An) => (Vn, Say::Quiet),
            (RxLv | RxLeaveAll | TxLeaveAllFull, Aa | Qa) => (Vp, Say::Quiet),
            (Tx | TxLeaveAll, Vp) => (Aa, Say::Join),
            (Tx | TxLeaveAll, Vn) => (An, Say::New),
            (Tx, An) if !held => (Aa, Say::New),
            (Tx | TxLeaveAll, An) => (Qa, Say::New),
            (Tx | TxLeaveAll, Aa) => (Qa, Say::Join),
            (TxLeaveAll, Qa) => (Qa, Say::Join),
            (Tx, La) => (Vo, Say::Lv),
            (TxLeaveAll | TxLeaveAllFull, La) => (Vo, Say::Quiet),
            _ => (self, Say::Quiet),
        }
    }

    /// The state after the user declared: Join! in `Vo`, New! in `La`, nothing in the others.
    pub fn declare(self) -> Applicant
        ensures { result ≡ declare_of self }
    {
        match self {
            Applicant::Vo => self.step(AppEvent::JoinReq, false).0,
            Applicant::La => self.step(AppEvent::NewReq, false).0,
            _ => self,
        }
    }

    /// The state after the user declared another content: New!.
    pub fn redeclare(self) -> Applicant
        ensures { result ≡ redeclare_of self }
    {
        self.step(AppEvent::NewReq, false).0
    }

    /// The state after the user withdrew: New! and then Lv! in `Vp`, nothing in `Vo` and `La`, Lv!
    /// in the others.
    pub fn withdraw(self) -> Applicant
        ensures { result ≡ withdraw_of self }
    {
        match self {
            Applicant::Vo | Applicant::La => self,
            Applicant::Vp => self.redeclare().step(AppEvent::LvReq, false).0,
            _ => self.step(AppEvent::LvReq, false).0,
        }
    }

    /// Whether the attribute is declared: in every state but `Vo` and `La`.
    pub fn is_declared(self) -> bool
        ensures { result ≡ is_declared_in self }
    {
        !matches!(self, Applicant::Vo | Applicant::La)
    }
}
