//! What a participant keeps of one key, and what each event makes of it.

ghost use Rattle.std.specs.Prelude.{◌≡◌, if◌then◌else◌, Some, None};
ghost use Rattle.applicant.specs.Table.{withdraw_of};
ghost use Rattle.mrp_participant.specs.Row.{is_live, kept_row, applicant_takes, registrar_takes, with_applicant, fresh_row, declared_row, left_row, leave_all_row, with_heard, heard_row, makes_row, registered_in, declared_in, leave_is_due, after_leave_due, periodic_row};
ghost use Rattle.mrp_participant.specs.Hearing.{begun_row};
ghost use Rattle.mrp_participant.specs.Sending.{round, is_tried, opportunity, before_opportunity, row_after, said_at, event_for, sent_row, sent_event};

use applicant::{AppEvent, Applicant, Say};
use registrar::{RegEvent, Registrar};
use srp_base::{Cs, MrpEvent};

/// What is kept of one key: its Applicant with the content declared last, and its Registrar with
/// the content heard last and the moment at which its leave timer ends, in cs. The declared content
/// means nothing where the Applicant is `Vo`, the heard one nothing where the Registrar is `Empty`,
/// the moment nothing where it isn't `Leaving`.
#[derive(Clone, Copy)]
pub struct Row<K, C> {
    pub key: K,
    pub applicant: Applicant,
    pub content: C,
    pub registrar: Registrar,
    pub heard: C,
    pub leave: Cs,
}

impl<K: Copy, C: Copy> Row<K, C> {
    /// The row of a key of which nothing was kept.
    pub(crate) fn fresh(key: K, content: C) -> Row<K, C>
        ensures { result ≡ fresh_row key content }
    {
        Row {
            key,
            applicant: Applicant::Vo,
            content,
            registrar: Registrar::Empty,
            heard: content,
            leave: Cs(0),
        }
    }

    /// Whether anything is kept of the key.
    pub(crate) fn is_live(&self) -> bool
        ensures { result ≡ is_live self.now }
    {
        self.applicant != Applicant::Vo || self.registrar.is_registered()
    }

    /// The row, or none where nothing is kept of the key.
    pub(crate) fn kept(self) -> Option<Row<K, C>>
        ensures { result ≡ kept_row self }
    {
        if self.is_live() { Some(self) } else { None }
    }

    /// The row after its Applicant took an event.
    pub(crate) fn applicant_takes(self, event: AppEvent) -> Row<K, C>
        ensures { result ≡ applicant_takes event self }
    {
        let held = self.registrar == Registrar::Held;
        let (applicant, _) = self.applicant.step(event, held);
        Row { applicant, ..self }
    }

    /// The row after its Registrar took an event; where that takes it from IN to LV, the leave
    /// timer starts and ends at `leave`.
    pub(crate) fn registrar_takes(self, event: RegEvent, leave: Cs) -> Row<K, C>
        ensures { result ≡ registrar_takes event leave self }
    {
        let (registrar, _) = self.registrar.step(event);
        let starts = self.registrar.starts_leave_timer(event);
        let leave = if starts { leave } else { self.leave };
        Row {
            registrar,
            leave,
            ..self
        }
    }

    /// The row after the user declared a content: the same again changes nothing, another is
    /// declared anew.
    pub(crate) fn declared(self, content: C) -> Row<K, C>
    where
        C: Eq,
        ensures { result ≡ declared_row C.eq content self }
    {
        if !self.applicant.is_declared() {
            let applicant = self.applicant.declare();
            return Row {
                applicant,
                content,
                ..self
            };
        }
        if self.content == content {
            return self;
        }
        let applicant = self.applicant.redeclare();
        Row {
            applicant,
            content,
            ..self
        }
    }

    /// The row after the user withdrew.
    pub(crate) fn withdrawn(self) -> Row<K, C>
        ensures { result ≡ with_applicant (withdraw_of self.applicant) self }
    {
        let applicant = self.applicant.withdraw();
        Row { applicant, ..self }
    }

    /// The row after its leave timer fired, or none where nothing is kept any more.
    pub(crate) fn left(self) -> Option<Row<K, C>>
        ensures { result ≡ left_row self }
    {
        let (registrar, _) = self.registrar.step(RegEvent::LeaveTimer);
        let after = Row { registrar, ..self };
        after.kept()
    }

    /// The row after a LeaveAll was received.
    pub(crate) fn hears_leave_all(self, leave: Cs) -> Row<K, C>
        ensures { result ≡ leave_all_row leave self }
    {
        let after = self.registrar_takes(RegEvent::RxLeaveAll, leave);
        after.applicant_takes(AppEvent::RxLeaveAll)
    }

    /// The row as the events of a list of messages find it: after its LeaveAll, where it has one.
    pub(crate) fn begun(self, leave_all: bool, leave: Cs) -> Row<K, C>
        ensures { result ≡ begun_row leave_all leave self }
    {
        if leave_all {
            self.hears_leave_all(leave)
        } else {
            self
        }
    }

    /// The row with what the neighbour has declared.
    fn with_heard(self, heard: C) -> Row<K, C>
        ensures { result ≡ with_heard heard self }
    {
        Row { heard, ..self }
    }

    /// The row after an attribute event was received.
    pub(crate) fn hears(self, event: MrpEvent, content: C, leave: Cs) -> Row<K, C>
        ensures { result ≡ heard_row event content leave self }
    {
        match event {
            MrpEvent::New => self
                .registrar_takes(RegEvent::RxNew, leave)
                .with_heard(content),
            MrpEvent::JoinIn => self
                .registrar_takes(RegEvent::RxJoin, leave)
                .with_heard(content)
                .applicant_takes(AppEvent::RxIn),
            MrpEvent::OnlyIn => self.applicant_takes(AppEvent::RxIn),
            MrpEvent::JoinMt => self
                .registrar_takes(RegEvent::RxJoin, leave)
                .with_heard(content)
                .applicant_takes(AppEvent::RxMt),
            MrpEvent::OnlyMt => self.applicant_takes(AppEvent::RxMt),
            MrpEvent::Lv => self
                .registrar_takes(RegEvent::RxLv, leave)
                .applicant_takes(AppEvent::RxLv),
        }
    }

    /// What is registered of the key.
    pub(crate) fn registered(&self) -> Option<C>
        ensures { result ≡ registered_in (Some self.now) }
    {
        if self.registrar.is_registered() {
            Some(self.heard)
        } else {
            None
        }
    }

    /// What is declared of the key.
    pub(crate) fn declares(&self) -> Option<C>
        ensures { result ≡ declared_in (Some self.now) }
    {
        if self.applicant.is_declared() {
            Some(self.content)
        } else {
            None
        }
    }

    /// Whether the row's leave timer has its end at or before `now`.
    pub(crate) fn leave_is_due(&self, now: Cs) -> bool
        ensures { result ≡ leave_is_due now.0 self.now }
    {
        self.registrar == Registrar::Leaving && self.leave.0 <= now.0
    }

    /// The row's key, if its leave timer has its end at or before `now`.
    pub(crate) fn key_that_leaves(&self, now: Cs) -> Option<K>
        ensures { result ≡ (if leave_is_due now.0 self.now then Some self.now.key else None) }
    {
        if self.leave_is_due(now) {
            Some(self.key)
        } else {
            None
        }
    }

    /// The row after the leave timers that are due have fired.
    pub(crate) fn after_leave_due(self, now: Cs) -> Option<Row<K, C>>
        ensures { result ≡ after_leave_due now.0 self }
    {
        if self.leave_is_due(now) {
            self.left()
        } else {
            Some(self)
        }
    }

    /// The row after the periodic event.
    pub(crate) fn hears_periodic(self) -> Row<K, C>
        ensures { result ≡ periodic_row self }
    {
        self.applicant_takes(AppEvent::Periodic)
    }

    /// Whether the row is tried when the participant may send.
    pub(crate) fn is_tried(&self, leave_all: bool) -> bool
        ensures { result ≡ is_tried leave_all self.now }
    {
        round(leave_all, self.applicant) != 0
    }

    /// The transmission opportunity that the row's Applicant gets.
    fn opportunity(&self, leave_all: bool, taken: bool) -> Option<AppEvent>
        ensures { result ≡ opportunity leave_all taken self.now }
    {
        if !leave_all {
            return if taken { Some(AppEvent::Tx) } else { None };
        }
        if self.is_tried(true) && !taken {
            Some(AppEvent::TxLeaveAllFull)
        } else {
            Some(AppEvent::TxLeaveAll)
        }
    }

    /// The row as it stands when its Applicant gets its opportunity.
    fn before_opportunity(self, leave_all: bool, leave: Cs) -> Row<K, C>
        ensures { result ≡ before_opportunity leave_all leave self }
    {
        if leave_all {
            self.registrar_takes(RegEvent::TxLeaveAll, leave)
        } else {
            self
        }
    }

    /// The row after an opportunity.
    fn after_opportunity(self, opportunity: Option<AppEvent>) -> Option<Row<K, C>>
        ensures { result ≡ row_after opportunity self }
    {
        match opportunity {
            None => Some(self),
            Some(event) => self.applicant_takes(event).kept(),
        }
    }

    /// What the row says at an opportunity.
    fn said_at(self, opportunity: Option<AppEvent>) -> Option<(MrpEvent, K, C)>
        ensures { result ≡ said_at opportunity self }
    {
        match opportunity {
            None => None,
            Some(event) => {
                let held = self.registrar == Registrar::Held;
                let (_, say) = self.applicant.step(event, held);
                match written(say, held) {
                    None => None,
                    Some(event) => Some((event, self.key, self.content)),
                }
            }
        }
    }

    /// The row after sending, or none where nothing is kept any more.
    pub(crate) fn sent(self, leave_all: bool, taken: bool, leave: Cs) -> Option<Row<K, C>>
        ensures { result ≡ sent_row leave_all taken leave self }
    {
        let opportunity = self.opportunity(leave_all, taken);
        self.before_opportunity(leave_all, leave)
            .after_opportunity(opportunity)
    }

    /// What the row says in the PDU.
    pub(crate) fn says(self, leave_all: bool, taken: bool, leave: Cs) -> Option<(MrpEvent, K, C)>
        ensures { result ≡ sent_event leave_all taken leave self }
    {
        let opportunity = self.opportunity(leave_all, taken);
        self.before_opportunity(leave_all, leave)
            .said_at(opportunity)
    }
}

/// What is written for what an Applicant says.
fn written(say: Say, held: bool) -> Option<MrpEvent>
    ensures { result ≡ event_for say held }
{
    match say {
        Say::Quiet => None,
        Say::New => Some(MrpEvent::New),
        Say::Join => Some(if held {
            MrpEvent::JoinIn
        } else {
            MrpEvent::JoinMt
        }),
        Say::Lv => Some(MrpEvent::Lv),
    }
}

/// The round in which a row with this Applicant is tried, or 0.
pub(crate) fn round(leave_all: bool, applicant: Applicant) -> u8
    ensures { result ≡ round leave_all applicant }
{
    match applicant {
        Applicant::Vo => 0,
        Applicant::Vp | Applicant::Vn => 1,
        Applicant::An | Applicant::Aa => 2,
        Applicant::Qa => if leave_all { 3 } else { 0 },
        Applicant::La => if leave_all { 0 } else { 1 },
    }
}

/// Whether an event makes a row where there is none: New and the two Joins do.
pub(crate) fn makes_row(event: MrpEvent) -> bool
    ensures { result ≡ makes_row event }
{
    matches!(event, MrpEvent::New | MrpEvent::JoinIn | MrpEvent::JoinMt)
}
