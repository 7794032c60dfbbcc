//! What a close is about; and what an end keeps of what the other end said: the methods of the handshake, and what
//! its last close was about.
ghost use Rattle.std.specs.Prelude.{◌≡◌, true, Some, None, OnOk, option_copied};
ghost use Rattle.amqp_method.specs.Kinds.{kind_with};
ghost use Rattle.amqp_method.specs.MethodRefView.{lent_call};
ghost use Rattle.amqp_method.specs.MethodView.{method_view};
ghost use Rattle.amqp_model.specs.End.Heard.{heard_after, nothing_heard};
ghost use Rattle.amqp_channel.specs.Events.Closes.{IsClose};
ghost use Rattle.amqp_core.specs.Heard.Causes.{cause_in};
ghost use Rattle.amqp_core.specs.Heard.View.{method_there, newest};
ghost use Rattle.amqp_core.specs.Connection.Handshakes.{awaits_at};

use crate::faults::OutOfMemory;
use crate::stage::Stage;
use amqp_channel::words::same;
use amqp_method::{Kind, Method, MethodRef};
use std::alloc::Global;

/// What a close is about: the class and the method of the frame for which an end closed. Both are 0 where it names
/// none.
#[derive(Clone, Copy, PartialEq, Eq, Debug)]
pub struct Cause {
    pub class_id: u16,
    pub method_id: u16,
}

/// No method.
pub(crate) const NO_CAUSE: Cause = Cause {
    class_id: 0,
    method_id: 0,
};

impl Cause {
    ghost use Rattle.amqp_model.specs.End.Closes.{cause_of};
    ghost use Rattle.amqp_core.specs.Heard.View.{cause_view};

    /// A method of this kind is the cause.
    pub(crate) fn by(kind: Kind) -> Cause
        ensures { cause_view result ≡ cause_of kind }
    {
        Cause {
            class_id: kind.class_id(),
            method_id: kind.method_id(),
        }
    }

    /// The method that these numbers name, if there is one.
    pub fn kind(self) -> Option<Kind>
        ensures { result ≡ kind_with self.class_id self.method_id }
    {
        Kind::from_ids(self.class_id, self.method_id)
    }

    /// What a close that lies in its payload is about.
    #[tactic(auto, using(crate::proofs::LentLemmas::of_close))]
    pub(crate) fn of(method: MethodRef<'_>) -> Cause
        requires { IsClose (lent_call method).kind }
        ensures { cause_view result ≡ cause_in (lent_call method.entry) }
    {
        // The arguments are of the kinds of their fields, so the third and the fourth are numbers of 16 bits.
        let _args = method.args();
        let Some(class_id) = method.short_at(2) else {
            unreachable!()
        };
        let Some(method_id) = method.short_at(3) else {
            unreachable!()
        };
        Cause {
            class_id,
            method_id,
        }
    }
}

/// How many methods an end hears in the handshake: a server hears start-ok, tune-ok and open, a client start and tune.
const MOST_HEARD: usize = 3;

/// The methods that the end heard in the handshake, the newest first, and what the last close was about that it told of.
pub(crate) struct Heard {
    pub(crate) methods: Vec<Method>,
    pub(crate) closed_for: Option<Cause>,
}

/// Written out, so that no crate above proves again of each part that it can be dropped.
impl Drop for Heard {
    fn drop(self) {
        let Heard {
            methods: _,
            closed_for: _,
        } = self;
    }
}

/// The newest of the methods that are of a kind.
#[tactic(auto, using(crate::proofs::HeardLemmas::newest_from))]
fn newest_of(methods: &[Method], kind: Kind) -> Option<&Method>
    ensures { method_there (option_copied result) ≡ newest kind methods.now }
{
    for method in methods {
        if same(method.kind(), kind) {
            return Some(method);
        }
    }
    None
}

impl Heard {
    ghost use Rattle.amqp_core.specs.Heard.View.{heard_view, kept_of_kind, methods_view, nothing_said};

    /// Nothing was heard yet.
    pub(crate) fn nothing(alloc: Global) -> Heard
        ensures { heard_view result ≡ nothing_said }
    {
        Heard {
            methods: Vec::new(alloc),
            closed_for: None,
        }
    }

    /// Keeps the method that a stage of the handshake awaited, before those that are kept. It has room for all that an
    /// end hears, and no more.
    #[inline(never)]
    #[tactic(auto, using(crate::proofs::HeardLemmas::kept_in_step))]
    pub(crate) fn keep(&mut self, stage: Stage, method: Method) -> Result<(), OutOfMemory>
        requires { awaits_at stage (method_view method).kind ≡ true }
        ensures methods { OnOk result (methods_view self.new
            ≡ heard_after (Some (method_view method)) (methods_view self.old)) }
        ensures cause { self.new.closed_for ≡ self.old.closed_for }
    {
        if let Stage::AwaitsOpenOk(_) = stage {
            return Ok(());
        }
        if self.methods.is_empty() {
            self.methods.reserve_exact(MOST_HEARD)?;
        }
        self.methods.insert(0, method)?;
        Ok(())
    }

    /// What is kept of this kind.
    #[tactic(auto, using(crate::proofs::HeardLemmas::newest_kept))]
    pub(crate) fn of(&self, kind: Kind) -> Option<&Method>
        ensures { method_there (option_copied result) ≡ kept_of_kind kind (methods_view self.now) }
    {
        match kind {
            Kind::ConnectionStart => newest_of(&self.methods, Kind::ConnectionStart),
            Kind::ConnectionStartOk => newest_of(&self.methods, Kind::ConnectionStartOk),
            Kind::ConnectionTune => newest_of(&self.methods, Kind::ConnectionTune),
            Kind::ConnectionTuneOk => newest_of(&self.methods, Kind::ConnectionTuneOk),
            Kind::ConnectionOpen => newest_of(&self.methods, Kind::ConnectionOpen),
            _ => None,
        }
    }

    /// Forgets the methods of the handshake, and gives back their room.
    pub(crate) fn forget(&mut self)
        ensures methods { methods_view self.new ≡ nothing_heard }
        ensures cause { self.new.closed_for ≡ self.old.closed_for }
    {
        self.methods = Vec::new(*self.methods.allocator());
    }
}
