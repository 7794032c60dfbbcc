//! What came of a piece: its account, which is filled in where each part of it comes to be known.
ghost use Rattle.std.specs.Prelude.{◌≡◌};
ghost use Rattle.amqp_channel.specs.Events.EventView.{event_there};
ghost use Rattle.amqp_channel.specs.Events.PartsView.{parts_there};

use crate::faults::CoreFault;
use crate::notes::Note;
use crate::owed::Owed;
use crate::taken::Taken;
use amqp_channel::EventParts;

/// What came of a piece. The event is here in its parts, and is made of them once, where it is answered.
#[derive(Drop)]
pub(crate) struct Account {
    /// how many octets were taken, also where a fault was found
    pub(crate) octets: usize,
    /// the note of the frame that was taken, if one was
    pub(crate) took: Option<Note>,
    /// what was put in reply
    pub(crate) owed: Owed,
    /// the parts of the frame's event, if it has one
    pub(crate) parts: Option<EventParts>,
}

/// What was taken, with the event of these parts, if there are any. It is written where the caller has room for it.
#[inline(always)]
fn with_event(octets: usize, parts: Option<EventParts>) -> Taken
    ensures octets { result.octets ≡ octets }
    ensures event { event_there result.event ≡ parts_there parts }
{
    let Some(parts) = parts else {
        return Taken {
            octets,
            event: None,
        };
    };
    Taken {
        octets,
        event: Some(parts.into_event()),
    }
}

impl Account {
    ghost use Rattle.amqp_core.specs.Traced.AccountView.{taken_by, IsFresh};
    ghost use Rattle.amqp_core.specs.End.Feeding.{seen};

    /// Nothing came yet.
    #[inline(always)]
    pub(crate) fn new() -> Account
        ensures { IsFresh result }
    {
        Account {
            octets: 0,
            took: None,
            owed: Owed::Nothing,
            parts: None,
        }
    }

    /// The answer to the piece.
    #[inline(always)]
    pub(crate) fn taken(self, answer: Result<(), CoreFault>) -> Result<Taken, CoreFault>
        ensures { seen result ≡ taken_by answer self }
    {
        let Account {
            octets,
            took: _,
            owed: _,
            parts,
        } = self;
        match answer {
            Ok(()) => Ok(with_event(octets, parts)),
            Err(fault) => {
                drop(parts);
                Err(fault)
            }
        }
    }
}
