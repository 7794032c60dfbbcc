//! What waits in an outbox, handed over to a queue that keeps it frame by frame.
ghost use Rattle.std.specs.Prelude.{◌≡◌, ◌+◌, List, ◌++◌, map, All, IfErr, OnOk, OnErr};
ghost use Rattle.amqp_frame.specs.Frame.{Frame};
ghost use Rattle.amqp_frame.specs.Splitting.{stream};
ghost use Rattle.amqp_model.specs.Output.Arrangement.{HasChannel};
ghost use Rattle.amqp_outbox.specs.OutboxFaults.{out_of_memory};
ghost use Rattle.amqp_outbox.specs.OutboxSlots.{slot_of, slots_in};
ghost use Rattle.amqp_outbox.specs.OutboxView.{with_staged};

use crate::send_queue::SendQueue;
use crate::slots::Waiting;
use crate::staging::StageFault;
use thiserror::Error;

/// Why nothing was handed over.
#[derive(Clone, Copy, PartialEq, Eq, Debug, Error)]
pub enum HandOverFault {
    #[error("out of memory")]
    OutOfMemory,
    /// what is left of a frame that is begun, or of the protocol header, is to be written first
    #[error("a frame is begun")]
    Begun,
}

/// Stages the frames of a row in a queue: a copy of each.
pub(crate) fn stage_row(
    row: &[Waiting],
    octets: &[u8],
    queue: &mut SendQueue,
) -> Result<(), StageFault>
    requires { (frames : List Frame) × (slots_in row.now ≡ map slot_of frames) × (octets.now ≡ stream frames)
        × All HasChannel frames }
    ensures ok { (frames : List Frame) → slots_in row.now ≡ map slot_of frames → octets.now ≡ stream frames
        → OnOk result (queue.new ≡ with_staged queue.old frames) }
    ensures same { OnErr result (queue.new.output ≡ queue.old.output) }
{
    let mut rest = octets;
    for waiting in row {
        let (frame, later) = rest.split_at(waiting.slot.length());
        queue.stage(waiting.slot, frame)?;
        rest = later;
    }
    Ok(())
}
