//! Closing a handle, and the status of what can be wrong with it.
ghost use Rattle.std.specs.Prelude.{◌≡◌};
ghost use Rattle.amqp_calls.specs.Handles.{status_of};

use amqp_handle::HandleFault;

/// The status of an answer: 0 where nothing was wrong.
pub fn status(answer: Result<(), HandleFault>) -> u32
    ensures { result ≡ status_of answer }
{
    match answer {
        Ok(()) => 0,
        Err(fault) => fault.number(),
    }
}
