//! What an end says of a frame, event included.

ghost use Rattle.amqp_model.specs.Laws.VerdictInWords.{SaysAsLives, TellsItemEnded};

/// Where an end goes on after a frame of a channel above 0, its verdict is that of the lives of a channel, event and
/// reply. Of a message it tells the item that is whole with the frame, if one is, on the channel of the frame.
pub fn verdict_names_event()
    ensures lives { SaysAsLives }
    ensures item { TellsItemEnded }
{}
