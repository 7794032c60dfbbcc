//! Entries of a tally.
use amqp_link::{Direction, Life};

/// A life, a way, how many items were sent, and how many acted on.
pub(crate) type Entry = (Life, Direction, usize, usize);

/// The entries of a life: how many items were sent to the server and how many acted on there, and the same to the
/// client.
pub(crate) fn two_entries(
    life: Life,
    to_server: (usize, usize),
    to_client: (usize, usize),
) -> [Entry; 2] {
    [
        (life, Direction::ToServer, to_server.0, to_server.1),
        (life, Direction::ToClient, to_client.0, to_client.1),
    ]
}
