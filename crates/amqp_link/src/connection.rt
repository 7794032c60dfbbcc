//! A connection of a client and a server in memory. What the one has to write waits to be carried to the other.
ghost use Rattle.std.specs.Prelude.{◌≡◌, length, map, IfOk};
ghost use Rattle.amqp_model.specs.Wire.Notes.{Client as client_role};
ghost use Rattle.amqp_core.specs.Asks.View.{ask_view};
ghost use Rattle.amqp_core.specs.Traced.Notes.{note_view, telling_view};
ghost use Rattle.amqp_core.specs.Roles.{role_of};
ghost use Rattle.amqp_link.specs.ConnectionSteps.{ConnectionAsked, ConnectionCarries, ConnectionControlled, ConnectionDrops, IsNewConnection, reader_in, writer_in};
ghost use Rattle.amqp_link.specs.ControlView.{control_view};
ghost use Rattle.amqp_link.specs.Joined.{IsJoinedTo};
ghost use Rattle.amqp_link.specs.SeatSteps.{to_write};
ghost use Rattle.amqp_link.specs.SeatView.{seat_view};
ghost use Rattle.amqp_link.specs.SetUps.{client_set_up, server_set_up};

use crate::controls::Control;
use crate::faults::{LinkFault, OutOfMemory};
use crate::lives::Written;
use crate::seat::{Seat, carry};
use crate::steps::Direction;
use amqp_core::laws::{agreement, octets, two_ends};
use amqp_core::{Ask, Client, Config, Server, Side, Telling};
use amqp_model::controls;
use std::alloc::Global;

/// A client and a server, of which each was fed what the other wrote.
#[derive(Drop)]
pub(crate) struct Connection {
    client: Seat<Client>,
    server: Seat<Server>,
    pub ghost joined: { ∥ IsJoinedTo client_role (seat_view client) (seat_view server) ∥₁ },
}

impl Connection {
    ghost use Rattle.amqp_link.specs.ConnectionView.{connection_view};

    /// A connection of two new ends.
    pub(crate) fn new(
        alloc: Global,
        client: &Config<Client>,
        server: &Config<Server>,
    ) -> Result<Connection, OutOfMemory>
        ensures { IfOk result (λ connection. IsNewConnection (client_set_up client.now) (server_set_up server.now)
            (connection_view connection)) }
    {
        octets::octets_follow();
        two_ends::steps_stay_pairs();
        let client = Seat::new(alloc, client)?;
        match Seat::new(alloc, server) {
            Ok(server) => Ok(Connection { client, server }),
            Err(OutOfMemory) => {
                drop(client);
                Err(OutOfMemory)
            }
        }
    }

    pub(crate) fn ask(&mut self, side: Side, ask: &Ask) -> Result<(), LinkFault>
        ensures { ConnectionAsked (role_of side) (ask_view ask.now) (connection_view self.old) result
            (connection_view self.new) }
    {
        agreement::ends_stand_together();
        match side {
            Side::Client => self.client.ask(ask),
            Side::Server => self.server.ask(ask),
        }
    }

    pub(crate) fn control(&mut self, side: Side, control: &Control) -> Result<(), LinkFault>
        ensures { ConnectionControlled (role_of side) (control_view control.now)
            (connection_view self.old) result (connection_view self.new) }
    {
        controls::controls_stand_together();
        match side {
            Side::Client => self.client.control(control),
            Side::Server => self.server.control(control),
        }
    }

    pub(crate) fn carry(&mut self, direction: Direction, octets: usize) -> Result<(), LinkFault>
        ensures { ConnectionCarries direction octets (connection_view self.old) result (connection_view self.new) }
    {
        match direction {
            Direction::ToServer => carry(&mut self.client, &mut self.server, octets),
            Direction::ToClient => carry(&mut self.server, &mut self.client, octets),
        }
    }

    pub(crate) fn drop_side(&mut self, side: Side) -> Result<(), LinkFault>
        ensures { ConnectionDrops (role_of side) (connection_view self.old) result (connection_view self.new) }
    {
        match side {
            Side::Client => self.client.drop_end(),
            Side::Server => self.server.drop_end(),
        }
    }

    /// How many octets wait to be carried.
    pub(crate) fn waiting(&self, direction: Direction) -> usize
        ensures { result ≡ length (to_write (writer_in direction (connection_view self.now))) }
    {
        match direction {
            Direction::ToServer => self.client.waiting(),
            Direction::ToClient => self.server.waiting(),
        }
    }

    /// The items that the side that writes has said.
    pub(crate) fn said(&self, direction: Direction) -> &[Telling]
        ensures { map telling_view result.now ≡ (writer_in direction (connection_view self.now)).kept.said }
    {
        match direction {
            Direction::ToServer => self.client.said(),
            Direction::ToClient => self.server.said(),
        }
    }

    /// The items that the side that reads was told.
    pub(crate) fn told(&self, direction: Direction) -> &[Telling]
        ensures { map telling_view result.now ≡ (reader_in direction (connection_view self.now)).kept.told }
    {
        match direction {
            Direction::ToServer => self.server.told(),
            Direction::ToClient => self.client.told(),
        }
    }

    /// What both ends have written down.
    pub(crate) fn written(&self) -> Written<'_>
        ensures notes { map note_view result.notes.now ≡ (connection_view self.now).client.kept.notes }
        ensures client_said { map telling_view result.client_said.now ≡ (connection_view self.now).client.kept.said }
        ensures server_told { map telling_view result.server_told.now ≡ (connection_view self.now).server.kept.told }
        ensures server_said { map telling_view result.server_said.now ≡ (connection_view self.now).server.kept.said }
        ensures client_told { map telling_view result.client_told.now ≡ (connection_view self.now).client.kept.told }
    {
        Written {
            notes: self.client.notes(),
            client_said: self.client.said(),
            server_told: self.server.told(),
            server_said: self.server.said(),
            client_told: self.client.told(),
        }
    }
}
