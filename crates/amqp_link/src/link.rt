//! Pairs of ends in memory, and what is done with them.
ghost use Rattle.std.specs.Prelude.{◌≡◌, map, slice_get, All, IfErr, IfOk, OnOk};
ghost use Rattle.amqp_core.specs.Asks.View.{ask_view};
ghost use Rattle.amqp_core.specs.Config.Configs.{set_up_as, settings_of};
ghost use Rattle.amqp_core.specs.Traced.Notes.{item_view, telling_view};
ghost use Rattle.amqp_core.specs.Roles.{role_of};
ghost use Rattle.amqp_link.specs.ConnectionSteps.{ConnectionAsked, ConnectionCarries, ConnectionControlled, ConnectionDrops};
ghost use Rattle.amqp_link.specs.ControlView.{control_view};
ghost use Rattle.amqp_link.specs.LinkSteps.{Begins, DoneAt, Fits, FitsNot, IsFaultOf, IsNewLink, RunsTo, Steps};
ghost use Rattle.amqp_link.specs.Items.{CountsItems, acted_in, said_at, sent_in, tally_in, told_at, waiting_in};
ghost use Rattle.amqp_link.specs.TallyView.{tally_view};
ghost use Rattle.amqp_link.specs.SetUps.{client_set_up, server_set_up};

use crate::connection::Connection;
use crate::controls::Control;
use crate::faults::{LinkFault, OutOfMemory};
use crate::lives::{Life, Written, add_tallies, items_of};
use crate::promises::promises_are_kept;
use crate::steps::{Direction, Step};
use amqp_core::{Ask, Client, Config, ConfigFault, End, Item, Role, Server, Side, Telling};
use std::alloc::Global;

/// Connections of two ends each, numbered from 0 in the order in which they began.
pub struct Link {
    alloc: Global,
    client: Config<Client>,
    server: Config<Server>,
    connections: Vec<Connection>,
}

/// Written out, so that no crate above proves again of each part that it can be dropped.
impl Drop for Link {
    fn drop(self) {
        let Link {
            alloc: _,
            client: _,
            server: _,
            connections: _,
        } = self;
    }
}

/// Whether an end can be set up so. The configuration is looked at before memory is taken.
fn try_end<R: Role>(alloc: Global, config: Config<R>) -> Result<(), ConfigFault>
    ensures fits { OnOk result (Fits (set_up_as (settings_of R.hello_of config))) }
    ensures fault { IfErr result (λ fault. IsFaultOf (set_up_as (settings_of R.hello_of config)) fault) }
{
    match End::new(alloc, config) {
        Ok(end) => {
            drop(end);
            Ok(())
        }
        Err(fault) => Err(fault),
    }
}

/// The configuration, if an end can be set up so. Where memory for a copy is refused, its fault is still found.
fn try_config<R: Role>(alloc: Global, config: Config<R>) -> Result<Config<R>, ConfigFault>
    ensures same { IfOk result (λ kept. kept ≡ config) }
    ensures fits { OnOk result (Fits (set_up_as (settings_of R.hello_of config))) }
    ensures fault { IfErr result (λ fault. IsFaultOf (set_up_as (settings_of R.hello_of config)) fault) }
{
    let Ok(copy) = config.copy() else {
        return match try_end(alloc, config) {
            Ok(()) => Err(ConfigFault::OutOfMemory),
            Err(fault) => Err(fault),
        };
    };
    match try_end(alloc, copy) {
        Ok(()) => Ok(config),
        Err(fault) => {
            drop(config);
            Err(fault)
        }
    }
}

impl Link {
    ghost use Rattle.amqp_link.specs.Headline.{Headline};
    ghost use Rattle.amqp_link.specs.LinkView.{link_view};

    /// A link of no connection yet. Each connection that begins is of two ends that are set up with copies of these.
    /// The fault is the client's, or else the server's; it is out of memory only where neither has one.
    pub fn new(
        alloc: Global,
        client: Config<Client>,
        server: Config<Server>,
    ) -> Result<Link, ConfigFault>
        ensures new { IfOk result (λ link. IsNewLink (client_set_up client) (server_set_up server) (link_view link)) }
        ensures fault { IfErr result (λ fault. FitsNot (client_set_up client) (server_set_up server) fault) }
    {
        let client = match try_config(alloc, client) {
            Ok(client) => client,
            Err(ConfigFault::OutOfMemory) => {
                return match try_end(alloc, server) {
                    Ok(()) => Err(ConfigFault::OutOfMemory),
                    Err(fault) => Err(fault),
                };
            }
            Err(fault) => {
                drop(server);
                return Err(fault);
            }
        };
        let server = match try_config(alloc, server) {
            Ok(server) => server,
            Err(fault) => {
                drop(client);
                return Err(fault);
            }
        };
        Ok(Link {
            alloc,
            client,
            server,
            connections: Vec::new(alloc),
        })
    }

    fn begin(&mut self) -> Result<(), LinkFault>
        ensures { Begins (link_view self.old) result (link_view self.new) }
    {
        let Ok(connection) = Connection::new(self.alloc, &self.client, &self.server) else {
            return Err(LinkFault::OutOfMemory);
        };
        let Ok(()) = self.connections.push(connection) else {
            return Err(LinkFault::OutOfMemory);
        };
        Ok(())
    }

    fn ask(&mut self, index: usize, side: Side, ask: &Ask) -> Result<(), LinkFault>
        ensures { DoneAt (ConnectionAsked (role_of side) (ask_view ask.now)) index (link_view self.old) result
            (link_view self.new) }
    {
        if self.connections.len() <= index {
            return Err(LinkFault::NoSuchConnection);
        }
        let connection = &mut self.connections[index];
        connection.ask(side, ask)
    }

    fn control(&mut self, index: usize, side: Side, control: &Control) -> Result<(), LinkFault>
        ensures { DoneAt (ConnectionControlled (role_of side) (control_view control.now)) index
            (link_view self.old) result (link_view self.new) }
    {
        if self.connections.len() <= index {
            return Err(LinkFault::NoSuchConnection);
        }
        let connection = &mut self.connections[index];
        connection.control(side, control)
    }

    fn carry(&mut self, index: usize, direction: Direction, octets: usize) -> Result<(), LinkFault>
        ensures { DoneAt (ConnectionCarries direction octets) index (link_view self.old) result (link_view self.new) }
    {
        if self.connections.len() <= index {
            return Err(LinkFault::NoSuchConnection);
        }
        let connection = &mut self.connections[index];
        connection.carry(direction, octets)
    }

    fn drop_side(&mut self, index: usize, side: Side) -> Result<(), LinkFault>
        ensures { DoneAt (ConnectionDrops (role_of side)) index (link_view self.old) result (link_view self.new) }
    {
        if self.connections.len() <= index {
            return Err(LinkFault::NoSuchConnection);
        }
        let connection = &mut self.connections[index];
        connection.drop_side(side)
    }

    /// Does a step, or refuses it. A refused step leaves the link as it was.
    #[tactic(auto, using(crate::proofs::Promising::headline))]
    pub fn step(&mut self, step: &Step) -> Result<(), LinkFault>
        ensures steps { Steps (link_view self.old) step.now result (link_view self.new) }
        ensures headline { Headline (link_view self.new) }
    {
        promises_are_kept();
        match step {
            Step::Begin => self.begin(),
            Step::Ask(connection, side, ask) => self.ask(*connection, *side, ask),
            Step::Control(connection, side, control) => self.control(*connection, *side, control),
            Step::Carry(connection, direction, octets) => {
                self.carry(*connection, *direction, *octets)
            }
            Step::Drop(connection, side) => self.drop_side(*connection, *side),
        }
    }

    /// Does steps in order, also after refused ones, and answers how many were refused. Out of memory, it answers the
    /// index of the step that met it, after which none was done.
    #[tactic(auto, using(crate::proofs::Promising::headline))]
    pub fn run(&mut self, steps: &[Step]) -> Result<usize, usize>
        ensures runs { RunsTo (link_view self.old) steps.now result (link_view self.new) }
        ensures headline { Headline (link_view self.new) }
    {
        promises_are_kept();
        let mut refused = 0_usize;
        let mut index = 0_usize;
        while index < steps.len() {
            if let Err(fault) = self.step(&steps[index]) {
                if fault.is_out_of_memory() {
                    return Err(index);
                }
                refused += 1;
            }
            index += 1;
        }
        Ok(refused)
    }

    /// How many octets wait to be carried; none of a connection that hasn't begun.
    pub fn waiting(&self, connection: usize, direction: Direction) -> usize
        ensures { result ≡ waiting_in (link_view self.now) connection direction }
    {
        match self.connections.get(connection) {
            Some(connection) => connection.waiting(direction),
            None => 0,
        }
    }

    /// What the end that writes said, in all lives.
    fn said(&self, connection: usize, direction: Direction) -> &[Telling]
        ensures { map telling_view result.now ≡ said_at direction (slice_get (link_view self.now).connections
            connection) }
    {
        match self.connections.get(connection) {
            Some(connection) => connection.said(direction),
            None => &[],
        }
    }

    /// What the end that reads was told, in all lives.
    fn told(&self, connection: usize, direction: Direction) -> &[Telling]
        ensures { map telling_view result.now ≡ told_at direction (slice_get (link_view self.now).connections
            connection) }
    {
        match self.connections.get(connection) {
            Some(connection) => connection.told(direction),
            None => &[],
        }
    }

    /// The items that were sent in a life in a direction, in order. There are none of a life that hasn't begun.
    #[tactic(auto, using(crate::proofs::Promising::headline))]
    pub fn sent(&self, life: Life, direction: Direction) -> Result<Vec<Item>, OutOfMemory>
        ensures items { IfOk result (λ items. map item_view items.items ≡ sent_in (link_view self.now) life direction) }
        ensures headline { Headline (link_view self.now) }
    {
        promises_are_kept();
        let said = self.said(life.connection, direction);
        items_of(self.alloc, said, life.channel, life.number)
    }

    /// The items that were acted on in a life in a direction, in order. There are none of a life that hasn't begun.
    #[tactic(auto, using(crate::proofs::Promising::headline))]
    pub fn acted(&self, life: Life, direction: Direction) -> Result<Vec<Item>, OutOfMemory>
        ensures items { IfOk result (λ items. map item_view items.items ≡ acted_in (link_view self.now) life
            direction) }
        ensures headline { Headline (link_view self.now) }
    {
        promises_are_kept();
        let told = self.told(life.connection, direction);
        items_of(self.alloc, told, life.channel, life.number)
    }

    /// How many items were sent and acted on in each life that began: by connection, channel and number, each to the
    /// server first.
    #[tactic(auto, using(crate::proofs::Promising::headline))]
    pub fn tally(&self) -> Result<Vec<(Life, Direction, usize, usize)>, OutOfMemory>
        ensures tallies { IfOk result (λ tallies. map tally_view tallies.items ≡ tally_in (link_view self.now)) }
        // The counts are the lengths of what `sent` and `acted` answer.
        ensures lengths { IfOk result (λ tallies. All (CountsItems (link_view self.now)) tallies.items) }
        ensures headline { Headline (link_view self.now) }
    {
        promises_are_kept();
        let mut tallies = Vec::new(self.alloc);
        for (index, connection) in self.connections.iter().enumerate() {
            add_tallies(self.alloc, &mut tallies, index, connection.written())?;
        }
        Ok(tallies)
    }
}
