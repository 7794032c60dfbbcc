//! All connections, by their numbers.
use crate::connection::Connection;
use amqp_method::Method;
use example_store::{Content, Done, Fault, Outlet, Place, Result};
use std::collections::BTreeMap;

#[derive(Drop)]
pub struct Connections(pub BTreeMap<usize, Connection>);

impl Connections {
    pub fn get(&mut self, id: usize) -> Result<&mut Connection> {
        match self.0.get_mut(&id) {
            Some(connection) => Ok(connection),
            None => Err(Fault::GivenUp),
        }
    }
}

impl Outlet for Connections {
    fn waiting(&self, connection: usize) -> usize {
        match self.0.get(&connection) {
            Some(connection) => connection.waiting(),
            None => usize::MAX,
        }
    }

    fn send(&mut self, at: Place, method: &Method, content: &Content) -> Done {
        let (properties, body) = (&content.header.properties, &content.body);
        let end = self.get(at.0)?.end();
        Ok(end.send_content(at.1, method, properties, body)?)
    }

    fn give_up(&mut self, connection: usize) {
        if let Some(connection) = self.0.get_mut(&connection) {
            connection.link.is_gone = true;
        }
    }
}
