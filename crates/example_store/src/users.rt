//! Who may log in.
use amqp_typed::connection::StartOkRef;
use amqp_value::{Table, read_table};
use std::alloc::Global;

/// Users with their passwords, of a text that has a line `name:password` for each.
#[derive(Drop)]
pub struct Users {
    text: String,
}

impl Users {
    /// None: a line is not `name:password`.
    pub fn read(text: String) -> Option<Users> {
        for line in text.as_str().lines() {
            if !line.contains(':') {
                return None;
            }
        }
        Some(Users { text })
    }

    /// Whether a client may log in as it says, by PLAIN or AMQPLAIN. None: it says nothing that can be read.
    pub fn allow(&self, alloc: Global, start: &StartOkRef<'_>) -> Option<bool> {
        if start.mechanism.as_bytes() == b"PLAIN".as_slice() {
            // whom to act as, which isn't looked at, the name and the password, with zeros between
            let (_, login) = parted(start.response, 0)?;
            let (name, password) = parted(login, 0)?;
            return Some(self.has(name, password));
        }
        let table = table_of(alloc, start.response)?;
        self.allow_amqplain(&table)
    }

    fn allow_amqplain(&self, login: &Table) -> Option<bool> {
        match (octets_at(login, b"LOGIN"), octets_at(login, b"PASSWORD")) {
            (Some(name), Some(password)) => Some(self.has(name, password)),
            _ => None,
        }
    }

    fn has(&self, name: &[u8], password: &[u8]) -> bool {
        for user in self.text.as_str().lines() {
            if is_user(user.as_bytes(), name, password) {
                return true;
            }
        }
        false
    }
}

/// Whether a line is of this user with this password.
fn is_user(line: &[u8], name: &[u8], password: &[u8]) -> bool {
    match parted(line, b':') {
        Some((user, word)) => user == name && word == password,
        None => false,
    }
}

/// What stands before the first octet of this value, and what stands after it.
fn parted(text: &[u8], octet: u8) -> Option<(&[u8], &[u8])> {
    for place in 0..text.len() {
        if text[place] == octet {
            return Some((&text[..place], &text[place + 1..]));
        }
    }
    None
}

/// The table of an AMQPLAIN login, which stands there without its length.
fn table_of(alloc: Global, response: &[u8]) -> Option<Table> {
    let Ok(length) = u32::try_from(response.len()) else {
        return None;
    };
    let mut octets = Vec::new(alloc);
    octets.extend_from_slice(&length.to_be_bytes()).ok()?;
    octets.extend_from_slice(response).ok()?;
    match read_table(alloc, &octets) {
        Ok((table, _)) => Some(table),
        Err(_) => None,
    }
}

fn octets_at<'a>(table: &'a Table, name: &[u8]) -> Option<&'a [u8]> {
    match table.get(name) {
        Some(value) => value.as_bytes(),
        None => None,
    }
}
