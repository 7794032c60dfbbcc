//! The login that a command line asks for, with a password from where it says.
use crate::hellos::Access;
use crate::input::{InputFault, first_line};
use crate::printing::Stop;
use amqp_command::{Login, Password};
use std::alloc::Global;
use std::fs::File;
use std::io::{self, ErrorKind};
use std::rt::Files;

/// The login, after the file of the password is read, if there is one.
pub fn access_of<R: Files>(rt: &R, alloc: Global, login: Login) -> Result<Access, Stop> {
    let Login {
        user,
        password,
        virtual_host,
    } = login;
    let password = octets_of(rt, alloc, password)?;
    Ok(Access::new(alloc, user.as_slice(), password.as_slice(), virtual_host)?)
}

fn octets_of<R: Files>(rt: &R, alloc: Global, password: Password) -> Result<Vec<u8>, Stop> {
    match password {
        Password::Given(octets) => Ok(octets),
        Password::InFile(path) => read_password(rt, alloc, path.as_str()),
    }
}

/// The first line of a file. One with an octet 0 is no password: the login would end there.
fn read_password<R: Files>(rt: &R, alloc: Global, path: &str) -> Result<Vec<u8>, Stop> {
    let mut file = match File::open(rt, path) {
        Ok(file) => file,
        Err(failure) => return Err(Stop::NoPassword(failure)),
    };
    let line = first_line(alloc, &mut file);
    drop(file);
    match line {
        Ok(line) if line.contains(&0) => {
            Err(Stop::NoPassword(io::Error::from(ErrorKind::InvalidData)))
        }
        Ok(line) => Ok(line),
        Err(InputFault::Read(failure)) => Err(Stop::NoPassword(failure)),
        Err(fault) => Err(Stop::from(fault)),
    }
}
