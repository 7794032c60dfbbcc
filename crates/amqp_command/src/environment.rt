//! What the command line's environment adds to its words.

/// The variables of the environment that `publish` reads, where they are set.
#[derive(Drop)]
pub struct Environment {
    /// `AMQP_URL`: the server, where the words don't name it.
    pub url: Option<String>,
    /// `AMQP_PASSWORD`: the password, where neither the words nor the URL have one.
    pub password: Option<String>,
}

impl Environment {
    /// The URL, if there is one that isn't empty.
    pub(crate) fn url(&self) -> Option<&str> {
        match &self.url {
            Some(url) if !url.is_empty() => Some(url.as_str()),
            _ => None,
        }
    }

    /// The password, if there is one.
    pub(crate) fn password(&self) -> Option<&str> {
        match &self.password {
            Some(password) => Some(password.as_str()),
            None => None,
        }
    }
}
