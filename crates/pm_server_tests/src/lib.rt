//! Tests of what connects a server to its clients, over real sockets of one process. They stand in a crate of their own,
//! since a crate with tests inside is proved once more with them.
#![tactic(auto)]

#[cfg(test)]
mod entrance;
#[cfg(test)]
mod feeding;
#[cfg(test)]
mod sockets;
