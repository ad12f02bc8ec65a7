//! Tests of threads and sockets: the turn lock, links in memory that are served turn by turn, links over sockets, and many of these at one
//! worker. A test that waits or that is a load stands in the quick run.
#![tactic(auto)]

#[cfg(test)]
mod desk;
#[cfg(test)]
mod echo;
#[cfg(test)]
mod kept_back;
#[cfg(test)]
mod peers;
#[cfg(test)]
mod polls;
#[cfg(test)]
mod rounds;
#[cfg(test)]
mod serving;
#[cfg(test)]
mod sockets;
