//! Tests of the server: rooms that are kept on disks in memory, links that wait for each other, a session over a WebSocket byte by byte, and what a
//! keeper tells from outside.
#![tactic(auto)]

#[cfg(test)]
mod frames;
#[cfg(test)]
mod keeps;
#[cfg(test)]
mod meetings;
#[cfg(test)]
mod serving;
#[cfg(test)]
mod statuses;
#[cfg(test)]
mod watches;
