//! Sources, sinks, links and doors, in memory and over the readers and writers of the system, of which some calls fail.

mod doors;
mod peers;
mod streams;
