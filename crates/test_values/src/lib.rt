//! Tests of values that no case can show: clients that are fed by hand, sources, sinks and links of which some calls fail, records on a disk
//! of which some calls fail, lines that stand in no text of rows, short texts, and a trail over a machine that counts how often it steps.
#![tactic(auto)]

#[cfg(test)]
mod adder;
#[cfg(test)]
mod client;
#[cfg(test)]
mod edges;
#[cfg(test)]
mod links;
#[cfg(test)]
mod records;
#[cfg(test)]
mod shorts;
#[cfg(test)]
mod trails;
