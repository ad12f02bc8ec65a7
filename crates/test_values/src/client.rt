//! Clients that are fed lines by hand: what they show, what corrects it, and what makes them gone.

mod gone;
mod lines;
mod steps;
mod tickets;
