//! A lossy network between one TFTP server and its clients, and what holds of every run of it.
//!
//! It opens no socket, reads no clock and touches no file.
//!
//! Begin with [`World`]: each [`Event`] is one call, and each datagram that was sent can be
//! delivered.
#![tactic(auto)]

mod client;
mod client_sink;
mod datagram;
mod effect;
mod ends;
mod event;
mod fault;
mod hosts;
pub mod laws;
mod played_end;
mod player;
mod random;
mod report;
mod room;
mod server_end;
mod simulation;
mod world;

pub use datagram::Datagram;
pub use event::Event;
pub use fault::WorldFault;
pub use random::draw;
pub use report::Report;
pub use world::World;
