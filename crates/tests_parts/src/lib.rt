//! The tests of packets, options, the file layer and one end of a transfer, over their public calls.
//!
//! A table is a `static`, since a function that names a constant with references has all of it in
//! its proof. A helper drops a packet, a path or a source by a call of `drop`: at the end of a scope
//! the proof of the helper would contain the drop of each part.
#![tactic(auto)]

#[cfg(test)]
mod ahead_rows;
#[cfg(test)]
mod append_rows;
#[cfg(test)]
mod asked_rows;
#[cfg(test)]
mod backoff_rows;
#[cfg(test)]
mod calls;
#[cfg(test)]
mod end_rows;
#[cfg(test)]
mod expect;
#[cfg(test)]
mod fault_end_rows;
#[cfg(test)]
mod fault_rows;
#[cfg(test)]
mod lending_rows;
#[cfg(test)]
mod memory_rows;
#[cfg(test)]
mod netascii_end_rows;
#[cfg(test)]
mod netascii_rows;
#[cfg(test)]
mod oack_rows;
#[cfg(test)]
mod open_end;
#[cfg(test)]
mod option_end_rows;
#[cfg(test)]
mod option_rows;
#[cfg(test)]
mod packet_rows;
#[cfg(test)]
mod path_rows;
#[cfg(test)]
mod stream_rows;
#[cfg(test)]
mod write_rows;
#[cfg(test)]
mod wrong_rows;
