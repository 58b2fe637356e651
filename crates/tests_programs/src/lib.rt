//! The tests of server and world, and of the programs' functions, over public calls.
#![tactic(auto)]

#[cfg(test)]
mod expect;
#[cfg(test)]
mod fault_rows;
#[cfg(test)]
mod faulty_streams;
#[cfg(test)]
mod flow_rows;
#[cfg(test)]
mod play_rows;
#[cfg(test)]
mod port_rows;
#[cfg(test)]
mod random_rows;
#[cfg(test)]
mod read_rows;
#[cfg(test)]
mod served;
#[cfg(test)]
mod server_write_rows;
#[cfg(test)]
mod show_rows;
#[cfg(test)]
mod store_rows;
#[cfg(test)]
mod stores;
#[cfg(test)]
mod udp_lines;
#[cfg(test)]
mod waiting_rows;
