//! How programs of one machine reach each other: UDP on loopback, streams that carry datagrams, the files of sockets; and how they wait.
#![tactic(auto)]

mod arrivals;
mod chance;
mod clients;
mod files;
mod lanes;
pub mod laws;
mod moments;
mod pace;
mod udp;
mod waits;

pub use arrivals::{Arrivals, next_by_turns};
pub use chance::random_id;
pub use clients::{Clients, address_of};
pub use files::{FolderFault, listen, listen_again, may_hold, own_folder, try_listen, write_alone};
pub use moments::Moments;
pub use udp::{Udp, loopback, try_port};
pub use waits::{SHORT_WAIT, Waits, wait_for, wait_until};
