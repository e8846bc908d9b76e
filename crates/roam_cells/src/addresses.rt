//! Where datagrams come from and go to.

/// The address of a socket: an IPv4 address and a port.
#[derive(Clone, Copy, Debug, PartialEq, Eq)]
pub struct Addr {
    pub host: [u8; 4],
    pub port: u16,
}
