//! A caller of `roam_stream_framing`, as its README shows it (`tools/worked_callers`).

// README: begin
use roam_stream_framing::Carrier;
use std::alloc::Global;
use std::io::{Read, Write};

/// Sends a datagram over a stream, and answers whether it was queued.
pub fn send_over<S: Read + Write + Drop>(alloc: Global, stream: S, datagram: &[u8]) -> bool {
    let mut carrier = Carrier::new(alloc, stream);
    let is_queued = carrier.send(datagram);
    carrier.flush();
    is_queued
}
// README: end
