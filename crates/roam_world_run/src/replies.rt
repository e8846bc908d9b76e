//! The replies of a world, as text.
ghost use Rattle.std.specs.Prelude.{◌≡◌, ◌++◌, OnOk, codes, decimal, string_bytes};
ghost use Rattle.roam_hub.specs.Clients.{hearing_in};
ghost use Rattle.roam_simulation.specs.Events.{reply_of};
ghost use Rattle.roam_world_run.specs.Replies.{heard_line, number_of, reply_line, sent_line, stop_line};

use roam_cells::Fault;
use roam_hub::{Heard, Stop};
use roam_show::{push_number, push_numbered};
use roam_simulation::Reply;
use std::alloc::AllocError;

/// The number of a refusal.
pub(crate) fn number_of(fault: Fault) -> u8
    ensures number { result ≡ number_of fault }
{
    match fault {
        Fault::OutOfMemory => 1,
        Fault::BadSize => 2,
        Fault::TooSmall => 3,
        Fault::NoPane => 4,
        Fault::PanesFull => 5,
        Fault::LastPane => 6,
        Fault::Busy => 7,
        Fault::TooLong => 8,
        Fault::BadDatagram(_) => 9,
        Fault::OtherSession => 10,
        Fault::OtherClient => 11,
        Fault::ClientsFull => 12,
        Fault::BadChange => 13,
        Fault::SendFull => 14,
        Fault::Spent => 15,
        Fault::BadAct => 16,
        Fault::Watching => 17,
    }
}

// Returns the kind of a datagram to a client instance, as a line.
fn heard_line(heard: Heard) -> &'static str
    ensures line { result.now ≡ heard_line (hearing_in heard) }
{
    match heard {
        Heard::Part => "part\n",
        Heard::Old => "old\n",
        Heard::Gap => "gap\n",
        Heard::New => "new\n",
    }
}

// Adds the numbers of the first and the last of the datagrams that were sent.
fn push_sent(text: &mut String, first: u64, count: u64) -> Result<(), AllocError>
    ensures text { OnOk result (string_bytes text.new ≡ string_bytes text.old ++ sent_line first count) }
{
    if count == 0 {
        return text.push_str("sent none\n");
    }
    let last = first as u128 + (count - 1) as u128;
    push_number(text, "sent ", first)?;
    push_numbered(text, "-", last)
}

// Adds a refusal's number, and how many acts were taken before.
fn push_counted(text: &mut String, number: u8, taken: usize) -> Result<(), AllocError>
    ensures text { OnOk result (string_bytes text.new ≡ string_bytes text.old
        ++ (codes "E" ++ decimal number ++ codes " " ++ decimal taken ++ codes "\n")) }
{
    push_number(text, "E", number)?;
    push_numbered(text, " ", taken)
}

// Appends the reason for which a datagram to the server was refused; if it stopped at an act, how many were taken before.
fn push_stop(text: &mut String, stop: Stop) -> Result<(), AllocError>
    ensures text { OnOk result (string_bytes text.new ≡ string_bytes text.old ++ stop_line stop.fault stop.taken) }
{
    let number = number_of(stop.fault);
    match stop.fault {
        Fault::OutOfMemory | Fault::Busy => push_counted(text, number, stop.taken),
        _ => push_numbered(text, "E", number),
    }
}

/// Adds the line of a reply.
pub(crate) fn push_reply(text: &mut String, reply: Reply) -> Result<(), AllocError>
    ensures text { OnOk result (string_bytes text.new ≡ string_bytes text.old ++ reply_line (reply_of reply)) }
{
    match reply {
        Reply::Done => text.push_str("ok\n"),
        Reply::Sent(first, count) => push_sent(text, first, count),
        Reply::Taken(count) => push_numbered(text, "ok ", count),
        Reply::Heard(heard) => text.push_str(heard_line(heard)),
        Reply::Refused => text.push_str("refused\n"),
        Reply::Fault(fault) => push_numbered(text, "E", number_of(fault)),
        Reply::Stopped(stop) => push_stop(text, stop),
    }
}
