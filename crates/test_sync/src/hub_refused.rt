//! Cores without memory: a refused call changes nothing, and is made once more with the same bytes (`hub_calls`).
use crate::hub_stage::first_wrong;
use std::test::*;

// The acts are the letters a and b, and a split to the right.
const REFUSED: &str = "\
A datagram with three acts of a start of version 1, and one with none of another start; both show the face.
session 4 9
start old a1
start new b1
forge 524d 01 02 0000000000000001 00000000000000a1 0000000000000001 0000000000000001 0000 0001 001d \
0000000000000000 0000000000000001 0003 0100000061 0100000062 10
up 1 5001 0: 3
tick 1 0
up 2 5002 0: 0
waits 1 ab
waits 2
serve 0: 5001 5002
down 0 3 0: new
down 1 4 0: new
face 0 1
face 1 1";

// With ample memory nothing is refused. To be run with each of its allocations refused in turn, too.
#[test]
fn what_memory_refuses_comes_later(rt: HostRuntime) {
    assert_eq!(rt; first_wrong(rt.alloc(), REFUSED), None);
}
