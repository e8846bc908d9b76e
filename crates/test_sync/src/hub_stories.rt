//! Where a server sends to, instances of both versions and those that only watch, and datagrams that no core wrote.
use crate::hub_stage::first_wrong;
use std::test::*;

const STORIES: &str = "\
Replies go to the latest number: the first datagram comes again after the second.
session 4 8
start new a1
tick 0 0
up 1 5001 0: 0
tick 0 3000
up 2 6001 3000: 0
up 1 5001 3001: 0
serve 3001: 6001

A server refuses numbers that nobody made, and the sender stays: its first screen goes out.
session 4 8
# State 9 was never made.
forge 524d 01 02 0000000000000001 00000000000000a1 0000000000000001 0000000000000001 0000 0001 0012 \
0000000000000009 0000000000000001 0000
up 1 5001 0: 0
# No number is as great as 2^62: the acknowledged state, the first act, the datagram.
forge 524d 01 02 0000000000000001 00000000000000a1 0000000000000002 0000000000000002 0000 0001 0012 \
4000000000000000 0000000000000001 0000
up 2 5001 0: length
forge 524d 01 02 0000000000000001 00000000000000a1 0000000000000002 0000000000000002 0000 0001 0012 \
0000000000000000 4000000000000000 0000
up 3 5001 0: length
forge 524d 01 02 0000000000000001 00000000000000a1 4000000000000000 0000000000000002 0000 0001 0012 \
0000000000000000 0000000000000001 0000
up 4 5001 0: fragment
serve 0: 5001

A client start refuses half a character, and takes a blank screen of 2 by 8 under the same id.
session 4 8
start old a1
# A lone right half.
forge 524d 01 01 0000000000000001 00000000000000a1 0000000000000001 0000000000000001 0000 0001 003b \
0000000000000000 0000000000000005 0000000000000000 0000000000000000 00020008000100010100000001 0000000000000001 000000000000
down 0 1 0: bad change
shown 0 0
forge 524d 01 01 0000000000000001 00000000000000a1 0000000000000001 0000000000000001 0000 0001 002d \
0000000000000000 0000000000000005 0000000000000000 0000000000000000 00020008000100010100000000
down 0 2 0: new
shown 0 5

A watcher is shown screens and types nothing.
session 4 8
start watching a1
type 0: watching
tick 0 0
bytes 1 524d 02 03 0000000000000001 00000000000000a1 0000000000000001 0000000000000001 0000 0001 0012 \
0000000000000000 0000000000000001 0000
up 1 5001 0: 0
serve 0: 5001
down 0 2 0: new
face 0 1

A record keeps its version and its kind: starts of one id.
session 4 8
come old a1: 0
come new a1: version
come watching a1: version
come new b1: 0
come watching b1: kind
come watching c1: 0

A client takes its own version: what goes to the start a1, of version 1, is nobody else's.
session 4 8
start old a1
tick 0 0
up 1 5001 0: 0
serve 0: 5001
start new a1
down 1 2 0: version
start new a2
down 2 2 0: other client
down 0 2 0: new
face 0 1

Acts of a watcher are none: a split to the right is refused, and its datagram without one is heard.
session 24 80
forge 524d 02 03 0000000000000001 00000000000000a1 0000000000000001 0000000000000001 0000 0001 0013 \
0000000000000000 0000000000000001 0001 10
up 1 5001 0: length
forge 524d 02 03 0000000000000001 00000000000000a1 0000000000000001 0000000000000001 0000 0001 0012 \
0000000000000000 0000000000000001 0000
up 2 5001 0: 0
lacks 2

Watchers and others are counted apart.
session 4 8
fill watching 0 16
come watching 10: clients full
fill new 16 64
come old 50: clients full
known 64 16

Several letters at once are all typed, or none.
session 4 8
start watching a1
types 0 0: watching
start new b1
types 1 0: typed
types 1 1025: busy
held 1 0
types 1 1000: typed
types 1 25: busy
types 1 24: typed
type 1: busy
held 1 1024
# The first instruction has 64 of them, and comes.
tick 1 0
up 1 5001 0: 64
serve 0: 5001
down 1 2 0: new
held 1 960

A server waits for what is next: a number at once where none was made, 20 ms after the last where an input came.
session 4 8
next: 0
serve 100
next: never
start new a1
tick 0 0
# A record may be offered number 1 at once.
up 1 5001 150: 0
next: 0
serve 150: 5001
# Sent again after 250 ms.
next: 400
serve 399
next: 400
serve 400: 5001
next: 650
down 0 2 400: new
tick 0 500
# Number 1 is acknowledged: the heartbeat after 3,000 ms is left.
up 4 5001 500: 0
next: 3400
# An act that is taken is an input, and an answer is owed for it: number 2 is due at once.
type 0: typed
tick 0 510
up 5 5001 510: 1
next: 0
serve 510: 5001
next: 760
# One more act: number 3 not before 20 ms passed.
down 0 6 511: new
type 0: typed
tick 0 515
up 7 5001 515: 1
next: 530
serve 529
next: 530
serve 530: 5001
next: 780

A start that isn't heard of gives no moment once its 60,000 ms run out before it.
session 4 8
start new a1
tick 0 0
up 1 5001 0: 0
serve 0: 5001
next: 250
serve 59700: 5001
next: 59950
serve 59949
serve 59950: 5001
# Sent again at 60,200, where it is forgotten since 60,000.
next: never
serve 60200
# Heard of again it is sent to at once.
tick 0 3000
up 5 5001 60300: 0
next: 0
serve 60300: 5001
next: 60550

An answer is owed for 100 ms where nothing else is to be sent.
session 4 8
serve 0
start new a1
tick 0 0
up 1 5001 100: 0
serve 100: 5001
down 0 2 100: new
type 0: typed
tick 0 105
up 3 5001 105: 1
serve 105: 5001
# The act comes again, with the acknowledgement of number 2.
forge 524d 02 02 0000000000000001 00000000000000a1 0000000000000003 0000000000000003 0000 0001 0017 \
0000000000000002 0000000000000001 0001 0100000061
up 5 5001 200: 0
next: 300
serve 299
next: 300
serve 300: 5001
next: 3300

A client start waits for what is next.
session 4 8
start new a1
# Nothing was ever sent.
wakes 0: 0
tick 0 10
# A heartbeat after 3,000 ms.
wakes 0: 3010
# An act that was never sent is due at once, and again 250 ms after it was sent.
type 0: typed
wakes 0: 0
tick 0 20
wakes 0: 270
up 1 5001 20: 0
up 2 5001 20: 1
serve 20: 5001
# The act is acknowledged, and the answer to a new screen is owed for 100 ms.
down 0 3 25: new
wakes 0: 125
tick 0 125
wakes 0: 3125

Version 1 is shown the first rows and columns of a session of 200 by 500, and version 2 all.
session 200 500
start old a1
start new b1
tick 0 0
up 1 5001 0: 0
tick 1 0
up 2 5002 0: 0
serve 0: any
all 0 5001
all 1 5002
shown 0 1
size 0 100 250
face 1 1";

#[test]
fn stories_go_as_told(rt: HostRuntime) {
    assert_eq!(rt; first_wrong(rt.alloc(), STORIES), None);
}
