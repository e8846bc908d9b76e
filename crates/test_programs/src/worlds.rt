//! The output of `roam world`: scripts with the answers of the rules, and the errors of a run.
use crate::streams::{Cut, Narrow, text_of, told};
use roam_faults::RunFault;
use roam_world_run::run_world;
use std::alloc::{AllocError, Global};
use std::test::*;

// Stories with an empty line between them: a name, and then a script, each of its lines after `> `, and below each its output.
const STORIES: &str = "\
a screen comes newest first, and an older one is old
> session 1 4 8
ok
> start 0 a1
ok
> ctick 0 0
sent 1-1
> up 1 5001 0
ok 0
> stick 0
sent 2-2
> pane 1 61
ok
> stick 20
sent 3-3
> pane 1 62
ok
> stick 40
sent 4-4
> pane 1 63
ok
> stick 60
sent 5-5
> down 0 5 60
new
> down 0 4 70
old
> show 0
state 4
|abc     |
|        |
|        |
|[1]     |
cursor 1 4 shown

acts are taken once, over repeats and a restart of the client
> session 1 4 8
ok
> start 0 a1
ok
> type 0 char 61
ok
> type 0 char 62
ok
> ctick 0 0
sent 1-1
> up 1 5001 0
ok 2
> up 1 5001 0
ok 0
> up 1 5001 0
ok 0
> start 0 a2
ok
> type 0 char 63
ok
> ctick 0 10
sent 2-2
> up 2 5002 10
ok 1
> up 1 5001 20
ok 0
> out 1
616263
> stick 20
sent 3-4
> down 0 3 20
E11
> down 0 4 20
new

a client that hears nothing is offered eight states, and then the screen of its own number
> session 1 4 8
ok
> start 0 a1
ok
> start 1 b1
ok
> ctick 0 0
sent 1-1
> ctick 1 0
sent 2-2
> up 1 5001 0
ok 0
> up 2 5002 0
ok 0
> stick 0
sent 3-4
> pane 1 61
ok
> stick 20
sent 5-6
> pane 1 62
ok
> stick 40
sent 7-8
> pane 1 63
ok
> stick 60
sent 9-10
> pane 1 64
ok
> stick 80
sent 11-12
> pane 1 65
ok
> stick 100
sent 13-14
> pane 1 66
ok
> stick 120
sent 15-16
> down 1 16 120
new
> ctick 1 120
sent none
> ctick 1 220
sent 17-17
> up 17 5002 220
ok 0
> pane 1 67
ok
> stick 220
sent 18-18
> down 1 18 220
new
> show 1
state 8
|abcdefg |
|        |
|        |
|[1]     |
cursor 1 8 shown
> stick 370
sent 19-19
> down 0 19 370
new
> show 0
state 7
|abcdef  |
|        |
|        |
|[1]     |
cursor 1 7 shown

layout commands that the layout refuses are taken
> session 1 4 17
ok
> start 0 a1
ok
> type 0 split right
ok
> type 0 split right
ok
> type 0 split down
ok
> type 0 close
ok
> type 0 close
ok
> ctick 0 0
sent 1-1
> up 1 5001 0
ok 5
> face
|                 |
|                 |
|                 |
|[1]              |
cursor 1 1 shown
> pane 9 61
E4
> out 9
E4
> down 0 9 0
refused
> show 1
refused
> type 1 next
refused
> start 1 a1
refused
> out 1
-

a late datagram from an old address changes nothing
> session 1 4 8
ok
> start 0 a1
ok
> ctick 0 0
sent 1-1
> up 1 5001 0
ok 0
> ctick 0 3000
sent 2-2
> up 2 6001 3000
ok 0
> up 1 5001 3001
ok 0

empty lines and lines that begin with # are skipped, and ids are hexadecimal in either case
> 
> # a session
> session FfFf 4 8
ok
> 
> #
> start 7 0000000000000Ab1
ok
> start 6 AB1
refused
> pane 1 4aFf
ok
> face
|J\u{FFFD}      |
|        |
|        |
|[1]     |
cursor 1 3 shown

a watcher is shown screens and types nothing
> session 1 4 8
ok
> watch 0 a1
ok
> type 0 char 61
E17
> ctick 0 0
sent 1-1
> up 1 5001 0
ok 0
> stick 0
sent 2-2
> down 0 2 0
new
> show 0
state 1
|        |
|        |
|        |
|[1]     |
cursor 1 1 shown

clients of both versions show one screen
> session 1 4 8
ok
> start 0 a1 1
ok
> start 1 b1 2
ok
> ctick 0 0
sent 1-1
> ctick 1 0
sent 2-2
> up 1 5001 0
ok 0
> up 2 5002 0
ok 0
> pane 1 61
ok
> stick 0
sent 3-4
> down 0 3 0
new
> down 1 4 0
new
> show 0
state 1
|a       |
|        |
|        |
|[1]     |
cursor 1 2 shown
> show 1
state 1
|a       |
|        |
|        |
|[1]     |
cursor 1 2 shown

sizes beyond the limits are taken and do nothing
> session 1 4 8
ok
> start 0 a1
ok
> type 0 size 201 80
ok
> type 0 size 200 501
ok
> type 0 size 3 8
ok
> ctick 0 0
sent 1-1
> up 1 5001 0
ok 3
> face
|        |
|        |
|        |
|[1]     |
cursor 1 1 shown

a script of no events prints nothing
> # nothing
> ";

fn push_line(text: &mut String, line: &str) -> Result<(), AllocError> {
    text.push_str(line)?;
    text.push('\n')
}

/// A script and its output.
#[derive(Drop)]
struct Told {
    script: String,
    printed: String,
}

impl Told {
    fn new(alloc: Global) -> Told {
        Told {
            script: String::new(alloc),
            printed: String::new(alloc),
        }
    }

    fn add(&mut self, line: &str) -> Result<(), AllocError> {
        match line.strip_prefix("> ") {
            Some(rest) => push_line(&mut self.script, rest),
            None => push_line(&mut self.printed, line),
        }
    }

    // Adds lines, so many times.
    fn add_times(&mut self, lines: &str, times: u32) -> Result<(), AllocError> {
        for _ in 0..times {
            for line in lines.lines() {
                self.add(line)?;
            }
        }
        Ok(())
    }

    // Returns the output of the script in pieces of this size, and then its error, if it has one.
    fn printed_by(&self, alloc: Global, size: usize) -> Result<String, AllocError> {
        let mut out = Vec::new(alloc);
        let mut pieces = Cut::new(self.script.as_bytes(), size, size);
        let ran = run_world(alloc, &mut pieces, &mut out);
        told(alloc, &out, ran)
    }

    // Returns the same of the first size of pieces for which it is not the expected output, or else the expected one.
    fn first_printed(&self, alloc: Global) -> Result<String, AllocError> {
        for size in [1024, 1] {
            let found = self.printed_by(alloc, size)?;
            if found.as_str() != self.printed.as_str() {
                return Ok(found);
            }
        }
        self.printed_by(alloc, 7)
    }
}

fn story_of(alloc: Global, lines: &str) -> Result<Told, AllocError> {
    let mut told = Told::new(alloc);
    told.add_times(lines, 1)?;
    Ok(told)
}

#[test]
fn stories(rt: HostRuntime) -> Result<(), Fail> {
    for case in STORIES.split("\n\n") {
        match case.split_once('\n') {
            Some((name, lines)) => {
                let story = story_of(rt.alloc(), lines)?;
                let found = story.first_printed(rt.alloc())?;
                assert_eq!(rt; found.as_str(), story.printed.as_str(), "{name}");
            }
            None => panic!(rt; "malformed case: {case}"),
        }
    }
    Ok(())
}

// Lines after `session 1 4 8` that end a run, each by itself; a bar is behind each but the last.
const BAD: &str = "\
face |
 face|
Face|
faces|
face\r|
 |
session 1 4 8|
nothing|
start 0|
start 0 |
start 8 a1|
start 0 g1|
start 0 0x1|
start 0 +1|
start 0 12345678901234567|
start  0 a1|
start 0 a1 0|
start 0 a1 3|
start 0 a1 01|
start 0 a1 1 |
watch 0|
watch 8 a1|
watch 0 a1 2|
pane 1|
pane 1 |
pane 1 6|
pane 1 6g|
pane 256 61|
pane 01 61|
pane 1 61 |
type 0 |
type 0 grow +1|
type 0 focus 10|
type 8 next|
type 0|
stick -1|
stick 18446744073709551616|
stick 0 0|
ctick 0|
ctick 8 0|
up 1 65536 0|
up 1 5001|
down 8 1 0|
drained 1 +1|
show 8|
out 256|
out";

// Scripts that don't begin with a session, or with a refused one: their error, and a script; a bar is behind each but the last.
const STARTS: &str = "\
line 1: bad event: face\nsession 1 4 8\n|
line 3: bad event: \n#\nstick 0|
line 1: bad event: session 1 4\n|
line 1: bad event: session 10000000000000000 4 8\n|
bad size: session 1 3 8\nface\n|
bad size: session 1 4 501";

// Returns the output of a script, and then its error, if it has one.
fn printed_of(alloc: Global, script: &str) -> Result<String, AllocError> {
    let mut out = Vec::new(alloc);
    let ran = run_world(alloc, &mut script.as_bytes(), &mut out);
    told(alloc, &out, ran)
}

// Returns the same of a line that is the second of a script.
fn printed_in_the_middle(alloc: Global, line: &str) -> Result<String, AllocError> {
    let script = format!(in alloc; "session 1 4 8\n{line}\nface\n")?;
    printed_of(alloc, script.as_str())
}

// Returns the same of a line that is the last of a script.
fn printed_at_the_end(alloc: Global, line: &str) -> Result<String, AllocError> {
    let script = format!(in alloc; "session 1 4 8\n\n# two lines that are skipped\n{line}")?;
    printed_of(alloc, script.as_str())
}

#[test]
fn bad_lines_end_a_run(rt: HostRuntime) -> Result<(), Fail> {
    for line in BAD.split("|\n") {
        let found = printed_in_the_middle(rt.alloc(), line)?;
        assert_eq!(rt; found.as_str(), "ok\nerror: line 2: bad event", "{line:?}");
        let found = printed_at_the_end(rt.alloc(), line)?;
        assert_eq!(rt; found.as_str(), "ok\nerror: line 4: bad event", "{line:?}");
    }
    Ok(())
}

#[test]
fn bad_starts_end_a_run(rt: HostRuntime) -> Result<(), Fail> {
    for case in STARTS.split("|\n") {
        match case.rsplit_once(": ") {
            Some((error, script)) => {
                let wanted = format!(in rt.alloc(); "error: {error}")?;
                let found = printed_of(rt.alloc(), script)?;
                assert_eq!(rt; found, wanted, "{script:?}");
            }
            None => panic!(rt; "malformed case: {case:?}"),
        }
    }
    Ok(())
}

// Appends a line with 341 requests for attributes and its output, so many times.
fn add_requests(
    alloc: Global,
    told: &mut Told,
    answer: &str,
    times: u32,
) -> Result<(), AllocError> {
    let mut line = String::from_str(alloc, "> pane 1 ")?;
    for _ in 0..341 {
        line.push_str("1b5b63")?;
    }
    line.push('\n')?;
    line.push_str(answer)?;
    told.add_times(line.as_str(), times)
}

// 20 pieces of 341 requests for attributes, each with an answer of 8 bytes, and 1,368 single ones leave 32 of 65,536 bytes free; a key of
// F6 has 5 bytes.
fn full_queue(alloc: Global) -> Result<Told, AllocError> {
    let mut told = Told::new(alloc);
    told.add_times("> session 1 4 8\nok", 1)?;
    add_requests(alloc, &mut told, "ok", 20)?;
    add_requests(alloc, &mut told, "E7", 1)?;
    told.add_times("> pane 1 1b5b63\nok", 1368)?;
    told.add_times("> pane 1 1b5b63\nE7\n> start 0 a1\nok", 1)?;
    told.add_times("> type 0 key f6\nok", 10)?;
    told.add_times(AFTER_THE_QUEUE, 1)?;
    Ok(told)
}

const AFTER_THE_QUEUE: &str =
    "> ctick 0 0\nsent 1-1\n> up 1 5001 0\nE7 6\n> drained 1 100\nok\n> up 1 5001 10\nok 4\n> up 1 5001 10\nok 0";

fn add_start(alloc: Global, told: &mut Told, number: u32) -> Result<(), AllocError> {
    let answer = if number == 65 { "E12" } else { "ok 0" };
    let lines = format!(in alloc;
        "> start 0 {number:x}\nok\n> ctick 0 0\nsent {number}-{number}\n> up {number} 5001 0\n{answer}"
    )?;
    told.add_times(lines.as_str(), 1)
}

// 65 instances send to the server; the last is one too many, and the first is still known.
fn many_starts(alloc: Global) -> Result<Told, AllocError> {
    let mut told = Told::new(alloc);
    told.add_times("> session 1 4 8\nok", 1)?;
    for number in 1..66u32 {
        add_start(alloc, &mut told, number)?;
    }
    told.add_times("> up 1 5001 0\nok 0", 1)?;
    Ok(told)
}

#[test]
fn a_full_queue_stops_at_an_act(rt: HostRuntime) -> Result<(), Fail> {
    let queue = full_queue(rt.alloc())?;
    let found = queue.printed_by(rt.alloc(), 1024)?;
    assert_eq!(rt; found.as_str(), queue.printed.as_str());
    Ok(())
}

#[test]
fn a_65th_start_is_refused(rt: HostRuntime) -> Result<(), Fail> {
    let starts = many_starts(rt.alloc())?;
    let found = starts.printed_by(rt.alloc(), 1024)?;
    assert_eq!(rt; found.as_str(), starts.printed.as_str());
    Ok(())
}

// The answer `ok` is one call and a flush.
#[test]
fn a_write_that_fails_ends_a_script(rt: HostRuntime) {
    for fails_at in 0..4u32 {
        let mut writer = Narrow { calls: 0, fails_at };
        let ran = run_world(rt.alloc(), &mut b"session 1 4 8\n".as_slice(), &mut writer);
        let wanted = if fails_at == 1 || fails_at == 2 {
            Err(RunFault::Write)
        } else {
            Ok(())
        };
        assert_eq!(rt; ran, wanted, "call {fails_at}");
    }
}

#[test]
fn a_read_that_fails_ends_a_script(rt: HostRuntime) -> Result<(), Fail> {
    let mut reader = Cut::new(b"session 1 4 8\nface\n", 14, 14);
    reader.fails_at = 2;
    let mut out = Vec::new(rt.alloc());
    let ran = run_world(rt.alloc(), &mut reader, &mut out);
    let found = text_of(rt.alloc(), &out)?;
    assert_eq!(rt; ran, Err(RunFault::Read), "read 2");
    assert_eq!(rt; found.as_str(), "ok\n", "read 2");
    Ok(())
}
