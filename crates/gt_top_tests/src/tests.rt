//! What no clause says: that memory suffices, and how the answers read.

use crate::conds::CONDS;
use crate::contexts::CONTEXTS;
use crate::selects::SELECTS;
use crate::syncs::SYNCS;
use gt_io::{SureSink, SureSource};
use gt_model::Outcome;
use gt_script::{ScriptFault, Why};
use gt_top::{Status, WordFault, calm};
use std::alloc::Global;
use std::test::Fail;

/// The status of a call with these words and this input, and what it wrote.
fn answer(alloc: Global, words: &[&str], input: &str) -> Result<(Status, Vec<u8>), Fail> {
    let mut owned = Vec::new(alloc);
    for word in words {
        owned.push(String::from_str(alloc, word)?)?;
    }
    let mut source = SureSource::of(Vec::from_slice(alloc, input.as_bytes())?);
    let mut sink = SureSink::with_room(alloc, 100_000)?;
    let status = calm(alloc, owned.as_slice(), &mut source, &mut sink);
    Ok((status, Vec::from_slice(alloc, sink.bytes())?))
}

const SIM: &[&str] = &["sim"];

/// Scripts without their first line, their traces, and the outcomes.
const RUNS: &[(&str, &str, Outcome)] = &[
    (
        "func main\nsleep 5ms\nnow\nend\n",
        "sleep g1 5000000\nclock 0 5000000\nwake g1\nnow g1 5000000\nend g1\nexit\n",
        Outcome::Exit,
    ),
    ("func main\nend\n", "end g1\nexit\n", Outcome::Exit),
    // loops in loops, and one with no pass
    (
        "func main\nloop 2\nsay 1\nloop 0\nsay 2\nend\nloop 2\nsay 3\nend\nend\nend\n",
        "say g1 1\nsay g1 3\nsay g1 3\nsay g1 1\nsay g1 3\nsay g1 3\nend g1\nexit\n",
        Outcome::Exit,
    ),
    // a time past the greatest one
    (
        "func main\nsleep 9223372036854ms\nsleep 1ms\nsleep 1ms\nend\n",
        "sleep g1 9223372036854000000\nclock 0 9223372036854000000\nwake g1\n\
         sleep g1 9223372036854775807\nclock 0 9223372036854775807\nwake g1\n\
         sleep g1 9223372036854775807\nwake g1\nend g1\nexit\n",
        Outcome::Exit,
    ),
    // a timer whose time has passed, and whose value nobody took, was set
    (
        "timer t\nfunc main\nnew t 1ms\nsleep 5ms\nstop t\nend\n",
        "new g1 t 1000000\nsleep g1 5000000\nclock 0 5000000\nwake g1\nstop g1 t true\nend g1\nexit\n",
        Outcome::Exit,
    ),
    (
        "timer t\nfunc main\nnew t 1ms\nrecv t\nstop t\nend\n",
        "new g1 t 1000000\nclock 0 1000000\ntrecv g1 t 1000000 -\nstop g1 t false\nend g1\nexit\n",
        Outcome::Exit,
    ),
    // no value of the setting that a reset ended
    (
        "timer t\nfunc main\nnew t 1ms\nsleep 5ms\nreset t 10ms\nrecv t\nend\n",
        "new g1 t 1000000\nsleep g1 5000000\nclock 0 5000000\nwake g1\nreset g1 t true 15000000\n\
         clock 0 15000000\ntrecv g1 t 15000000 -\nend g1\nexit\n",
        Outcome::Exit,
    ),
    (
        "timer t\nfunc main\nsleep 5ms\nnew t 9223372036854775807ns\nstop t\nend\n",
        "sleep g1 5000000\nclock 0 5000000\nwake g1\nnew g1 t 9223372036854775807\nstop g1 t true\nend g1\nexit\n",
        Outcome::Exit,
    ),
    // a timer that nobody can set again
    (
        "timer t\nfunc main\nnew t 1ms\nstop t\nrecv t\nend\n",
        "new g1 t 1000000\nstop g1 t true\ndeadlock\n",
        Outcome::Deadlock,
    ),
    // an AfterFunc timer that is set keeps the run from its deadlock until it fires
    (
        "timer t\nafterfunc f hit\nfunc main\nnew t 1h\nstop t\nnew f 2ms\nrecv t\nend\nfunc hit\nsay 5\nend\n",
        "new g1 t 3600000000000\nstop g1 t true\nnew g1 f 2000000\nclock 0 2000000\nfire f g2\nsay g2 5\nend g2\ndeadlock\n",
        Outcome::Deadlock,
    ),
    // a goroutine that waits at a timer which another one resets
    (
        "timer t\nfunc main\nnew t 10ms\ngo b\nrecv t\nend\nfunc b\nreset t 1ms\nend\n",
        "new g1 t 10000000\ngo g1 g2 b\nreset g2 t true 1000000\nend g2\nclock 0 1000000\ntrecv g1 t 1000000 -\nend g1\nexit\n",
        Outcome::Exit,
    ),
    // goroutines run in the order in which they were started
    (
        "func main\ngo a\ngo a\nsleep 1ms\nend\nfunc a\nsleep 0\nsay 1\nsleep 1ms\nsay 2\nend\n",
        "go g1 g2 a\ngo g1 g3 a\nsleep g1 1000000\nsleep g2 -\nsay g2 1\nsleep g2 1000000\nsleep g3 -\nsay g3 1\n\
         sleep g3 1000000\nclock 0 1000000\nwake g1\nend g1\nexit\n",
        Outcome::Exit,
    ),
    // a ticker: who comes late finds one tick, and the next one keeps to the beat
    (
        "ticker k\nfunc main\nnew k 10ms\nsleep 35ms\nrecv k\nrecv k\nend\n",
        "new g1 k 10000000\nsleep g1 35000000\nclock 0 35000000\nwake g1\ntrecv g1 k 10000000 40000000\n\
         clock 0 40000000\ntrecv g1 k 40000000 50000000\nend g1\nexit\n",
        Outcome::Exit,
    ),
    (
        "ticker k\nfunc main\nnew k 10ms\ngo b\nrecv k\nstop k\nrecv k\nend\nfunc b\nreset k 5ms\nend\n",
        "new g1 k 10000000\ngo g1 g2 b\nreset g2 k - 5000000\nend g2\nclock 0 5000000\ntrecv g1 k 5000000 10000000\n\
         stop g1 k -\ndeadlock\n",
        Outcome::Deadlock,
    ),
    (
        "ticker k\nfunc main\nnew k 0\nend\n",
        "panic g1 ticker\npanic\n",
        Outcome::Panic,
    ),
    (
        "ticker k\nfunc main\nnew k 1ms\nreset k 0\nend\n",
        "new g1 k 1000000\npanic g1 ticker\npanic\n",
        Outcome::Panic,
    ),
    (
        "timer t\nfunc main\nstop t\nend\n",
        "panic g1 unmade\npanic\n",
        Outcome::Panic,
    ),
    (
        "timer t\nfunc main\nnew t 1s\nnew t 1s\nend\n",
        "new g1 t 1000000000\npanic g1 twice\npanic\n",
        Outcome::Panic,
    ),
    // a send to a channel that was closed, and one that waits when it is closed
    (
        "chan c 1\nfunc main\nmake c\nclose c\nsend c 1\nend\n",
        "make g1 c\nclose g1 c\npanic g1 closed\npanic\n",
        Outcome::Panic,
    ),
    (
        "chan c 0\nfunc main\nmake c\ngo b\nsleep 1ms\nclose c\nend\nfunc b\nsend c 1\nend\n",
        "make g1 c\ngo g1 g2 b\nsleep g1 1000000\nclock 0 1000000\nwake g1\nclose g1 c\npanic g2 closed\npanic\n",
        Outcome::Panic,
    ),
    // a channel without room passes a value from one goroutine to the other
    (
        "chan c 0\nfunc main\nmake c\ngo b\nrecv c\nsend c 8\nend\nfunc b\nsend c 7\nrecv c\nend\n",
        "make g1 c\ngo g1 g2 b\npair g2 g1 c 7\npair g1 g2 c 8\nend g1\nexit\n",
        Outcome::Exit,
    ),
    // a full channel keeps its senders waiting, an empty one its receivers
    (
        "chan c 1\nfunc main\nmake c\ngo b\nsleep 1ms\nrecv c\nrecv c\nrecv c\nend\nfunc b\nsend c 1\nsend c 2\nclose c\nend\n",
        "make g1 c\ngo g1 g2 b\nsleep g1 1000000\nsend g2 c 1\nclock 0 1000000\nwake g1\nrecv g1 c 1\nsend g2 c 2\n\
         recv g1 c 2\nclose g2 c\nrecv g1 c -\nend g2\nend g1\nexit\n",
        Outcome::Exit,
    ),
    // a close lets all go on that wait to receive, the longest waiting first
    (
        "chan c 0\nfunc main\nmake c\ngo b\ngo b\nsleep 1ms\nclose c\nsleep 1ms\nend\nfunc b\nrecv c\nend\n",
        "make g1 c\ngo g1 g2 b\ngo g1 g3 b\nsleep g1 1000000\nclock 0 1000000\nwake g1\nclose g1 c\nrecv g2 c -\n\
         recv g3 c -\nsleep g1 2000000\nend g2\nend g3\nclock 0 2000000\nwake g1\nend g1\nexit\n",
        Outcome::Exit,
    ),
    // nobody sends
    (
        "chan c 0\nfunc main\nmake c\nrecv c\nend\n",
        "make g1 c\ndeadlock\n",
        Outcome::Deadlock,
    ),
    (
        "chan c 0\nfunc main\nrecv c\nend\n",
        "panic g1 unmade\npanic\n",
        Outcome::Panic,
    ),
];

/// The place of the first script that does not run as it is written here; None where all do.
fn first_wrong(alloc: Global, runs: &[(&str, &str, Outcome)]) -> Result<Option<usize>, Fail> {
    for k in 0..runs.len() {
        let (body, trace, outcome) = runs[k];
        let script = format!(in alloc; "gotime script 1\n{body}")?;
        let (status, written) = answer(alloc, SIM, script.as_str())?;
        if status != Status::Done(outcome) || written.as_slice() != trace.as_bytes() {
            return Ok(Some(k));
        }
    }
    Ok(None)
}

#[test]
fn scripts_run(rt: HostRuntime) -> Result<(), Fail> {
    assert_eq!(rt; first_wrong(rt.alloc(), RUNS)?, None);
    assert_eq!(rt; first_wrong(rt.alloc(), SELECTS)?, None);
    assert_eq!(rt; first_wrong(rt.alloc(), SYNCS)?, None);
    assert_eq!(rt; first_wrong(rt.alloc(), CONDS)?, None);
    assert_eq!(rt; first_wrong(rt.alloc(), CONTEXTS)?, None);
    Ok(())
}

#[test]
fn durations_are_read(rt: HostRuntime) -> Result<(), Fail> {
    let table = [
        ("1h2m3s4ms5us6ns", Some(3_723_004_005_006)),
        ("9223372036854775807ns", Some(9_223_372_036_854_775_807_u64)),
        ("9223372036854775808ns", None),
        ("ms", None),
        ("1m1", None),
        ("1.5s", None),
        ("00", None),
    ];
    for (word, time) in table {
        let script = format!(in rt.alloc(); "gotime script 1\nfunc main\nsleep {word}\nend\n")?;
        let (status, written) = answer(rt.alloc(), SIM, script.as_str())?;
        let (wanted, trace) = match time {
            Some(time) => {
                let trace = format!(in rt.alloc();
                    "sleep g1 {time}\nclock 0 {time}\nwake g1\nend g1\nexit\n"
                )?;
                (Status::Done(Outcome::Exit), trace)
            }
            None => (bad(3, Why::Number), String::new(rt.alloc())),
        };
        assert_eq!(rt; status, wanted, "{word}");
        assert_eq!(rt; written.as_slice(), trace.as_bytes(), "{word}");
    }
    let script = "gotime script 1\nfunc main\nsleep 0\nend\n";
    let (_, written) = answer(rt.alloc(), SIM, script)?;
    assert_eq!(rt; written.as_slice(), "sleep g1 -\nend g1\nexit\n".as_bytes());
    Ok(())
}

#[test]
fn the_limit_ends_a_run(rt: HostRuntime) -> Result<(), Fail> {
    let table = [
        (9_999, SIM, "end g1\nexit\n", Outcome::Exit),
        (10_000, SIM, "limit\n", Outcome::Limit),
        (2, ["sim", "-l", "2"].as_slice(), "limit\n", Outcome::Limit),
        (
            2,
            ["sim", "-l", "03"].as_slice(),
            "end g1\nexit\n",
            Outcome::Exit,
        ),
        (
            0,
            ["sim", "-l", "1"].as_slice(),
            "end g1\nexit\n",
            Outcome::Exit,
        ),
        (
            2,
            ["sim", "-l", "200000"].as_slice(),
            "end g1\nexit\n",
            Outcome::Exit,
        ),
    ];
    for (count, words, last, outcome) in table {
        let mut script = String::from_str(rt.alloc(), "gotime script 1\nfunc main\n")?;
        let mut trace = String::new(rt.alloc());
        for _ in 0..count {
            script.push_str("say 1\n")?;
            trace.push_str("say g1 1\n")?;
        }
        script.push_str("end\n")?;
        trace.push_str(last)?;
        let (status, written) = answer(rt.alloc(), words, script.as_str())?;
        assert_eq!(rt; status, Status::Done(outcome), "{count}");
        assert_eq!(rt; written.as_slice(), trace.as_bytes(), "{count}");
    }
    Ok(())
}

/// An AfterFunc timer that sets itself anew goes on for ever, while main waits at a channel.
#[test]
fn a_timer_goes_on_beside_a_channel(rt: HostRuntime) -> Result<(), Fail> {
    let script =
        "gotime script 1\nafterfunc f again\nchan c 0\nfunc main\nmake c\nnew f 1ms\nrecv c\nend\n\
        func again\nreset f 1ms\nend\n";
    let mut trace = String::from_str(rt.alloc(), "make g1 c\nnew g1 f 1000000\n")?;
    for n in 1..13_u64 {
        let g = n + 1;
        let now = n * 1_000_000;
        let next = now + 1_000_000;
        let round = format!(in rt.alloc();
            "clock 0 {now}\nfire f g{g}\nreset g{g} f false {next}\nend g{g}\n"
        )?;
        trace.push_str(round.as_str())?;
    }
    trace.push_str("limit\n")?;
    let (status, written) = answer(rt.alloc(), ["sim", "-l", "50"].as_slice(), script)?;
    assert_eq!(rt; status, Status::Done(Outcome::Limit));
    assert_eq!(rt; written.as_slice(), trace.as_bytes());
    Ok(())
}

#[test]
fn refusals_write_nothing(rt: HostRuntime) -> Result<(), Fail> {
    let good = "gotime script 1\nfunc main\nend\n";
    let table = [
        (SIM, "", bad(1, Why::Head)),
        (SIM, "gotime script 1\n", bad(1, Why::NoMain)),
        (
            SIM,
            "gotime script 1\nfunc main\nsleep 5ms\nnow\n",
            bad(4, Why::Missing),
        ),
        (
            SIM,
            "gotime script 1\nfunc main\nstop t\nend\n",
            bad(3, Why::Name),
        ),
        ([].as_slice(), good, Status::Usage(WordFault::Command)),
        (
            ["simulate"].as_slice(),
            good,
            Status::Usage(WordFault::Command),
        ),
        (
            ["", "sim"].as_slice(),
            good,
            Status::Usage(WordFault::Command),
        ),
        (
            ["sim", "-p"].as_slice(),
            good,
            Status::Usage(WordFault::Form),
        ),
        (
            ["sim", "-l"].as_slice(),
            good,
            Status::Usage(WordFault::Form),
        ),
        (
            ["sim", "-l", "-1"].as_slice(),
            good,
            Status::Usage(WordFault::Form),
        ),
        (
            ["sim", "-l", "1", "1"].as_slice(),
            good,
            Status::Usage(WordFault::Form),
        ),
        (
            ["sim", "-l", "0"].as_slice(),
            good,
            Status::Usage(WordFault::Number),
        ),
        (
            ["sim", "-l", "200001"].as_slice(),
            good,
            Status::Usage(WordFault::Number),
        ),
        (
            ["sim", "-l", "-"].as_slice(),
            good,
            Status::Usage(WordFault::Number),
        ),
    ];
    for (words, input, want) in table {
        let (status, written) = answer(rt.alloc(), words, input)?;
        assert_eq!(rt; status, want, "{input}");
        assert_eq!(rt; written.len(), 0, "{input}");
    }
    Ok(())
}

fn bad(line: u32, why: Why) -> Status {
    Status::BadScript(ScriptFault { line, why })
}
