//! Scripts that choose: without their first line, their traces, and the outcomes.

use gt_model::Outcome;

pub(crate) const SELECTS: &[(&str, &str, Outcome)] = &[
    // the case whose partner comes
    (
        "chan a 0\nchan b 0\nfunc main\nmake a\nmake b\ngo tx\nselect\ncase recv a\nsay 1\ncase recv b\nsay 2\nend\nend\n\
         func tx\nsend b 7\nend\n",
        "make g1 a\nmake g1 b\ngo g1 g2 tx\npair g2 g1/2 b 7\nend g2\nsay g1 2\nend g1\nexit\n",
        Outcome::Exit,
    ),
    // a timer that was stopped gives nothing
    (
        "timer t\nfunc main\nnew t 10ms\nsleep 5ms\nstop t\nsleep 10ms\nselect\ncase recv t\nsay 1\ndefault\nsay 2\nend\nend\n",
        "new g1 t 10000000\nsleep g1 5000000\nclock 0 5000000\nwake g1\nstop g1 t true\nsleep g1 15000000\n\
         clock 0 15000000\nwake g1\ndefault g1\nsay g1 2\nend g1\nexit\n",
        Outcome::Exit,
    ),
    // of cases that can go on the one with the lowest number
    (
        "chan a 1\nchan b 1\nfunc main\nmake a\nmake b\nsend b 2\nsend a 1\nselect\ncase recv b\ncase recv a\nend\n\
         select\ncase recv b\ncase recv a\nend\nend\n",
        "make g1 a\nmake g1 b\nsend g1 b 2\nsend g1 a 1\nrecv g1/1 b 2\nrecv g1/2 a 1\nend g1\nexit\n",
        Outcome::Exit,
    ),
    // a value of a timer that has come counts among them where there is a default
    (
        "timer t\nchan a 1\nfunc main\nmake a\nnew t 1ms\nsleep 2ms\nsend a 1\nselect\ncase recv t\ncase recv a\nend\nend\n",
        "make g1 a\nnew g1 t 1000000\nsleep g1 2000000\nclock 0 2000000\nwake g1\nsend g1 a 1\nrecv g1/2 a 1\nend g1\nexit\n",
        Outcome::Exit,
    ),
    (
        "timer t\nchan a 1\nfunc main\nmake a\nnew t 1ms\nsleep 2ms\nsend a 1\nselect\ncase recv t\ncase recv a\ndefault\nend\nend\n",
        "make g1 a\nnew g1 t 1000000\nsleep g1 2000000\nclock 0 2000000\nwake g1\nsend g1 a 1\n\
         trecv g1/1 t 1000000 -\nend g1\nexit\n",
        Outcome::Exit,
    ),
    // the first of two timers, and the other one is set still
    (
        "timer a\ntimer b\nfunc main\nnew a 2ms\nnew b 1ms\nselect\ncase recv a\nsay 1\ncase recv b\nsay 2\nend\nstop a\nend\n",
        "new g1 a 2000000\nnew g1 b 1000000\nclock 0 1000000\ntrecv g1/2 b 1000000 -\nsay g1 2\nstop g1 a true\nend g1\nexit\n",
        Outcome::Exit,
    ),
    // a ticker beside a timer
    (
        "ticker k\ntimer t\nfunc main\nnew k 2ms\nnew t 5ms\nloop 3\nselect\ncase recv t\nsay 1\ncase recv k\nsay 2\nend\nend\nend\n",
        "new g1 k 2000000\nnew g1 t 5000000\nclock 0 2000000\ntrecv g1/2 k 2000000 4000000\nsay g1 2\nclock 0 4000000\n\
         trecv g1/2 k 4000000 6000000\nsay g1 2\nclock 0 5000000\ntrecv g1/1 t 5000000 -\nsay g1 1\nend g1\nexit\n",
        Outcome::Exit,
    ),
    // a goroutine that waits is a partner, and no default passes over it
    (
        "chan c 0\nfunc main\nmake c\ngo b\nsleep 1ms\nselect\ncase recv c\nsay 1\ndefault\nsay 2\nend\nend\nfunc b\nsend c 7\nend\n",
        "make g1 c\ngo g1 g2 b\nsleep g1 1000000\nclock 0 1000000\nwake g1\npair g2 g1/1 c 7\nsay g1 1\nend g1\nexit\n",
        Outcome::Exit,
    ),
    (
        "chan c 0\nfunc main\nmake c\nselect\ncase send c 1\ndefault\nsay 1\nend\nend\n",
        "make g1 c\ndefault g1\nsay g1 1\nend g1\nexit\n",
        Outcome::Exit,
    ),
    // two choices meet
    (
        "chan c 0\nfunc main\nmake c\ngo b\nselect\ncase send c 1\nsay 1\ncase recv c\nsay 2\nend\nend\n\
         func b\nselect\ncase send c 3\nsay 3\ncase recv c\nsay 4\nend\nend\n",
        "make g1 c\ngo g1 g2 b\npair g2/1 g1/2 c 3\nsay g2 3\nend g2\nsay g1 2\nend g1\nexit\n",
        Outcome::Exit,
    ),
    // nobody is a partner of his own
    (
        "chan c 0\nfunc main\nmake c\nselect\ncase send c 1\ncase recv c\nend\nend\n",
        "make g1 c\ndeadlock\n",
        Outcome::Deadlock,
    ),
    // misuses
    (
        "chan a 1\nchan b 1\nfunc main\nmake a\nselect\ncase recv a\ncase recv b\nend\nend\n",
        "make g1 a\npanic g1/2 unmade\npanic\n",
        Outcome::Panic,
    ),
    (
        "chan c 1\nfunc main\nmake c\nclose c\nselect\ncase send c 1\nend\nend\n",
        "make g1 c\nclose g1 c\npanic g1/1 closed\npanic\n",
        Outcome::Panic,
    ),
];
