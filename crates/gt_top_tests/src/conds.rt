//! Scripts with Conds: without their first line, their traces, and the outcomes.

use gt_model::Outcome;

pub(crate) const CONDS: &[(&str, &str, Outcome)] = &[
    // nobody to signal
    (
        "mutex m\ncond k m\nfunc main\nsignal k\nbroadcast k\nend\n",
        "signal g1 k -\nbroadcast g1 k 0\nend g1\nexit\n",
        Outcome::Exit,
    ),
    (
        "mutex m\ncond k m\nwg w\nfunc main\nadd w 1\ngo b\nlock m\ncwait k\nunlock m\nwait w\nend\nfunc b\nlock m\n\
         signal k\nunlock m\ndone w\nend\n",
        "add g1 w 1\ngo g1 g2 b\nlock g1 m\ncwait g1 k\nlock g2 m\nsignal g2 k g1\nunlock g2 m\ncwake g1 k\nadd g2 w -1\n\
         end g2\nunlock g1 m\nwait g1 w\nend g1\nexit\n",
        Outcome::Exit,
    ),
    // who was signalled counts from its wait: it gets the mutex before one that came to it while it waited
    (
        "mutex m\ncond k m\nfunc main\nlock m\ngo b\ncwait k\nsay 1\nunlock m\nend\nfunc b\nlock m\ngo c\nsleep 1ms\n\
         signal k\nunlock m\nend\nfunc c\nlock m\nsay 3\nunlock m\nend\n",
        "lock g1 m\ngo g1 g2 b\ncwait g1 k\nlock g2 m\ngo g2 g3 c\nsleep g2 1000000\nclock 0 1000000\nwake g2\n\
         signal g2 k g1\nunlock g2 m\ncwake g1 k\nend g2\nsay g1 1\nunlock g1 m\nlock g3 m\nend g1\nexit\n",
        Outcome::Exit,
    ),
    // a signal wakes the one that has waited longest
    (
        "mutex m\ncond k m\nfunc main\ngo a\ngo b\nsleep 1ms\nsignal k\nsleep 1ms\nsignal k\nsignal k\nsleep 1ms\nend\n\
         func a\nlock m\ncwait k\nsay 1\nunlock m\nend\nfunc b\nlock m\ncwait k\nsay 2\nunlock m\nend\n",
        "go g1 g2 a\ngo g1 g3 b\nsleep g1 1000000\nlock g2 m\ncwait g2 k\nlock g3 m\ncwait g3 k\nclock 0 1000000\n\
         wake g1\nsignal g1 k g2\ncwake g2 k\nsleep g1 2000000\nsay g2 1\nunlock g2 m\nend g2\nclock 0 2000000\nwake g1\n\
         signal g1 k g3\ncwake g3 k\nsignal g1 k -\nsleep g1 3000000\nsay g3 2\nunlock g3 m\nend g3\nclock 0 3000000\n\
         wake g1\nend g1\nexit\n",
        Outcome::Exit,
    ),
    // a broadcast wakes all that wait; each goes on when it has the mutex
    (
        "mutex m\ncond k m\nfunc main\ngo a\ngo b\nsleep 1ms\nlock m\nbroadcast k\nsay 0\nunlock m\nsleep 1ms\nend\n\
         func a\nlock m\ncwait k\nsay 1\nunlock m\nend\nfunc b\nlock m\ncwait k\nsay 2\nunlock m\nend\n",
        "go g1 g2 a\ngo g1 g3 b\nsleep g1 1000000\nlock g2 m\ncwait g2 k\nlock g3 m\ncwait g3 k\nclock 0 1000000\n\
         wake g1\nlock g1 m\nbroadcast g1 k 2\nsay g1 0\nunlock g1 m\ncwake g2 k\nsleep g1 2000000\nsay g2 1\n\
         unlock g2 m\ncwake g3 k\nend g2\nsay g3 2\nunlock g3 m\nend g3\nclock 0 2000000\nwake g1\nend g1\nexit\n",
        Outcome::Exit,
    ),
    // of two Conds of one mutex: who has waited longest is first, whoever was signalled first
    (
        "mutex m\ncond j m\ncond k m\nfunc main\ngo a\ngo b\ngo c\nsleep 1ms\nlock m\ngo d\nsleep 1ms\nbroadcast k\n\
         signal j\nsignal j\nunlock m\nsleep 1ms\nend\nfunc a\nlock m\ncwait j\nsay 1\nunlock m\nend\nfunc b\nlock m\n\
         cwait k\nsay 2\nunlock m\nend\nfunc c\nlock m\ncwait j\nsay 3\nunlock m\nend\nfunc d\nlock m\nsay 4\nunlock m\n\
         end\n",
        "go g1 g2 a\ngo g1 g3 b\ngo g1 g4 c\nsleep g1 1000000\nlock g2 m\ncwait g2 j\nlock g3 m\ncwait g3 k\nlock g4 m\n\
         cwait g4 j\nclock 0 1000000\nwake g1\nlock g1 m\ngo g1 g5 d\nsleep g1 2000000\nclock 0 2000000\nwake g1\n\
         broadcast g1 k 1\nsignal g1 j g2\nsignal g1 j g4\nunlock g1 m\ncwake g2 j\nsleep g1 3000000\nsay g2 1\n\
         unlock g2 m\ncwake g3 k\nend g2\nsay g3 2\nunlock g3 m\ncwake g4 j\nend g3\nsay g4 3\nunlock g4 m\nlock g5 m\n\
         end g4\nsay g5 4\nunlock g5 m\nend g5\nclock 0 3000000\nwake g1\nend g1\nexit\n",
        Outcome::Exit,
    ),
    // a signal that comes too early is lost
    (
        "mutex m\ncond k m\nfunc main\nlock m\nsignal k\ncwait k\nend\n",
        "lock g1 m\nsignal g1 k -\ncwait g1 k\ndeadlock\n",
        Outcome::Deadlock,
    ),
    (
        "mutex m\ncond k m\nfunc main\nlock m\ngo a\ncwait k\nend\nfunc a\nend\n",
        "lock g1 m\ngo g1 g2 a\ncwait g1 k\nend g2\ndeadlock\n",
        Outcome::Deadlock,
    ),
    (
        "mutex m\ncond k m\nfunc main\ncwait k\nend\n",
        "panic g1 unlocked\npanic\n",
        Outcome::Panic,
    ),
];
