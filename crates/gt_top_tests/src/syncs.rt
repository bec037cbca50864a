//! Scripts with WaitGroups and mutexes: without their first line, their traces, and the outcomes.

use gt_model::Outcome;

pub(crate) const SYNCS: &[(&str, &str, Outcome)] = &[
    // who waits for a WaitGroup goes on when its counter comes to 0, the one that has waited longest first
    (
        "wg w\nfunc main\nadd w 1\ngo a\ngo b\nsleep 1ms\ndone w\nsay 0\nsleep 1ms\nend\nfunc a\nwait w\nend\nfunc b\nwait w\nend\n",
        "add g1 w 1\ngo g1 g2 a\ngo g1 g3 b\nsleep g1 1000000\nclock 0 1000000\nwake g1\nadd g1 w -1\nwait g2 w\nwait g3 w\n\
         say g1 0\nsleep g1 2000000\nend g2\nend g3\nclock 0 2000000\nwake g1\nend g1\nexit\n",
        Outcome::Exit,
    ),
    // nobody waits for a WaitGroup to which nothing was added; it may be used again; and nothing may be taken from it by nothing
    (
        "wg w\nfunc main\nwait w\nadd w 2\nadd w -2\nwait w\nadd w -0\nend\n",
        "wait g1 w\nadd g1 w 2\nadd g1 w -2\nwait g1 w\nadd g1 w 0\nend g1\nexit\n",
        Outcome::Exit,
    ),
    (
        "wg w\nfunc main\nadd w -1\nend\n",
        "panic g1 negative\npanic\n",
        Outcome::Panic,
    ),
    (
        "wg w\nfunc main\nadd w 1000000\nadd w -1000000\ndone w\nend\n",
        "add g1 w 1000000\nadd g1 w -1000000\npanic g1 negative\npanic\n",
        Outcome::Panic,
    ),
    (
        "wg w\nfunc main\nadd w 1\nwait w\nend\n",
        "add g1 w 1\ndeadlock\n",
        Outcome::Deadlock,
    ),
    // who waits for a mutex gets it in turn, one at a time
    (
        "mutex m\nfunc main\nlock m\ngo a\ngo b\nsleep 1ms\nunlock m\nsay 0\nsleep 1ms\nend\nfunc a\nlock m\nsay 1\nunlock m\nend\n\
         func b\nlock m\nsay 2\nunlock m\nend\n",
        "lock g1 m\ngo g1 g2 a\ngo g1 g3 b\nsleep g1 1000000\nclock 0 1000000\nwake g1\nunlock g1 m\nlock g2 m\nsay g1 0\n\
         sleep g1 2000000\nsay g2 1\nunlock g2 m\nlock g3 m\nend g2\nsay g3 2\nunlock g3 m\nend g3\nclock 0 2000000\nwake g1\n\
         end g1\nexit\n",
        Outcome::Exit,
    ),
    // a mutex is not tied to who locked it
    (
        "mutex m\nfunc main\nlock m\ngo f\nlock m\nsay 1\nend\nfunc f\nunlock m\nend\n",
        "lock g1 m\ngo g1 g2 f\nunlock g2 m\nlock g1 m\nend g2\nsay g1 1\nend g1\nexit\n",
        Outcome::Exit,
    ),
    (
        "mutex m\nfunc main\nlock m\nlock m\nend\n",
        "lock g1 m\ndeadlock\n",
        Outcome::Deadlock,
    ),
    (
        "mutex m\nfunc main\nunlock m\nend\n",
        "panic g1 unlocked\npanic\n",
        Outcome::Panic,
    ),
    (
        "mutex m\nfunc main\nlock m\nunlock m\nunlock m\nend\n",
        "lock g1 m\nunlock g1 m\npanic g1 unlocked\npanic\n",
        Outcome::Panic,
    ),
];
