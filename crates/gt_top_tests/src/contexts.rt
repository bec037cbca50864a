//! Scripts with contexts: without their first line, their traces, and the outcomes.

use gt_model::Outcome;

pub(crate) const CONTEXTS: &[(&str, &str, Outcome)] = &[
    // a cause is that of the first end that reaches a context: a cancellation's below it, the deadline's elsewhere
    (
        "error slow\nerror stop\nctx p root timeout 10ms slow\nctx c p cause\nctx d c cancel\nctx q p cancel\n\
         func main\nwith p\nwith c\nwith d\nwith q\nsleep 5ms\ncancel c stop\nerr d\ncause d\nrecv q\nerr p\n\
         cause p\ncause q\ncause c\nend\n",
        "with g1 p live\nwith g1 c live\nwith g1 d live\nwith g1 q live\nsleep g1 5000000\nclock 0 5000000\n\
         wake g1\ncancel g1 c true 0\nerr g1 d context canceled\ncause g1 d error stop\nclock 0 10000000\n\
         expire p 0\nctxdone g1 q\nerr g1 p context deadline exceeded\ncause g1 p error slow\n\
         cause g1 q error slow\ncause g1 c error stop\nend g1\nexit\n",
        Outcome::Exit,
    ),
    // an end passes no context of the form `without`
    (
        "ctx p root cancel\nctx w p without\nctx c w cancel\nfunc main\nwith p\nwith w\nwith c\ncancel p\nerr c\n\
         err p\nend\n",
        "with g1 p live\nwith g1 w live\nwith g1 c live\ncancel g1 p true 0\nerr g1 c nil\n\
         err g1 p context canceled\nend g1\nexit\n",
        Outcome::Exit,
    ),
    // a hook that an end started cannot be taken back, and a second cancellation brings nothing
    (
        "error e\nctx x root cause\nhook s x f\nfunc main\nwith x\nafter s\ncancel x e\ncancel x\nunhook s\nend\n\
         func f\nend\n",
        "with g1 x live\nafter g1 s -\ncancel g1 x true 1\ncancel g1 x false 0\nunhook g1 s false\nend g1\nexit\n",
        Outcome::Exit,
    ),
    // a hook waits for the end of its context
    (
        "ctx p root cancel\nhook h p f\nfunc main\nwith p\nafter h\ncancel p\nunhook h\nsleep 1ms\nend\nfunc f\n\
         say 1\nend\n",
        "with g1 p live\nafter g1 h -\ncancel g1 p true 1\nunhook g1 h false\nsleep g1 1000000\nsay g2 1\nend g2\n\
         clock 0 1000000\nwake g1\nend g1\nexit\n",
        Outcome::Exit,
    ),
    // it starts at once where that has ended
    (
        "ctx p root cancel\nhook h p f\nfunc main\nwith p\ncancel p\nafter h\nsleep 1ms\nend\nfunc f\nsay 1\nend\n",
        "with g1 p live\ncancel g1 p true 0\nafter g1 h g2\nsleep g1 1000000\nsay g2 1\nend g2\nclock 0 1000000\n\
         wake g1\nend g1\nexit\n",
        Outcome::Exit,
    ),
    // one that was taken back never starts, and is taken back once
    (
        "ctx p root cancel\nhook h p f\nfunc main\nwith p\nafter h\nunhook h\nunhook h\ncancel p\nend\nfunc f\n\
         say 1\nend\n",
        "with g1 p live\nafter g1 h -\nunhook g1 h true\nunhook g1 h false\ncancel g1 p true 0\nend g1\nexit\n",
        Outcome::Exit,
    ),
    // an end starts hooks in the order of their declarations
    (
        "ctx p root cancel\nctx c p cancel\nhook a c f\nhook b p g\nhook d c g\nfunc main\nwith p\nwith c\n\
         after d\nafter b\nafter a\ncancel p\nsleep 1ms\nend\nfunc f\nsay 1\nend\nfunc g\nsay 2\nend\n",
        "with g1 p live\nwith g1 c live\nafter g1 d -\nafter g1 b -\nafter g1 a -\ncancel g1 p true 3\n\
         sleep g1 1000000\nsay g2 1\nend g2\nsay g3 2\nend g3\nsay g4 2\nend g4\nclock 0 1000000\nwake g1\n\
         end g1\nexit\n",
        Outcome::Exit,
    ),
    // a context whose deadline has come when it is made has ended
    (
        "ctx p root timeout 0\nctx c p cancel\nfunc main\nwith p\nwith c\nerr p\ncause c\nend\n",
        "with g1 p ended\nwith g1 c ended\nerr g1 p context deadline exceeded\n\
         cause g1 c context deadline exceeded\nend g1\nexit\n",
        Outcome::Exit,
    ),
    // a deadline that is later than the parent's is not kept, an earlier one is
    (
        "ctx p root timeout 5ms\nctx c p timeout 9ms\nctx e p timeout 2ms\nfunc main\nwith p\nwith c\nwith e\n\
         recv e\nerr e\nerr c\nrecv c\nerr c\nend\n",
        "with g1 p live\nwith g1 c live\nwith g1 e live\nclock 0 2000000\nexpire e 0\nctxdone g1 e\n\
         err g1 e context deadline exceeded\nerr g1 c nil\nclock 0 5000000\nexpire p 0\nctxdone g1 c\n\
         err g1 c context deadline exceeded\nend g1\nexit\n",
        Outcome::Exit,
    ),
    // one at the same time is kept, and whichever is served first ends both
    (
        "ctx p root timeout 5ms\nctx c p timeout 5ms\nfunc main\nwith p\nwith c\nrecv c\nerr c\nerr p\nend\n",
        "with g1 p live\nwith g1 c live\nclock 0 5000000\nexpire p 0\nctxdone g1 c\n\
         err g1 c context deadline exceeded\nerr g1 p context deadline exceeded\nend g1\nexit\n",
        Outcome::Exit,
    ),
    // below a context that has ended one ends the same way when it is made
    (
        "error no\nctx p root cause\nctx c p timeout 1ms\nfunc main\nwith p\ncancel p no\nwith c\ncause c\nerr c\n\
         cancel c\ncause c\nend\n",
        "with g1 p live\ncancel g1 p true 0\nwith g1 c ended\ncause g1 c error no\nerr g1 c context canceled\n\
         cancel g1 c false 0\ncause g1 c error no\nend g1\nexit\n",
        Outcome::Exit,
    ),
    // the first cause stays
    (
        "error a\nerror b\nctx p root cause\nfunc main\nwith p\ncancel p a\ncancel p b\ncause p\nend\n",
        "with g1 p live\ncancel g1 p true 0\ncancel g1 p false 0\ncause g1 p error a\nend g1\nexit\n",
        Outcome::Exit,
    ),
    // and that of a context that ended before its parent
    (
        "error a\nctx p root cause\nctx c p cancel\nfunc main\nwith p\nwith c\ncancel c\ncancel p a\ncause c\n\
         cause p\nerr c\nend\n",
        "with g1 p live\nwith g1 c live\ncancel g1 c true 0\ncancel g1 p true 0\ncause g1 c context canceled\n\
         cause g1 p error a\nerr g1 c context canceled\nend g1\nexit\n",
        Outcome::Exit,
    ),
    // a case of a select receives the end of a context
    (
        "ctx p root timeout 3ms\nchan c 0\nfunc main\nwith p\nmake c\nselect\ncase recv c\nsay 1\ncase recv p\n\
         say 2\nend\nend\n",
        "with g1 p live\nmake g1 c\nclock 0 3000000\nexpire p 0\nctxdone g1/2 p\nsay g1 2\nend g1\nexit\n",
        Outcome::Exit,
    ),
    // a default is chosen while its context lives
    (
        "ctx p root cancel\nfunc main\nwith p\nloop 2\nselect\ncase recv p\nsay 1\ndefault\nsay 0\ncancel p\nend\n\
         end\nend\n",
        "with g1 p live\ndefault g1\nsay g1 0\ncancel g1 p true 0\nctxdone g1/1 p\nsay g1 1\nend g1\nexit\n",
        Outcome::Exit,
    ),
    // an end lets all go on that wait below it, in the order in which they began to wait
    (
        "ctx p root cancel\nctx c p cancel\nfunc main\nwith p\nwith c\ngo a\ngo b\ngo a\nsleep 1ms\ncancel p\n\
         sleep 1ms\nend\nfunc a\nrecv p\nsay 1\nend\nfunc b\nrecv c\nsay 2\nend\n",
        "with g1 p live\nwith g1 c live\ngo g1 g2 a\ngo g1 g3 b\ngo g1 g4 a\nsleep g1 1000000\nclock 0 1000000\n\
         wake g1\ncancel g1 p true 0\nctxdone g2 p\nctxdone g3 c\nctxdone g4 p\nsleep g1 2000000\nsay g2 1\n\
         end g2\nsay g3 2\nend g3\nsay g4 1\nend g4\nclock 0 2000000\nwake g1\nend g1\nexit\n",
        Outcome::Exit,
    ),
    // who waits at two contexts goes on by the one that ends
    (
        "ctx p root cancel\nctx q root cancel\nfunc main\nwith p\nwith q\ngo a\ngo b\nsleep 1ms\ncancel q\n\
         sleep 1ms\ncancel p\nsleep 1ms\nend\nfunc a\nselect\ncase recv p\nsay 1\ncase recv q\nsay 2\nend\nend\n\
         func b\nrecv p\nsay 3\nend\n",
        "with g1 p live\nwith g1 q live\ngo g1 g2 a\ngo g1 g3 b\nsleep g1 1000000\nclock 0 1000000\nwake g1\n\
         cancel g1 q true 0\nctxdone g2/2 q\nsleep g1 2000000\nsay g2 2\nend g2\nclock 0 2000000\nwake g1\n\
         cancel g1 p true 0\nctxdone g3 p\nsleep g1 3000000\nsay g3 3\nend g3\nclock 0 3000000\nwake g1\nend g1\n\
         exit\n",
        Outcome::Exit,
    ),
    // where both have ended by the case with the lowest number; and who comes later receives at once
    (
        "ctx p root cancel\nctx c p cancel\nfunc main\nwith p\nwith c\ngo a\nsleep 1ms\ncancel p\nsleep 1ms\nend\n\
         func a\nselect\ncase recv c\nsay 1\ncase recv p\nsay 2\nend\nrecv c\nrecv p\nend\n",
        "with g1 p live\nwith g1 c live\ngo g1 g2 a\nsleep g1 1000000\nclock 0 1000000\nwake g1\n\
         cancel g1 p true 0\nctxdone g2/1 c\nsleep g1 2000000\nsay g2 1\nctxdone g2 c\nctxdone g2 p\nend g2\n\
         clock 0 2000000\nwake g1\nend g1\nexit\n",
        Outcome::Exit,
    ),
    // nobody ends it
    (
        "ctx p root cancel\nfunc main\nwith p\nrecv p\nend\n",
        "with g1 p live\ndeadlock\n",
        Outcome::Deadlock,
    ),
    // the deadline of a parent that is not heeded is not that of a context
    (
        "ctx p root timeout 2ms\nctx w p without\nctx c w timeout 9ms\nfunc main\nwith p\nwith w\nwith c\n\
         sleep 5ms\nerr p\nerr w\nerr c\nrecv c\nend\n",
        "with g1 p live\nwith g1 w live\nwith g1 c live\nsleep g1 5000000\nclock 0 2000000\nexpire p 0\n\
         clock 0 5000000\nwake g1\nerr g1 p context deadline exceeded\nerr g1 w nil\nerr g1 c nil\n\
         clock 0 9000000\nexpire c 0\nctxdone g1 c\nend g1\nexit\n",
        Outcome::Exit,
    ),
    // a deadline starts the hooks of those that it reaches
    (
        "ctx p root timeout 2ms\nctx c p cancel\nhook a c f\nhook b p f\nfunc main\nwith p\nwith c\nafter a\n\
         after b\nsleep 5ms\nend\nfunc f\nsay 1\nend\n",
        "with g1 p live\nwith g1 c live\nafter g1 a -\nafter g1 b -\nsleep g1 5000000\nclock 0 2000000\n\
         expire p 2\nsay g2 1\nend g2\nsay g3 1\nend g3\nclock 0 5000000\nwake g1\nend g1\nexit\n",
        Outcome::Exit,
    ),
    // a context that was canceled does not come to its deadline
    (
        "ctx p root timeout 5ms\nfunc main\nwith p\ncancel p\nerr p\nsleep 9ms\nend\n",
        "with g1 p live\ncancel g1 p true 0\nerr g1 p context canceled\nsleep g1 9000000\nclock 0 9000000\n\
         wake g1\nend g1\nexit\n",
        Outcome::Exit,
    ),
    // the longest timeout ends at the greatest time, and only a cancellation comes before
    (
        "ctx p root timeout 9223372036854775807ns\nctx c p cancel\nfunc main\nwith p\nwith c\nsleep 1ms\n\
         cancel p\nrecv c\nend\n",
        "with g1 p live\nwith g1 c live\nsleep g1 1000000\nclock 0 1000000\nwake g1\ncancel g1 p true 0\n\
         ctxdone g1 c\nend g1\nexit\n",
        Outcome::Exit,
    ),
    // a deadline and a timer at the same time
    (
        "ctx p root timeout 4ms\ntimer t\nfunc main\nwith p\nnew t 4ms\nrecv p\nrecv t\nend\n",
        "with g1 p live\nnew g1 t 4000000\nclock 0 4000000\nexpire p 0\nctxdone g1 p\ntrecv g1 t 4000000 -\n\
         end g1\nexit\n",
        Outcome::Exit,
    ),
    // main ends while a deadline is to come
    (
        "ctx p root timeout 4ms\nhook h p f\nfunc main\nwith p\nafter h\nend\nfunc f\nsay 1\nend\n",
        "with g1 p live\nafter g1 h -\nend g1\nexit\n",
        Outcome::Exit,
    ),
    // the error that a timeout names is the cause, also below it
    (
        "error late\nctx p root timeout 1ms late\nctx c p timeout 1ms\nfunc main\nwith p\nsleep 1ms\nwith c\n\
         cause p\ncause c\nerr c\nend\n",
        "with g1 p live\nsleep g1 1000000\nclock 0 1000000\nexpire p 0\nwake g1\nwith g1 c ended\n\
         cause g1 p error late\ncause g1 c error late\nerr g1 c context deadline exceeded\nend g1\nexit\n",
        Outcome::Exit,
    ),
    // a hook makes a context below the one that has ended
    (
        "ctx p root cancel\nctx c p timeout 5ms\nhook h p f\nfunc main\nwith p\nafter h\ncancel p\nsleep 1ms\n\
         err c\nend\nfunc f\nwith c\nerr c\nrecv c\nend\n",
        "with g1 p live\nafter g1 h -\ncancel g1 p true 1\nsleep g1 1000000\nwith g2 c ended\n\
         err g2 c context canceled\nctxdone g2 c\nend g2\nclock 0 1000000\nwake g1\nerr g1 c context canceled\n\
         end g1\nexit\n",
        Outcome::Exit,
    ),
    // the deadline of a canceled context is passed over
    (
        "ctx p root timeout 1ms\ntimer t\nfunc main\nwith p\ncancel p\nnew t 2ms\nrecv t\nend\n",
        "with g1 p live\ncancel g1 p true 0\nnew g1 t 2000000\nclock 0 2000000\ntrecv g1 t 2000000 -\nend g1\n\
         exit\n",
        Outcome::Exit,
    ),
    // no cause before the end
    (
        "ctx p root timeout 1ms\nfunc main\nwith p\nloop 3\ncause p\nend\nrecv p\ncause p\nend\n",
        "with g1 p live\ncause g1 p nil\ncause g1 p nil\ncause g1 p nil\nclock 0 1000000\nexpire p 0\n\
         ctxdone g1 p\ncause g1 p context deadline exceeded\nend g1\nexit\n",
        Outcome::Exit,
    ),
    // misuses: a context, its parent or its hook that was not made; one that is made twice
    (
        "ctx p root cancel\nfunc main\nerr p\nend\n",
        "panic g1 unmade\npanic\n",
        Outcome::Panic,
    ),
    (
        "ctx p root cancel\nfunc main\nwith p\nwith p\nend\n",
        "with g1 p live\npanic g1 twice\npanic\n",
        Outcome::Panic,
    ),
    (
        "ctx p root cancel\nctx c p cancel\nfunc main\nwith c\nend\n",
        "panic g1 unmade\npanic\n",
        Outcome::Panic,
    ),
    (
        "ctx p root cancel\nfunc main\ncancel p\nend\n",
        "panic g1 unmade\npanic\n",
        Outcome::Panic,
    ),
    (
        "ctx p root cancel\nfunc main\nrecv p\nend\n",
        "panic g1 unmade\npanic\n",
        Outcome::Panic,
    ),
    (
        "ctx p root cancel\nhook h p f\nfunc main\nafter h\nend\nfunc f\nend\n",
        "panic g1 unmade\npanic\n",
        Outcome::Panic,
    ),
    (
        "ctx p root cancel\nhook h p f\nfunc main\nwith p\nafter h\nafter h\nend\nfunc f\nend\n",
        "with g1 p live\nafter g1 h -\npanic g1 twice\npanic\n",
        Outcome::Panic,
    ),
    (
        "ctx p root cancel\nhook h p f\nfunc main\nwith p\nunhook h\nend\nfunc f\nend\n",
        "with g1 p live\npanic g1 unmade\npanic\n",
        Outcome::Panic,
    ),
    (
        "ctx p root cause\nfunc main\ncause p\nend\n",
        "panic g1 unmade\npanic\n",
        Outcome::Panic,
    ),
];
