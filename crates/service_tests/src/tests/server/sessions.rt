//! Sessions over a lane: requests in, answers out.
use super::scripted::play;
use std::test::Fail;

static CLASSIC: &[u8] = b"
    send set a 5 0 3$one$get a zz$gets a$add a 0 0 1$x$replace a 6 0 3$two$append a 1 0 2$!!$prepend a 1 0 2$\
        >>$get a$cas a 0 0 1 3$x$cas zz 0 0 1 3$x$cas a 7 0 4 7$last$get a$incr a 1$
    answers 1000 1000 0 STORED$VALUE a 5 3$one$END$VALUE a 5 3 1$one$END$NOT_STORED$STORED$STORED$STORED$\
        VALUE a 6 7$>>two!!$END$EXISTS$NOT_FOUND$EXISTS$VALUE a 6 7$>>two!!$END$\
        CLIENT_ERROR cannot increment or decrement non-numeric value$
";

#[test]
fn classic_commands_are_answered(rt: HostRuntime) -> Result<(), Fail> {
    play(rt.alloc(), CLASSIC)
}

static NUMBERS: &[u8] = b"
    send set n 0 0 2$10$incr n 5$decr n 20$get n$incr zz 1$touch n 9$touch zz 9$gats 0 n zz$gat -1 n$get n$\
        delete n$set n 0 -1 1$1$get n$set n 0 0 1$1$delete n$delete n$
    answers 1000 1000 0 STORED$15$0$VALUE n 0 2$0~$END$NOT_FOUND$TOUCHED$NOT_FOUND$VALUE n 0 2 3$0~$END$\
        VALUE n 0 2$0~$END$END$NOT_FOUND$STORED$END$STORED$DELETED$NOT_FOUND$
";

#[test]
fn numbers_count_and_expiries_are_kept(rt: HostRuntime) -> Result<(), Fail> {
    play(rt.alloc(), NUMBERS)
}

static OTHERS: &[u8] = b"
    send version$verbosity 1$mn$stats$stats settings$stats reset$stats nothing$stats cachedump 1 0$\
        stats detail on$stats detail off$stats detail dump$stats detail$flush_all$flush_all 9$bogus$set a 0 0 1$\
        xyz$set a 0 x 1$y$shutdown$quit$mn$
    closes 1000 1000 4 VERSION 1.6.18$OK$MN$END$END$RESET$ERROR$END$OK$OK$END$\
        CLIENT_ERROR usage: stats detail on|off|dump$OK$OK$ERROR$CLIENT_ERROR bad data chunk$ERROR$\
        CLIENT_ERROR bad command line format$
";

#[test]
fn commands_of_the_server_are_answered(rt: HostRuntime) -> Result<(), Fail> {
    play(rt.alloc(), OTHERS)
}

static REFUSED: &[u8] = b"
    send flush_all$flush_all noreply$shutdown$mn$
    refuses 1000 1000 0 CLIENT_ERROR flush_all not allowed$ERROR: shutdown not enabled$MN$
";

#[test]
fn what_the_server_refuses_is_said(rt: HostRuntime) -> Result<(), Fail> {
    play(rt.alloc(), REFUSED)
}

static QUIET: &[u8] = b"
    send set a 0 0 1 noreply$x$add a 0 0 1 noreply$y$incr a 1 noreply$touch a 0 noreply$verbosity 1 noreply$\
        flush_all noreply$set b 0 0 1 noreply$xyzget a$delete a noreply$get a$
    answers 1000 1000 0 VALUE a 0 1$x$END$END$
";

#[test]
fn noreply_is_answered_nothing(rt: HostRuntime) -> Result<(), Fail> {
    play(rt.alloc(), QUIET)
}

static CUT: &[u8] = b"
    send set a 5 0 3$one$get a zz$gets a$add a 0 0 1$x$replace a 6 0 3$two$append a 1 0 2$!!$prepend a 1 0 2$\
        >>$get a$cas a 0 0 1 3$x$cas zz 0 0 1 3$x$cas a 7 0 4 7$last$get a$incr a 1$
    answers 1 29 0 STORED$VALUE a 5 3$one$END$VALUE a 5 3 1$one$END$NOT_STORED$STORED$STORED$STORED$\
        VALUE a 6 7$>>two!!$END$EXISTS$NOT_FOUND$EXISTS$VALUE a 6 7$>>two!!$END$\
        CLIENT_ERROR cannot increment or decrement non-numeric value$
";

#[test]
fn a_stream_is_answered_the_same_however_it_is_cut(rt: HostRuntime) -> Result<(), Fail> {
    play(rt.alloc(), CUT)
}

static LARGE: &[u8] = b"
    send set a 0 0 1$x$set a 0 0 2040$; fill x*2040; more $get a$
    answers 5000 5000 0 STORED$SERVER_ERROR object too large for cache$END$
    send set a 0 0 1$x$append a 0 0 2040$; fill x*2040; more $get a$
    answers 5000 5000 0 STORED$SERVER_ERROR object too large for cache$VALUE a 0 1$x$END$
";

#[test]
fn a_set_that_is_refused_leaves_no_older_item(rt: HostRuntime) -> Result<(), Fail> {
    play(rt.alloc(), LARGE)
}

static NOWHERE: &[u8] = b"
    send mn$
    nowhere 1000 1000 4
";

#[test]
fn what_is_no_session_is_closed(rt: HostRuntime) -> Result<(), Fail> {
    play(rt.alloc(), NOWHERE)
}

static META: &[u8] = b"
    send mg a$ms a 3 T0 F5 c$one$mg a v f s t k O77 c$ms a 2 ME$xx$ms a 2 MA$!!$mg a v$ms a 1 C1 c k$x$\
        md a C1$md a I T30$mg a t v$mg a$ms a 1 q$x$md a q$md a q k$mg a q$mn$
    answers 1000 1000 0 EN$HD c1$VA 3 f5 s3 t-1 ka O77 c1$one$NS$HD$VA 5$one!!$EX c0 ka$EX$HD$VA 5 t30 X W$\
        one!!$HD Z X$NF ka$MN$
    answers 7 7 0 EN$HD c1$VA 3 f5 s3 t-1 ka O77 c1$one$NS$HD$VA 5$one!!$EX c0 ka$EX$HD$VA 5 t30 X W$one!!$\
        HD Z X$NF ka$MN$
";

#[test]
fn meta_commands_are_answered(rt: HostRuntime) -> Result<(), Fail> {
    play(rt.alloc(), META)
}

static COUNTS: &[u8] = b"
    send ma n$ma n N0 J13 v$ma n D5 MD v t$ma n q$ma n c T9 t$mg n v$mg z N30 v t$mg z v R9$ms z 1 C6$y$\
        mg z v$ma z$
    answers 1000 1000 0 NF$VA 2$13$VA 1 t-1$8$HD c5 t9$VA 2$10$VA 0 t30 W$$VA 0 Z$$HD$VA 1$y$\
        CLIENT_ERROR cannot increment or decrement non-numeric value$
";

#[test]
fn meta_counts_and_leases_are_answered(rt: HostRuntime) -> Result<(), Fail> {
    play(rt.alloc(), COUNTS)
}

static UNSERVED: &[u8] = b"
    send me a$mg YQ== b$ms a 1 b$x$mg a h$mg a l$mn$
    answers 1000 1000 0 CLIENT_ERROR me is not served$CLIENT_ERROR flag b is not served$\
        CLIENT_ERROR flag b is not served$CLIENT_ERROR flag h is not served$CLIENT_ERROR flag l is not served$MN$
";

#[test]
fn what_is_not_served_is_refused_by_name(rt: HostRuntime) -> Result<(), Fail> {
    play(rt.alloc(), UNSERVED)
}

static ORDERS: &[u8] = b"
    send mg y N30 T60 t v$mg z T60 N30 t v$ms a 1 T100$x$mg a R50 T10 t$ms b 1 T100$x$mg b T10 R50 t$\
        mg b t T90$mg b t$ms n 1 T100$1$ma n t T10 v$ma n T20 t$GET / HTTP/1.1$mn$
    closes 1000 1000 4 VA 0 t60 W$$VA 0 t30 W$$HD$HD t10$HD$HD t10 W$HD t10 Z$HD t90 Z$HD$VA 1 t100$2$HD t20$
";

#[test]
fn meta_flags_count_in_their_order_and_http_is_closed(rt: HostRuntime) -> Result<(), Fail> {
    play(rt.alloc(), ORDERS)
}
