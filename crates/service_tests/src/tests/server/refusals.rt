// What is answered to lines that are refused.
use super::scripted::play;
use std::test::Fail;

static NOT_KNOWN: &[u8] = b"
    send; refused ERROR$
    send watch; refused ERROR$
    send lru_crawler enable; refused ERROR$
    send SET k 0 0 1; refused ERROR$
    send get; refused ERROR$
    send gat; refused ERROR$
    send set k 0 0; refused ERROR$
    send set k 0 0 1 noreply x; refused ERROR$
    send mg; refused ERROR$
    send verbosity; refused ERROR$
";

#[test]
fn commands_that_are_not_known_are_errors(rt: HostRuntime) -> Result<(), Fail> {
    play(rt.alloc(), NOT_KNOWN)
}

static NO_NUMBERS: &[u8] = b"
    send set k 18446744073709551616 0 1; refused CLIENT_ERROR bad command line format$
    send set k -1 0 1; refused CLIENT_ERROR bad command line format$
    send set k 0 9223372036854775808 1; refused CLIENT_ERROR bad command line format$
    send set k 0 0 -1; refused CLIENT_ERROR bad command line format$
    send set k 0 0 2147483648; refused CLIENT_ERROR bad command line format$
    send cas k 0 0 1 18446744073709551616; refused CLIENT_ERROR bad command line format$
    send touch k 1x; refused CLIENT_ERROR invalid exptime argument$
    send gat -9223372036854775809 k; refused CLIENT_ERROR invalid exptime argument$
    send incr k 1.5; refused CLIENT_ERROR invalid numeric delta argument$
    send incr k ++5; refused CLIENT_ERROR invalid numeric delta argument$
    send delete k 5; refused CLIENT_ERROR bad command line format. ~Usage: delete <key> [noreply]$
    send shutdown now; refused CLIENT_ERROR invalid shutdown mode$
";

#[test]
fn numbers_that_are_none_are_told_by_their_command(rt: HostRuntime) -> Result<(), Fail> {
    play(rt.alloc(), NO_NUMBERS)
}

static META_FLAGS: &[u8] = b"
    send mg k s s; refused CLIENT_ERROR duplicate flag$
    send mg k ! s s; refused CLIENT_ERROR invalid flag$
    send mg k s s !; refused CLIENT_ERROR duplicate flag$
    send mg k Tx !; refused CLIENT_ERROR invalid flag$
    send mg k~; bytes 233; refused CLIENT_ERROR duplicate flag$
    send mg k Tx MAB; refused CLIENT_ERROR incorrect length for M token$
    send mg k MAB Tx Fx; refused CLIENT_ERROR bad token in command line format$
    send mg k O23456789012345678901234567890123 Fx; refused CLIENT_ERROR bad command line format$
    send ms k 2 O23456789012345678901234567890123 MX; refused CLIENT_ERROR invalid mode for ms M token$
    send md k O23456789012345678901234567890123; refused CLIENT_ERROR opaque token too long$
    send ms k 2 MX; refused CLIENT_ERROR invalid mode for ms M token$
    send ma k MX; refused CLIENT_ERROR invalid mode for ma M token$
    send mg k MAB; refused CLIENT_ERROR incorrect length for M token$
    send md k q q; refused CLIENT_ERROR invalid or duplicate flag$
    send mg k O23456789012345678901234567890123; refused CLIENT_ERROR opaque token too long$
    send mg k a b c d e f g h i j k l m n o p q r; refused CLIENT_ERROR options flags are too long$
    send md k a b c d e f g h i j k l m n o p q r; refused CLIENT_ERROR options flags too long$
    send mg k Jx; refused CLIENT_ERROR invalid numeric initial value$
    send mg k Dx; refused CLIENT_ERROR invalid numeric delta value$
    send me k Jx; refused CLIENT_ERROR bad command line format$
";

#[test]
fn of_two_faults_of_flags_the_graver_is_told(rt: HostRuntime) -> Result<(), Fail> {
    play(rt.alloc(), META_FLAGS)
}

static LONG_KEYS: &[u8] = b"
    send delete~; fill k*250; refused taken$
    send delete~; fill k*251; refused CLIENT_ERROR bad command line format$
";

#[test]
fn a_key_has_at_most_250_bytes(rt: HostRuntime) -> Result<(), Fail> {
    play(rt.alloc(), LONG_KEYS)
}
