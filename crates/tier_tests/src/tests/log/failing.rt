//! Each call of the device refused in turn, alone and with all later ones.
use super::*;

// A script that calls the device once in its second flush, its look-ups of records that are on the device and its
// readmission, and twice in its taking.
// What comes if each call of the device is refused alone, and if it is refused with all later ones.
static REFUSED: &[u8] = b"
    # The write is refused.
    refuse 1; config 1 1 1 2 1 8 1 65536
    append ax 1 appended; append bx 2 appended; flush sealed; flush page lost; look ax absent
    oldest empty; take none; readmit none; look ax absent; look bx absent; count 0

    refuse-from 1; config 1 1 1 2 1 8 1 65536
    append ax 1 appended; append bx 2 appended; flush sealed; flush page lost; look ax absent
    oldest empty; take none; readmit none; look ax absent; look bx absent; count 0

    # The first look-up is refused, and then that and all that follows.
    refuse 2; config 1 1 1 2 1 8 1 65536
    append ax 1 appended; append bx 2 appended; flush sealed; flush wrote; look ax fault
    take bx=2 at 0 0 1 6 0 ax=1 at 0 0 0 6 0; readmit readmitted; look ax hit 1; look bx hit 2
    count 2

    refuse-from 2; config 1 1 1 2 1 8 1 65536
    append ax 1 appended; append bx 2 appended; flush sealed; flush wrote; look ax fault
    take page lost; readmit none; look ax absent; look bx absent; count 0

    # A read of the taking is refused.
    refuse 3; config 1 1 1 2 1 8 1 65536
    append ax 1 appended; append bx 2 appended; flush sealed; flush wrote; look ax hit 1
    take page lost; readmit none; look ax absent; look bx absent; count 0

    refuse-from 3; config 1 1 1 2 1 8 1 65536
    append ax 1 appended; append bx 2 appended; flush sealed; flush wrote; look ax hit 1
    take page lost; readmit none; look ax absent; look bx absent; count 0

    refuse 4; config 1 1 1 2 1 8 1 65536
    append ax 1 appended; append bx 2 appended; flush sealed; flush wrote; look ax hit 1
    take page lost; readmit none; look ax absent; look bx absent; count 0

    refuse-from 4; config 1 1 1 2 1 8 1 65536
    append ax 1 appended; append bx 2 appended; flush sealed; flush wrote; look ax hit 1
    take page lost; readmit none; look ax absent; look bx absent; count 0

    # The read of the readmission is refused.
    refuse 5; config 1 1 1 2 1 8 1 65536
    append ax 1 appended; append bx 2 appended; flush sealed; flush wrote; look ax hit 1
    take bx=2 at 0 0 1 6 0 ax=1 at 0 0 0 5 0; readmit fault; look ax absent; look bx absent; count 0

    refuse-from 5; config 1 1 1 2 1 8 1 65536
    append ax 1 appended; append bx 2 appended; flush sealed; flush wrote; look ax hit 1
    take bx=2 at 0 0 1 6 0 ax=1 at 0 0 0 5 0; readmit fault; look ax absent; look bx absent; count 0

    # The last look-up is refused.
    refuse 6; config 1 1 1 2 1 8 1 65536
    append ax 1 appended; append bx 2 appended; flush sealed; flush wrote; look ax hit 1
    take bx=2 at 0 0 1 6 0 ax=1 at 0 0 0 5 0; readmit readmitted; look ax hit 1; look bx fault
    count 2

    refuse-from 6; config 1 1 1 2 1 8 1 65536
    append ax 1 appended; append bx 2 appended; flush sealed; flush wrote; look ax hit 1
    take bx=2 at 0 0 1 6 0 ax=1 at 0 0 0 5 0; readmit readmitted; look ax hit 1; look bx fault
    count 2

    refuse 7; config 1 1 1 2 1 8 1 65536
    append ax 1 appended; append bx 2 appended; flush sealed; flush wrote; look ax hit 1
    take bx=2 at 0 0 1 6 0 ax=1 at 0 0 0 5 0; readmit readmitted; look ax hit 1; look bx hit 2
    count 2

    refuse-from 7; config 1 1 1 2 1 8 1 65536
    append ax 1 appended; append bx 2 appended; flush sealed; flush wrote; look ax hit 1
    take bx=2 at 0 0 1 6 0 ax=1 at 0 0 0 5 0; readmit readmitted; look ax hit 1; look bx hit 2
    count 2
";

#[test]
fn each_refused_call_of_the_device_is_told(rt: HostRuntime) -> Result<(), Fail> {
    play(rt.alloc(), REFUSED)
}
