//! Records on two pages of a segment: each call of the device refused in turn, alone and with all later ones.
use super::*;

// The calls of a script, each with what it gives. Two records, ax and bx, fill a page each. Their pages are written, they
// are looked up, taken together, readmitted in turn, and looked up once more. With each call of the device taken it makes
// eight: two writes and six reads.
// What comes if each call of the device is refused alone, and if it is refused with all later ones. A taking loses
// the page of one record, and the readmission after it that of the other.
// The look-up of the one record failed, so it was not hit.
// After the readmissions the oldest segment has no live record, whatever was lost.
static REFUSED: &[u8] = b"
    refuse 1; config 1 1 1 2 2 8 1 65536
    append ax 1*200 appended; append bx 2*200 appended; flush sealed; flush page lost; flush wrote
    look ax absent; look bx hit 2*200; take bx=2*200 at 0 1 0 5 0; readmit readmitted; readmit none
    oldest empty; look ax absent; look bx hit 2*200; free freed

    refuse-from 1; config 1 1 1 2 2 8 1 65536
    append ax 1*200 appended; append bx 2*200 appended; flush sealed; flush page lost
    flush page lost; look ax absent; look bx absent; take none; readmit none; readmit none
    oldest empty; look ax absent; look bx absent; free freed

    refuse 2; config 1 1 1 2 2 8 1 65536
    append ax 1*200 appended; append bx 2*200 appended; flush sealed; flush wrote; flush page lost
    look ax hit 1*200; look bx absent; take ax=1*200 at 0 0 0 5 0; readmit readmitted; readmit none
    oldest empty; look ax hit 1*200; look bx absent; free freed

    refuse-from 2; config 1 1 1 2 2 8 1 65536
    append ax 1*200 appended; append bx 2*200 appended; flush sealed; flush wrote; flush page lost
    look ax fault; look bx absent; take page lost; readmit none; readmit none; oldest empty
    look ax absent; look bx absent; free freed

    refuse 3; config 1 1 1 2 2 8 1 65536
    append ax 1*200 appended; append bx 2*200 appended; flush sealed; flush wrote; flush wrote
    look ax fault; look bx hit 2*200; take bx=2*200 at 0 1 0 5 0 ax=1*200 at 0 0 0 6 0
    readmit readmitted; readmit readmitted; oldest empty; look ax hit 1*200; look bx hit 2*200
    free freed

    refuse-from 3; config 1 1 1 2 2 8 1 65536
    append ax 1*200 appended; append bx 2*200 appended; flush sealed; flush wrote; flush wrote
    look ax fault; look bx fault; take page lost; readmit fault; readmit none; oldest empty
    look ax absent; look bx absent; free freed

    refuse 4; config 1 1 1 2 2 8 1 65536
    append ax 1*200 appended; append bx 2*200 appended; flush sealed; flush wrote; flush wrote
    look ax hit 1*200; look bx fault; take bx=2*200 at 0 1 0 6 0 ax=1*200 at 0 0 0 5 0
    readmit readmitted; readmit readmitted; oldest empty; look ax hit 1*200; look bx hit 2*200
    free freed

    refuse-from 4; config 1 1 1 2 2 8 1 65536
    append ax 1*200 appended; append bx 2*200 appended; flush sealed; flush wrote; flush wrote
    look ax hit 1*200; look bx fault; take page lost; readmit fault; readmit none; oldest empty
    look ax absent; look bx absent; free freed

    refuse 5; config 1 1 1 2 2 8 1 65536
    append ax 1*200 appended; append bx 2*200 appended; flush sealed; flush wrote; flush wrote
    look ax hit 1*200; look bx hit 2*200; take page lost; readmit readmitted; readmit none
    oldest empty; look ax hit 1*200; look bx absent; free freed

    refuse-from 5; config 1 1 1 2 2 8 1 65536
    append ax 1*200 appended; append bx 2*200 appended; flush sealed; flush wrote; flush wrote
    look ax hit 1*200; look bx hit 2*200; take page lost; readmit fault; readmit none; oldest empty
    look ax absent; look bx absent; free freed

    refuse 6; config 1 1 1 2 2 8 1 65536
    append ax 1*200 appended; append bx 2*200 appended; flush sealed; flush wrote; flush wrote
    look ax hit 1*200; look bx hit 2*200; take page lost; readmit readmitted; readmit none
    oldest empty; look ax absent; look bx hit 2*200; free freed

    refuse-from 6; config 1 1 1 2 2 8 1 65536
    append ax 1*200 appended; append bx 2*200 appended; flush sealed; flush wrote; flush wrote
    look ax hit 1*200; look bx hit 2*200; take page lost; readmit fault; readmit none; oldest empty
    look ax absent; look bx absent; free freed

    refuse 7; config 1 1 1 2 2 8 1 65536
    append ax 1*200 appended; append bx 2*200 appended; flush sealed; flush wrote; flush wrote
    look ax hit 1*200; look bx hit 2*200; take bx=2*200 at 0 1 0 5 0 ax=1*200 at 0 0 0 5 0
    readmit fault; readmit readmitted; oldest empty; look ax absent; look bx hit 2*200; free freed

    refuse-from 7; config 1 1 1 2 2 8 1 65536
    append ax 1*200 appended; append bx 2*200 appended; flush sealed; flush wrote; flush wrote
    look ax hit 1*200; look bx hit 2*200; take bx=2*200 at 0 1 0 5 0 ax=1*200 at 0 0 0 5 0
    readmit fault; readmit fault; oldest empty; look ax absent; look bx absent; free freed

    refuse 8; config 1 1 1 2 2 8 1 65536
    append ax 1*200 appended; append bx 2*200 appended; flush sealed; flush wrote; flush wrote
    look ax hit 1*200; look bx hit 2*200; take bx=2*200 at 0 1 0 5 0 ax=1*200 at 0 0 0 5 0
    readmit readmitted; readmit fault; oldest empty; look ax hit 1*200; look bx absent; free freed

    refuse-from 8; config 1 1 1 2 2 8 1 65536
    append ax 1*200 appended; append bx 2*200 appended; flush sealed; flush wrote; flush wrote
    look ax hit 1*200; look bx hit 2*200; take bx=2*200 at 0 1 0 5 0 ax=1*200 at 0 0 0 5 0
    readmit readmitted; readmit fault; oldest empty; look ax hit 1*200; look bx absent; free freed

    refuse 9; config 1 1 1 2 2 8 1 65536
    append ax 1*200 appended; append bx 2*200 appended; flush sealed; flush wrote; flush wrote
    look ax hit 1*200; look bx hit 2*200; take bx=2*200 at 0 1 0 5 0 ax=1*200 at 0 0 0 5 0
    readmit readmitted; readmit readmitted; oldest empty; look ax hit 1*200; look bx hit 2*200
    free freed

    refuse-from 9; config 1 1 1 2 2 8 1 65536
    append ax 1*200 appended; append bx 2*200 appended; flush sealed; flush wrote; flush wrote
    look ax hit 1*200; look bx hit 2*200; take bx=2*200 at 0 1 0 5 0 ax=1*200 at 0 0 0 5 0
    readmit readmitted; readmit readmitted; oldest empty; look ax hit 1*200; look bx hit 2*200
    free freed
";

#[test]
fn each_page_is_lost_alone(rt: HostRuntime) -> Result<(), Fail> {
    play(rt.alloc(), REFUSED)
}
