//! A key is located, and its entry touched: to locate leaves the log as it was, and a touch lowers the prediction of its entry
//! and of no other.
use super::*;

// The second call of the device is refused, which is the first search on the page.
static IN_BUFFERS_AND_ON_THE_PAGE: &[u8] = b"
    refuse 2; config 1 1 1 2 1 8 1 65536
    append ax 1 appended; append bx - appended
    locate ax at 0 0 0 6 1; locate bx at 0 0 1 6 -; locate ax at 0 0 0 6 1; locate-late ax expired
    locate cx absent; locate - absent; locate a*256 absent
    touch ax
    locate ax at 0 0 0 5 1; locate bx at 0 0 1 6 -
    flush sealed
    locate ax at 0 0 0 5 1
    touch ax
    flush wrote
    locate ax fault; locate-late ax expired; locate ax at 0 0 0 4 1
    touch ax
    oldest 0 2204 at 0 0 0 3
    look ax hit 1; locate ax at 0 0 0 2 1
";

#[test]
fn a_located_value_is_in_the_buffer(rt: HostRuntime) -> Result<(), Fail> {
    play(rt.alloc(), IN_BUFFERS_AND_ON_THE_PAGE)
}

static LOST: &[u8] = b"
    append ax 1 appended; flush sealed; flush wrote
    locate ax damaged
";

#[test]
fn a_lost_page_leaves_the_buffer(rt: HostRuntime) -> Result<(), Fail> {
    play_on_blank(rt.alloc(), LOST)
}

// `aaa` and `aac` have one tag and set 0, `aab` and `aad` that tag and set 1, and `ax` and `bx` other tags, sets 0 and 1.
static EACH_ALONE: &[u8] = b"
    config 1 2 1 2 2 8 1 65536
    append aaa 1 appended; append aac 2 appended; append aab 3*200 appended; flush sealed
    append aad 4 appended; append ax 5 appended; append bx 6 appended
    touch aac
    locate aaa at 0 0 0 6 1; locate aac at 0 0 1 5 2; locate aab at 0 1 0 6 3*200
    locate aad at 1 0 0 6 4; locate ax at 1 0 1 6 5; locate bx at 1 0 2 6 6
    # Touched on the other page, and in the other segment.
    touch aab; touch aad; touch aad
    locate aaa at 0 0 0 6 1; locate aac at 0 0 1 5 2; locate aab at 0 1 0 5 3*200
    locate aad at 1 0 0 4 4; locate ax at 1 0 1 6 5; locate bx at 1 0 2 6 6
    # The same with the first segment on the device; a look is a touch, and a prediction is not below 0.
    flush wrote; flush wrote
    touch aaa
    look aab hit 3*200
    touch ax; touch bx; touch bx; touch bx; touch bx; touch bx; touch bx; touch bx
    locate aaa at 0 0 0 5 1; locate aac at 0 0 1 5 2; locate aab at 0 1 0 4 3*200
    locate aad at 1 0 0 4 4; locate ax at 1 0 1 5 5; locate bx at 1 0 2 0 6
    # A newer record of the key is the one that is touched.
    append aaa 7 appended
    touch aaa
    look aaa hit 7
    oldest 0 59164 at 0 0 0 5
";

#[test]
fn a_touch_lowers_one_entry(rt: HostRuntime) -> Result<(), Fail> {
    play(rt.alloc(), EACH_ALONE)
}
