//! A whole explanation, and what a picture has.
use crate::tests::made::history_of;
use certificate_finder::{Excluded, Excuse, Witness};
use history_picture::{ExplainFault, Reason, Scene, draw, explanation, picture};
use std::alloc::{AllocError, Global};
use std::io;
use std::io::{Error, ErrorKind, Write};
use std::test::Fail;
use trace_file::History;

/// What is said of a stale hit.
const STALE: &str =
    "the hit of %1B%25 (line 6) is stale: put %1B%25 (line 4) ended at 14, before put v2 (line 5) started at 16, which ended at 21, before the hit started at 25\n* 4  alice   0  14  put    %1B%25  []\n* 5  1      16  21  put    v2        []\n* 6  alice  25   -  hit    %1B%25      [=>\n";

/// Parts of its picture: the title of a call; arrows from the earlier call to the later; where the sentence is broken, the label of each
/// of the three calls, and the first and the last time.
static PARTS: [&str; 9] = [
    "<title>position 2: the hit of %1B%25, from 25 to -</title>",
    "<path d=\"M 64 136 C 88 136 64 182 88 182\"",
    "<path d=\"M 112 182 C 136 182 112 136 136 136\"",
    "before put v2 </tspan>\n<tspan x=\"16\" dy=\"18\">(position 1) started",
    "<text x=\"40\" y=\"64\">position 0: put %1B%25</text>",
    "<text x=\"88\" y=\"82\">position 1: put v2</text>",
    "<text x=\"136\" y=\"100\">position 2: the hit of %1B%25</text>",
    "<text transform=\"translate(36 212) rotate(90)\">0</text>",
    "<text transform=\"translate(132 212) rotate(90)\">25</text>",
];

/// A writer that fails.
#[derive(Drop)]
struct Failing;

impl Write for Failing {
    fn write(&mut self, _buf: &[u8]) -> io::Result<usize> {
        Err(Error::from(ErrorKind::Interrupted))
    }

    fn flush(&mut self) -> io::Result<()> {
        Ok(())
    }
}

/// Two puts of a key, and a hit of the first one's value after both.
pub(super) static CALLS: &[u8] = b"
0 0 14 put k \x1b%
1 16 21 put k v2
0 25 18446744073709551615 hit k \x1b%
";

/// Why it is rejected.
fn reason(alloc: Global) -> Result<Reason, AllocError> {
    let puts = vec![in alloc;
        Excluded {
            put: 0,
            why: Excuse::Replaced(1)
        },
    ]?;
    Ok(Reason::of_witness(Witness::Hit(2, puts)))
}

/// What is made of a reason.
#[derive(Clone, Copy)]
pub(super) enum What {
    Sentence,
    Explanation,
    Picture,
}

/// What is said of a reason of a history, with these lines and one caller's name if that has bytes, or its picture.
pub(super) fn told(
    alloc: Global,
    history: &History,
    lines: &[u64],
    name: &[u8],
    reason: &Reason,
    what: What,
) -> Result<String, AllocError> {
    let names = names_of(alloc, name)?;
    let scene = Scene {
        history,
        lines,
        callers: names.as_slice(),
    };
    match what {
        What::Sentence => scene.sentence(alloc, reason),
        What::Explanation => explanation(alloc, &scene, reason),
        What::Picture => picture(alloc, &scene, reason),
    }
}

/// One name, or none if it has no bytes.
fn names_of(alloc: Global, name: &[u8]) -> Result<Vec<Vec<u8>>, AllocError> {
    let mut names: Vec<Vec<u8>> = Vec::new(alloc);
    if !name.is_empty() {
        names.push(Vec::from_slice(alloc, name)?)?;
    }
    Ok(names)
}

/// Whether a picture is refused by a writer that fails.
fn is_refused(alloc: Global, history: &History, reason: &Reason) -> bool {
    let scene = Scene {
        history,
        lines: &[],
        callers: &[],
    };
    draw(alloc, &scene, reason, &mut Failing) == Err(ExplainFault::WriteFault)
}

#[test]
fn a_stale_hit_is_explained_in_lines(rt: HostRuntime) -> Result<(), Fail> {
    let history = history_of(rt.alloc(), CALLS)?;
    let reason = reason(rt.alloc())?;
    let what = What::Explanation;
    let text = told(rt.alloc(), &history, &[4, 5, 6], b"alice", &reason, what)?;
    assert!(rt; text.as_str() == STALE);
    Ok(())
}

/// Whether a picture is one element, and has all parts, and no text that some viewers do not show.
fn is_drawn(text: &str) -> bool {
    for part in &PARTS {
        if !text.contains(*part) {
            return false;
        }
    }
    text.starts_with("<svg xmlns=\"http://www.w3.org/2000/svg\" width=\"800\"")
        && text.ends_with("</svg>\n")
        && !text.contains("foreignObject")
}

#[test]
fn a_picture_is_one_element_that_any_viewer_shows(rt: HostRuntime) -> Result<(), Fail> {
    let history = history_of(rt.alloc(), CALLS)?;
    let reason = reason(rt.alloc())?;
    let text = told(rt.alloc(), &history, &[], &[], &reason, What::Picture)?;
    assert!(rt; is_drawn(text.as_str()));
    Ok(())
}

#[test]
fn a_writer_that_fails_is_told(rt: HostRuntime) -> Result<(), Fail> {
    let history = history_of(rt.alloc(), CALLS)?;
    let reason = reason(rt.alloc())?;
    assert!(rt; is_refused(rt.alloc(), &history, &reason));
    Ok(())
}
