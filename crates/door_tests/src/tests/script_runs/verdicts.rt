// The line that a script prints at `verdict` is the line of the checker.
use certificate_checker::verdict_line_of;
use record_pages::{Key, Value};
use std::test::Fail;
use trace_file::{Act, Call, Certificate, History};

#[test]
fn a_verdict_comes_from_the_checker(rt: HostRuntime) -> Result<(), Fail> {
    let alloc = rt.alloc();
    let mut history = History::new(alloc);
    history.push(Call {
        caller: 0,
        start: 1,
        end: 3,
        key: Key::new(alloc, b"a")?,
        act: Act::Hit(Value::new(alloc, b"1")?, 0),
    })?;
    let mut certificate = Certificate::new(alloc);
    certificate.push(0)?;
    let line = verdict_line_of(alloc, &history, &certificate)?;
    assert!(rt; line.as_str() == "rejected WrongHit place 0");
    Ok(())
}
