// Lanes that are laid out as one history, and the lists that they are made of.
ghost use Rattle.std.specs.Prelude.{◌≡◌, ◌≤◌, ◌^◌, All, IfOk, length};
ghost use Rattle.std.specs.List.{flat_map};
ghost use Rattle.certificate_checker.specs.Lanes.{calls_of, PointsRise};

use certificate_checker::{Done, Verdict, check};
use history_recorder::{Dones, lay_out};
use record_pages::{Key, NEVER, Value};
use std::alloc::Global;
use std::test::Fail;
use test_devices::{Scripted, TextStep, is, run_text};
use trace_file::{Act, ActRef, Call, CallRef, Certificate, History};

/// A put of a key with itself as value, in a lane.
#[derive(Clone, Copy)]
struct Put<'a> {
    lane: u32,
    key: &'a [u8],
    start: u64,
    point: u64,
    end: u64,
}

/// Puts of lanes, one lane after the other, counted from 1.
#[derive(Drop)]
struct Asked<'a> {
    lanes: u32,
    puts: Vec<Put<'a>>,
}

/// Lanes that are laid out, and lists of done calls.
#[derive(Drop)]
struct Layouts;

impl Scripted for Layouts {
    ghost use Rattle.std.specs.Prelude.{⊤};

    ghost can_act = { ⊤ };

    fn act(&mut self, alloc: Global, step: &mut TextStep<'_>) -> Result<(), Fail> {
        let word = step.word();
        let asked = asked_of(alloc, step)?;
        if is(word, b"lay") {
            return lay(alloc, &asked, step);
        }
        let list = if is(word, b"list") {
            lane_of(alloc, asked.puts.as_slice())?
        } else {
            kept_of(alloc, asked.puts.as_slice())?
        };
        tell_list(&list, step);
        Ok(())
    }
}

// Takes puts up to the word `gives`, each by its key, start, point and end; the word `lane` stands before those of a lane.
fn asked_of<'a>(alloc: Global, step: &mut TextStep<'a>) -> Result<Asked<'a>, Fail> {
    let mut lanes = 0u32;
    let mut puts = Vec::new(alloc);
    for _ in 0..32usize {
        let key = step.word();
        if key.is_empty() || is(key, b"gives") {
            break;
        }
        if is(key, b"lane") {
            lanes = lanes.wrapping_add(1);
            continue;
        }
        puts.push(Put {
            lane: lanes,
            key,
            start: step.number(),
            point: step.number(),
            end: step.number(),
        })?;
    }
    Ok(Asked { lanes, puts })
}

fn done_of(alloc: Global, put: &Put<'_>) -> Result<Done, Fail>
    ensures { IfOk result (λ done. done.point ≡ put.now.point) }
{
    let call = Call {
        caller: 7,
        start: put.start,
        end: put.end,
        key: Key::new(alloc, put.key)?,
        act: Act::Put(Value::new(alloc, put.key)?, NEVER),
    };
    Ok(Done {
        call,
        point: put.point,
    })
}

/// The lane of some puts, whose points rise from 1 on.
fn lane_of(alloc: Global, puts: &[Put<'_>]) -> Result<Dones, Fail>
    ensures rise { IfOk result (λ lane. PointsRise lane) }
    ensures count { IfOk result (λ lane. length lane ≡ length puts.now) }
{
    let mut lane = Dones::new(alloc);
    let mut last = 0;
    for put in puts {
        if put.point <= last {
            return Err("a point that does not rise".into());
        }
        lane.push(done_of(alloc, put)?)?;
        last = put.point;
    }
    Ok(lane)
}

// The puts of a lane.
fn own_of<'a>(puts: &'a [Put<'a>], lane: u32) -> &'a [Put<'a>] {
    let Some(from) = puts.iter().position(|p| p.lane == lane) else {
        return &[];
    };
    let own = &puts[from..];
    match own.iter().position(|p| p.lane != lane) {
        Some(to) => &own[..to],
        None => own,
    }
}

/// The lanes of puts, at most a hundred in all.
fn lanes_of(alloc: Global, asked: &Asked<'_>) -> Result<Vec<Dones>, Fail>
    ensures rise { IfOk result (λ lanes. All PointsRise lanes.items) }
    ensures few { IfOk result (λ lanes. length (flat_map calls_of lanes.items) ≤ 100) }
{
    let mut lanes = Vec::new(alloc);
    let mut left: usize = 100;
    for lane in 0..asked.lanes {
        let puts = own_of(asked.puts.as_slice(), lane + 1);
        if puts.len() > left {
            return Err("too many puts".into());
        }
        lanes.push(lane_of(alloc, puts)?)?;
        left -= puts.len();
    }
    Ok(lanes)
}

// Lays lanes out, once more if memory was refused. Tells each call by its key, start and end, the certificate, and what the checker
// says.
fn lay(alloc: Global, asked: &Asked<'_>, step: &mut TextStep<'_>) -> Result<(), Fail> {
    let (history, certificate) = match lay_out(alloc, lanes_of(alloc, asked)?) {
        Ok(laid) => laid,
        Err(_) => lay_out(alloc, lanes_of(alloc, asked)?)?,
    };
    tell_calls(&history, step);
    tell_order(&certificate, step);
    step.tell(if check(alloc, &history, &certificate)? == Verdict::Accepted {
        b"accepted"
    } else {
        b"rejected"
    });
    Ok(())
}

fn tell_calls(history: &History, step: &mut TextStep<'_>) {
    for position in 0..history.len() {
        let call = history.at(position);
        tell_put(&call, step);
        step.tell_number(call.end);
    }
}

fn tell_order(certificate: &Certificate, step: &mut TextStep<'_>) {
    step.tell(b"order");
    for place in 0..certificate.len() {
        step.tell_number(u64::from(certificate.at(place)));
    }
}

// Tells a put by its key and start: it has the key as value too, never expires, and is of caller 7.
fn tell_put(call: &CallRef<'_>, step: &mut TextStep<'_>) {
    step.tell(call.key);
    step.tell_number(call.start);
    if !is_put(call) {
        step.refuse();
    }
}

fn is_put(call: &CallRef<'_>) -> bool {
    match call.act {
        ActRef::Put(value, expires) => { expires == NEVER && call.caller == 7 && value == call.key }
        _ => false,
    }
}

// Tells each call of a list by its key, start, point and end.
fn tell_list(list: &Dones, step: &mut TextStep<'_>) {
    if list.is_empty() {
        step.tell(b"empty");
    }
    for number in 0..list.len() {
        let call = list.at(number);
        tell_put(&call, step);
        step.tell_number(list.point(number));
        step.tell_number(call.end);
    }
}

/// The list of some puts, of their calls as a lane keeps them, each with its point for its end, and of their ends.
fn kept_of(alloc: Global, puts: &[Put<'_>]) -> Result<Dones, Fail> {
    let mut calls = History::new(alloc);
    let mut ends = Vec::new(alloc);
    for put in puts {
        let kept = done_of(
            alloc,
            &Put {
                end: put.point,
                ..*put
            },
        )?;
        calls.push(kept.call)?;
        ends.push(put.end)?;
    }
    if calls.len() != ends.len() {
        return Err("calls without an end".into());
    }
    Ok(Dones::of(calls, ends))
}

// A put has a key, a start, a point and an end.
static LAID_OUT: &[u8] = b"
    lay gives order accepted
    lay lane a 1 4 5 lane b 2 3 6 gives a 1 5 b 2 6 order 1 0 accepted
    lay lane a 1 4 5 lane lane b 2 3 6 gives a 1 5 b 2 6 order 1 0 accepted
    lay lane lane gives order accepted
    lay lane a 1 5 9 lane b 2 5 8 gives a 1 9 b 2 8 order 0 1 accepted
    lay lane a 4 6 7 lane b 2 5 8 c 5 6 9 lane d 1 5 6 gives a 4 7 b 2 8 c 5 9 d 1 6 order 1 3 0 2 accepted
    # The last end of all is the greatest number.
    lay lane a 1 2 4 d 8 9 9 lane b 0 3 5 e 4 5 6 f 2 10 18446744073709551615 lane c 0 1 1 g 6 7 8 gives a 1 4 d 8 9 b 0 5 e 4 6 f 2 18446744073709551615 c 0 1 g 6 8 order 5 0 2 3 6 1 4 accepted
";

#[test]
fn lanes_are_laid_out_by_point_and_lane(rt: HostRuntime) -> Result<(), Fail> {
    run_text(rt.alloc(), &mut Layouts, LAID_OUT)
}

static ONE_EACH: &[u8] = b"lay lane a 1 4 5 lane b 2 3 6 gives a 1 5 b 2 6 order 1 0 accepted";

#[test]
fn a_laid_out_call_has_its_start_and_end(rt: HostRuntime) -> Result<(), Fail> {
    run_text(rt.alloc(), &mut Layouts, ONE_EACH)
}

static LISTED: &[u8] = b"list gives empty; list a 1 2 3 b 4 5 7 gives a 1 2 3 b 4 5 7";

#[test]
fn a_list_of_done_calls_gives_its_calls_back(rt: HostRuntime) -> Result<(), Fail> {
    run_text(rt.alloc(), &mut Layouts, LISTED)
}

static KEPT: &[u8] = b"keep gives empty; keep a 1 2 3 b 4 5 7 gives a 1 2 3 b 4 5 7";

#[test]
fn kept_calls_get_the_ends_beside_them(rt: HostRuntime) -> Result<(), Fail> {
    run_text(rt.alloc(), &mut Layouts, KEPT)
}
