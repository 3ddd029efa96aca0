// What a command's verdict does to a lane.
ghost use Rattle.std.specs.Prelude.{◌≡◌, ◌<◌, ◌↔◌, length, MatchResult, IsTrue, IsErrOf, IfOk, Err};
ghost use Rattle.record_pages.specs.Bounded.{IsKey};
ghost use Rattle.record_pages.specs.declared.put_fault.PutFault.{PutFault};
ghost use Rattle.service_lane.specs.Serving.{Removes};
ghost use Rattle.item_lane.specs.Cells.{cell_text};
ghost use Rattle.item_lane.specs.Plans.{plan_shown, parts_shown};
ghost use Rattle.item_lane.specs.Doing.{Follows, Lands, IsTooLarge};

use crate::command_reply::CommandReply;
use crate::command_verdict::{CommandVerdict, ItemParts};
use crate::head_text::HeadText;
use page_device::PageDevice;
use record_pages::{Key, PAGE_OVERHEAD, PutFault, RECORD_OVERHEAD, Value};
use service_lane::ServiceLane;
use std::alloc::Global;

/// Does what a verdict says.
pub(crate) fn follow<D: PageDevice<PAGE>, const PAGE: usize>(
    lane: &mut ServiceLane<D, PAGE>,
    alloc: Global,
    key: &[u8],
    word: u32,
    verdict: CommandVerdict<'_>,
) -> Result<CommandReply, PutFault>
    requires { IsKey key.now }
    ensures { Follows PAGE D.held key.now word (plan_shown verdict.entry) lane.old result lane.new }
{
    match verdict {
        CommandVerdict::Keep(reply) => Ok(reply),
        CommandVerdict::Store(parts, reply) => match store(lane, alloc, key, word, parts) {
            Ok(()) => Ok(reply),
            Err(fault) => Err(fault),
        },
        CommandVerdict::Remove(reply) => {
            remove(lane, key);
            Ok(reply)
        }
    }
}

/// Removes a key.
pub(crate) fn remove<D: PageDevice<PAGE>, const PAGE: usize>(
    lane: &mut ServiceLane<D, PAGE>,
    key: &[u8],
)
    requires { IsKey key.now }
    ensures { Removes D.held key.now lane.old lane.new }
{
    match lane.remove(key) {
        Ok(()) => {}
        Err(_) => unreachable!(),
    }
}

// Stores an item, or removes its key.
fn store<D: PageDevice<PAGE>, const PAGE: usize>(
    lane: &mut ServiceLane<D, PAGE>,
    alloc: Global,
    key: &[u8],
    word: u32,
    parts: ItemParts<'_>,
) -> Result<(), PutFault>
    requires { IsKey key.now }
    ensures { Lands PAGE D.held key.now (parts_shown parts.entry) word lane.old result lane.new }
{
    match make_object::<PAGE>(alloc, key, parts) {
        Ok(object) => {
            let expires = parts.head.expires();
            match lane.put_or_remove(object.key, object.value, word, expires) {
                Ok(_) => Ok(()),
                Err(fault) => Err(fault),
            }
        }
        Err(fault) => {
            remove(lane, key);
            Err(fault)
        }
    }
}

// A key and the value that its item's cell is.
#[derive(Drop)]
struct CellObject {
    key: Key,
    value: Value,
}

// Copies of a key and of the cell of its item. The sizes are tested first.
fn make_object<const PAGE: usize>(
    alloc: Global,
    key: &[u8],
    parts: ItemParts<'_>,
) -> Result<CellObject, PutFault>
    requires { IsKey key.now }
    ensures key { IfOk result (λ object. object.key ≡ key.now) }
    ensures value { IfOk result (λ object. object.value ≡ cell_text (parts_shown parts.entry)) }
    ensures large { (result ≡ Err PutFault.TooLarge)
        ↔ IsTooLarge PAGE key.now (parts_shown parts.entry) }
{
    if is_too_large::<PAGE>(key, &parts) {
        return Err(PutFault::TooLarge);
    }
    let head = HeadText::of(&parts.head);
    let Ok(key) = Key::new(alloc, key) else {
        return Err(PutFault::OutOfMemory);
    };
    let Ok(value) = Value::of_parts(alloc, head.bytes(), parts.front, parts.back) else {
        return Err(PutFault::OutOfMemory);
    };
    Ok(CellObject { key, value })
}

// Whether an item is too large for a value, or for a page with its key.
fn is_too_large<const PAGE: usize>(key: &[u8], parts: &ItemParts<'_>) -> bool
    ensures { IsTrue result ↔ IsTooLarge PAGE key.now (parts_shown parts.now) }
{
    let data = parts.front.len().saturating_add(parts.back.len());
    let len = parts.head.len().saturating_add(data);
    let room = PAGE.saturating_sub(PAGE_OVERHEAD);
    len > Value::MAX_LEN || RECORD_OVERHEAD + key.len() + len > room
}
