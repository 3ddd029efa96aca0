//! When a store opens.
use super::*;

// Why a store of this configuration and page size is not opened over this many pages.
fn fault<const PAGE: usize>(
    alloc: Global,
    config: &Config,
    pages: u32,
) -> Result<Option<OpenFault>, Fail> {
    let device = match MemoryDevice::<PAGE>::new(alloc, pages) {
        Ok(device) => device,
        Err(_) => MemoryDevice::<PAGE>::new(alloc, pages)?,
    };
    Ok(Store::open(alloc, config, device).err())
}

/// An empty store over a device, in memory of its own.
pub fn boxed<D: PageDevice<PAGE>, const PAGE: usize>(
    alloc: Global,
    config: &Config,
    device: D,
) -> Result<Box<Store<D, PAGE>>, OpenFault> {
    match Box::new(alloc, Store::open(alloc, config, device)?) {
        Ok(store) => Ok(store),
        Err(_) => Err(OpenFault::OutOfMemory),
    }
}

// A store over just enough pages.
fn opened(alloc: Global) -> Result<Box<Store<MemoryDevice<256>, 256>>, OpenFault> {
    boxed(alloc, &ONE_SET, MemoryDevice::new(alloc, 3)?)
}

// The entries of the layout of such a store and the pages of its device; it is opened once more if memory was refused.
fn numbers(alloc: Global) -> Result<(u32, u32), Fail> {
    let store = match opened(alloc) {
        Ok(store) => store,
        Err(_) => opened(alloc)?,
    };
    let entries = store.layout().entries;
    Ok((entries, Box::into_inner(store).into_device().pages()))
}

static NO_SET: Config = Config { sets: 0, ..ONE_SET };

static NO_FIELD: Option<OpenFault> = Some(OpenFault::ConfigFault { field: Field::Sets });

#[test]
fn a_store_opens_over_enough_pages(rt: HostRuntime) -> Result<(), Fail> {
    let alloc = rt.alloc();
    let small = fault::<256>(alloc, &ONE_SET, 2)?;
    assert!(rt; small == Some(OpenFault::DeviceTooSmall));
    let wrong = fault::<128>(alloc, &ONE_SET, 2)?;
    assert!(rt; wrong == Some(OpenFault::WrongPage));
    let unset = fault::<128>(alloc, &NO_SET, 2)?;
    assert!(rt; unset == NO_FIELD);
    let (entries, pages) = numbers(alloc)?;
    assert!(rt; entries == 8 && pages == 3);
    Ok(())
}
