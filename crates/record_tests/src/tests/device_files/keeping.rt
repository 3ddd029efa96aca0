//! What a file keeps: pages that were written, when it is opened again, with more pages or with fewer.
use super::files::{Pages, has_mode, keeps};
use std::fs;
use std::test::Fail;

#[test]
fn a_page_is_read_back_and_kept(rt: HostRuntime) -> Result<(), Fail> {
    let _ = fs::remove_file(&rt, "kept.pages");
    let held = [(0, 5), (1, 0), (2, 7)];
    assert!(rt;
        keeps(&rt, "kept.pages", 3, &[(0, 5), (2, 7)], &held)
            && keeps(&rt, "kept.pages", 3, &[], &held)
    );
    Ok(fs::remove_file(&rt, "kept.pages")?)
}

#[test]
fn more_pages_are_zeros_and_fewer_cut_the_file(rt: HostRuntime) -> Result<(), Fail> {
    let _ = fs::remove_file(&rt, "longer.pages");
    assert!(rt;
        keeps(&rt, "longer.pages", 1, &[(0, 9)], &[])
            && keeps(&rt, "longer.pages", 4, &[], &[(0, 9), (1, 0), (3, 0)])
            && keeps(&rt, "longer.pages", 2, &[], &[(0, 9)])
    );
    Ok(fs::remove_file(&rt, "longer.pages")?)
}

#[test]
fn a_new_file_is_for_its_owner_alone(rt: HostRuntime) -> Result<(), Fail> {
    let _ = fs::remove_file(&rt, "owned.pages");
    let device = Pages::open(&rt, "owned.pages", 1)?;
    assert!(rt; has_mode(&rt, "owned.pages", 0o600));
    drop(device);
    Ok(fs::remove_file(&rt, "owned.pages")?)
}
