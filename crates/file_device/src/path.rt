// The paths of lanes' files.
ghost use Rattle.std.specs.Prelude.{◌≡◌, IfOk, string_bytes};
ghost use Rattle.file_device.specs.Files.{path_of};

use std::alloc::{AllocError, Global};

/// The path of a lane's file in this folder: `lane-0.dev` and so on. An empty name is the current folder.
pub fn lane_path(alloc: Global, folder: &str, lane: u32) -> Result<String, AllocError>
    ensures { IfOk result (λ path. string_bytes path ≡ path_of folder.now lane) }
{
    if folder.is_empty() {
        return format!(in alloc; "lane-{lane}.dev");
    }
    format!(in alloc; "{folder}/lane-{lane}.dev")
}
