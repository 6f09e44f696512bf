//! The paths of the entries of a directory.

ghost use Rattle.std.specs.Prelude.{◌≡◌, IfOk, false, string_bytes};
ghost use Rattle.line_pieces.specs.Visible.{visible_bytes};
ghost use Rattle.audit_run.specs.Paths.{path_in};

use line_pieces::visible_name;
use std::alloc::{AllocError, Global};

/// The path of a name in a directory.
#[tactic(auto, unfolding(crate::specs::Paths::path_in))]
pub fn path_in(alloc: Global, directory: &str, name: &str) -> Result<String, AllocError>
    ensures { IfOk result (λ path. string_bytes path ≡ path_in directory.now name.now) }
{
    let mut path = String::from_str(alloc, directory)?;
    if !directory.as_bytes().ends_with(b"/") {
        path.push('/')?;
    }
    path.push_str(name)?;
    Ok(path)
}

/// The path of a name that is not UTF-8, as it is shown: each byte from 0x80 on by its number, in
/// the name and in the directory.
#[tactic(auto, unfolding(crate::specs::Paths::path_in))]
pub fn shown_path(alloc: Global, directory: &str, name: &[u8]) -> Result<String, AllocError>
    ensures { IfOk result (λ path. string_bytes path
        ≡ visible_bytes false (path_in directory.now name.now)) }
{
    let mut path = Vec::new(alloc);
    path.extend_from_slice(directory.as_bytes())?;
    if !directory.as_bytes().ends_with(b"/") {
        path.push(b'/')?;
    }
    path.extend_from_slice(name)?;
    visible_name(alloc, path.as_slice())
}
