//! What names are compared by.

ghost use Rattle.std.specs.Prelude.{◌≡◌, IfOk, bytes_eq, string_bytes};
ghost use Rattle.file_names.specs.Names.{are_alike, name_key};

use caseless::default_case_fold_str;
use std::alloc::{AllocError, Global};
use unicode_normalization::to_nfd;

/// What stands for a name where it is compared with others. `AllocError` where an allocation failed.
pub fn name_key(global: Global, name: &str) -> Result<String, AllocError>
    ensures { IfOk result (λ key. string_bytes key ≡ name_key name.now) }
{
    let decomposed = to_nfd(global, name)?;
    let folded = default_case_fold_str(global, decomposed.as_str())?;
    to_nfd(global, folded.as_str())
}

/// Whether some folders take two names for one. `AllocError` where an allocation failed.
pub fn are_alike(global: Global, name: &str, other: &str) -> Result<bool, AllocError>
    ensures { IfOk result (λ alike. alike ≡ are_alike name.now other.now) }
{
    let key = name_key(global, name)?;
    let other_key = name_key(global, other)?;
    Ok(is_same(key.as_str(), other_key.as_str()))
}

#[tactic(auto, using(crate::proofs::Names::tells_same))]
fn is_same(text: &str, other: &str) -> bool
    ensures { result ≡ bytes_eq text.now other.now }
{
    *text == *other
}
