ghost use Rattle.std.specs.Prelude.{◌≡◌, ℕ, ◌<◌, ◌≤◌, true, false, length, slice_index_or, IfOk};
ghost use Rattle.std.specs.List.{filter};
ghost use Rattle.std.specs.List.{All};
ghost use Rattle.std.specs.Ordering.{is_lt};
ghost use Rattle.vn_types.specs.Paths.{path_cmp, is_host, is_under};
ghost use Rattle.vn_jail.specs.Order.{Rises};
ghost use Rattle.vn_jail.specs.Tree.{path_at};

use crate::jail::Jail;
use std::alloc::Global;
use vn_types::{NoMemory, Path, Sid};

/// How many stacks of a list in order come before a path.
pub(crate) fn count_before(jails: &[Jail], order: &[Sid], path: &Path) -> usize
    requires rises { Rises jails.now order.now }
    requires label { is_host path.now ≡ false }
    ensures within { result ≤ length order.now }
    ensures before { (k : ℕ) (d : _) → k < result
        → is_lt (path_cmp (path_at jails.now (slice_index_or order.now k d).0) path.now) ≡ true }
    ensures behind { (k : ℕ) (d : _) → result ≤ k → k < length order.now
        → is_lt (path_cmp (path_at jails.now (slice_index_or order.now k d).0) path.now) ≡ false }
{
    order.partition_point(|sid| is_before(jails, *sid, path))
}

/// Whether a stack comes before a path.
fn is_before(jails: &[Jail], sid: Sid, path: &Path) -> bool
    requires { is_host path.now ≡ false }
    ensures { result ≡ is_lt (path_cmp (path_at jails.now sid.0) path.now) }
{
    match jails.get(sid.0 as usize) {
        Some(jail) => jail.path < *path,
        None => true,
    }
}

/// The stacks of a list that are at a path or below it.
pub(crate) fn list_under(
    alloc: Global,
    jails: &[Jail],
    order: &[Sid],
    path: &Path,
) -> Result<Vec<Sid>, NoMemory>
    requires { All (λ (sid : Sid). sid.0 < length jails.now) order.now }
    ensures { IfOk result (λ sids. sids.items
        ≡ filter (λ (sid : Sid). is_under (path_at jails.now sid.0) path.now) order.now) }
{
    let mut under = Vec::new(alloc);
    for sid in order {
        if jails[sid.0 as usize].path.is_under(path) {
            under.push(*sid)?;
        }
    }
    Ok(under)
}
