//! What one user may use of a number that users share.

ghost use Rattle.std.specs.Prelude.{◌≡◌, ◌≤◌, ◌^◌, nat_le};
ghost use Rattle.ynl_resource.specs.Ranges.{whole};
ghost use Rattle.ynl_search.specs.limits.Shares.{share_of};

use ynl_resource::WHOLE;

/// An equal share of a number, or the percentage of it where that is more, both rounded up.
#[tactic(auto, using(crate::proofs::limits::Rounded::ceil_alike))]
pub fn share_of(base: u64, users: u64, percent: u64) -> u64
    requires base { base ≤ 2 ^ 50 }
    requires some_users { 1 ≤ users }
    requires percent { percent ≤ whole }
    ensures { result ≡ share_of base users percent }
{
    base.div_ceil(users).max((base * percent).div_ceil(WHOLE))
}

/// Whether what is used is at most that share. It is if nothing is used, or if one less than what is used is
/// below the share before that is rounded up.
pub fn is_within_share(used: u64, base: u64, users: u64, percent: u64) -> bool
    requires { 1 ≤ users }
    ensures { result ≡ nat_le used (share_of base users percent) }
{
    if used == 0 {
        return true;
    }
    let less = u128::from(used - 1);
    less * u128::from(users) < u128::from(base)
        || less * u128::from(WHOLE) < u128::from(base) * u128::from(percent)
}
