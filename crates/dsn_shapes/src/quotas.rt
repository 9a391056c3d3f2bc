//! How many items and points may still come.
ghost use Rattle.std.specs.Prelude.{◌≡◌, Some, length, IfSome, IfNone};
ghost use Rattle.area_geometry.specs.Copper.{core_points};
ghost use Rattle.dsn_shapes.specs.QuotaLists.{points_of_shapes, IsTaken, NoQuota};
ghost use Rattle.dsn_shapes.specs.Quotas.{whole_quota, less, less_of, less_all, item_less, quota_for, quota_behind};

use area_geometry::{Shape, points_of};
use row_lists::{ITEM_LIMIT, POINT_LIMIT};

/// How many items, and how many points of their shapes, may still come.
#[derive(Clone, Copy, Debug)]
pub struct Quota {
    pub items: u32,
    pub points: u32,
}

/// What a design may have in all: 200,000 items and 4,000,000 points.
pub fn whole_quota() -> Quota
    ensures read { result ≡ whole_quota }
{
    Quota {
        items: ITEM_LIMIT,
        points: POINT_LIMIT,
    }
}

// How many points may still come behind so many; none where there are too many.
fn less(left: u32, count: usize) -> Option<u32>
    ensures { result ≡ less left count }
{
    if (left as usize) < count {
        return None;
    }
    Some(left - count as u32)
}

// How many points may still come behind those of one more shape.
fn less_of(left: Option<u32>, shape: &Shape) -> Option<u32>
    ensures { result ≡ less_of left (length (core_points shape.now.core)) }
{
    less(left?, points_of(&shape.core).len())
}

// How many points may still come behind those of the shapes; none where there are too many.
#[tactic(auto, unfolding(crate::specs::Quotas::less_all))]
fn less_all(left: u32, shapes: &[Shape]) -> Option<u32>
    ensures { result ≡ less_all (Some left) shapes.now }
{
    let mut left = Some(left);
    for shape in shapes {
        left = less_of(left, shape);
    }
    left
}

// One item less, where so many points are left.
fn item_less(quota: Quota, left: Option<u32>) -> Option<Quota>
    ensures { result ≡ item_less quota left }
{
    let points = left?;
    if quota.items == 0 {
        return None;
    }
    Some(Quota {
        items: quota.items - 1,
        points,
    })
}

/// The quota behind an item of so many points; none where there is no room for it.
#[tactic(auto, unfolding(crate::specs::Quotas::quota_for))]
pub fn quota_for(quota: Quota, points: usize) -> Option<Quota>
    ensures read { result ≡ quota_for quota points }
    ensures found { IfSome result (IsTaken quota points) }
    ensures only { (left : Quota) → IsTaken quota points left → result ≡ Some left }
    ensures none { IfNone result (NoQuota quota points) }
{
    item_less(quota, less(quota.points, points))
}

/// The quota behind an item of these shapes; none where there is no room for it.
#[tactic(auto, unfolding(crate::specs::Quotas::quota_behind))]
pub fn quota_behind(quota: Quota, shapes: &[Shape]) -> Option<Quota>
    ensures read { result ≡ quota_behind quota shapes.now }
    ensures found { IfSome result (IsTaken quota (points_of_shapes shapes.now)) }
    ensures only { (left : Quota) → IsTaken quota (points_of_shapes shapes.now) left → result ≡ Some left }
    ensures none { IfNone result (NoQuota quota (points_of_shapes shapes.now)) }
{
    item_less(quota, less_all(quota.points, shapes))
}
