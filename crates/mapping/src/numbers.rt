//! Numbers of the pages of the pool, by which the entries are numbered.
ghost use Rattle.std.specs.Prelude.{◌≡◌, ◌<◌, ◌≤◌};
ghost use Rattle.cache_model.specs.Entries.{InPool};
ghost use Rattle.mapping.specs.Numbers.{pool_pages, number_of};

use ft_base::{Geometry, Place};

/// How many pages the pool has.
pub fn pool_pages(geometry: &Geometry) -> u32
    ensures count { result ≡ pool_pages geometry.now }
    ensures few { result ≤ 73856 }
{
    (geometry.c + geometry.l + 1) * geometry.p
}

/// The page of a number.
pub fn pool_place(geometry: &Geometry, i: u32) -> Place
    requires { i < pool_pages geometry.now }
    ensures pool { InPool geometry.now result }
    ensures number { number_of geometry.now result ≡ i }
{
    Place {
        block: geometry.first_pool() + i / geometry.p,
        page: i % geometry.p,
    }
}

/// The number of a page of the pool.
pub fn number_of(geometry: &Geometry, at: Place) -> u32
    requires { InPool geometry.now at }
    ensures number { result ≡ number_of geometry.now at }
    ensures below { result < pool_pages geometry.now }
{
    (at.block - geometry.first_pool()) * geometry.p + at.page
}
