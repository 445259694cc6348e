//! That a pool may move to another thread.

ghost use Rattle.std.specs.Prelude.{◌≡◌};

use attempt_pool::Pool;

/// Takes what may move to another thread.
fn moved_value<T: Send>(value: T) -> T
    ensures { result ≡ value }
{
    value
}

/// Takes a pool of any records that may move to another thread.
pub fn moved_pool<T: Copy + Send>(pool: Pool<T>) -> Pool<T>
    ensures { result ≡ pool }
{
    moved_value(pool)
}
